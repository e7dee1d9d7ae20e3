//! Words, the statuses that they come to, and what is written where a write fails.

use crate::command::{Command, command_of};
use crate::replay::replay_all;
use crate::status::Status;
use crate::tests::words_of;
use crate::top::atahost;
use ata_io::{MemSink, MemSource, SureSink, SureSource};
use port_threads::NoGate;
use std::test::Fail;

const HEAD: &str = "atahost 1\nport 0 direct\ndrive 0 0 0 ALPHA S1 4096 0 3 0\n";

#[test]
fn words_ask_for_commands(rt: HostRuntime) -> Result<(), Fail> {
    let alloc = rt.alloc();
    for (text, rounds) in [
        ("replay", Some(200_000)),
        ("replay --rounds 0", Some(0)),
        ("replay --rounds 1000000", Some(1_000_000)),
        ("replay --rounds 1000001", None),
        ("replay --rounds 18446744073709551617", None),
        ("replay --rounds 01", None),
        ("replay --rounds +1", None),
        ("replay --rounds", None),
        ("replay --round 1", None),
        ("replay --rounds 1 1", None),
        ("replays", None),
        ("", None),
    ] {
        let want = rounds.map(|rounds| Command::Replay { rounds });
        assert_eq!(rt; command_of(&words_of(alloc, text)?), want, "{text}");
    }
    for (text, want) in [
        ("gen 1", Some((1, 200_000))),
        ("gen 20000 --rounds 5", Some((20_000, 5))),
        ("gen 20001", None),
        ("gen 0", None),
        ("gen 01", None),
        ("gen", None),
        ("gen 1 2", None),
        ("gen --rounds 5", None),
    ] {
        let want = want.map(|(n, rounds)| Command::Gen { n, rounds });
        assert_eq!(rt; command_of(&words_of(alloc, text)?), want, "{text}");
    }
    let run = Command::Run { rounds: 7 };
    assert_eq!(rt; command_of(&words_of(alloc, "run --rounds 7")?), Some(run));
    assert_eq!(rt; command_of(&[]), None);
    Ok(())
}

#[test]
fn each_status_comes(rt: HostRuntime) -> Result<(), Fail> {
    let alloc = rt.alloc();
    for (words, tail, fail, want) in [
        ("replay", "", 99, Status::Done),
        ("replays", "", 99, Status::Usage),
        (
            "replay --rounds 0",
            "0 0 submit 1 0 flush 5 9\n",
            99,
            Status::Left { k: 1 },
        ),
        ("replay", "0 0 submit 1 0 flush 5 9\n", 99, Status::Done),
        ("run", "0 0 submit 1 0 flush 5 9\n", 99, Status::Done),
        (
            "replay",
            "0 0 irq",
            99,
            Status::BadScript { line: 4, rule: 2 },
        ),
        ("replay", "", 1, Status::ReadFault),
    ] {
        let text = format!(in alloc; "{HEAD}{tail}")?;
        let mut source = MemSource::new(text.into_bytes(), 64, vec![in alloc; fail]?);
        let words = words_of(alloc, words)?;
        let status = atahost(
            &rt,
            alloc,
            &words,
            &mut source,
            &mut SureSink::new(),
            &NoGate,
        );
        assert_eq!(rt; status, want);
    }
    Ok(())
}

// A write of eight sectors, and a read of them.
const STEPS: &str = "0 0 submit 1 0 write 0 8 7 5 30000
0 0 kick 0
0 0 work 0 0
0 0 irq
0 0 submit 2 0 read 0 8 5 30000
0 0 kick 0
0 0 work 0 0
0 0 irq
";

// The journal of these steps, line by line.
const JOURNAL: [&str; 24] = [
    "port 0\n",
    "at 0 boot 0 boot\n",
    "- identified 0 ALPHA S1 4096 0\n",
    "- attached 0\n",
    "- mode 0 6 off dubious\n",
    "at 0 0 0 submit 1 0 write 0 8 7 5 30000\n",
    "- accepted 1\n",
    "at 0 0 1 kick 0\n",
    "- issued 1 1 0 30000 2780350000000040000000000800000000000000\n",
    "at 0 0 2 work 0 0\n",
    "- done 1 40 00 0 0\n",
    "- raised\n",
    "at 0 0 3 irq\n",
    "- answered 1 1 ok 40 00 0 0\n",
    "at 0 0 4 submit 2 0 read 0 8 5 30000\n",
    "- accepted 2\n",
    "at 0 0 5 kick 0\n",
    "- issued 2 2 0 30000 2780250000000040000000000800000000000000\n",
    "at 0 0 6 work 0 0\n",
    "- done 2 40 00 0 0\n",
    "- raised\n",
    "at 0 0 7 irq\n",
    "- answered 2 2 ok 40 00 0 0 7 7 7 7 7 7 7 7\n",
    "end 0 2 2 0\n",
];

// Each line is one piece: where the sink fails at its k-th call, the first k - 1 lines are written.
#[test]
fn a_fault_leaves_the_lines_before_it(rt: HostRuntime) -> Result<(), Fail> {
    let alloc = rt.alloc();
    for lines in 0..=JOURNAL.len() {
        let script = format!(in alloc; "{HEAD}{STEPS}")?;
        let mut source = SureSource::new(script.into_bytes());
        let mut sink = MemSink::new(alloc, 4096, vec![in alloc; lines as u64 + 1]?)?;
        let want = if lines < JOURNAL.len() {
            Status::WriteFault
        } else {
            Status::Done
        };
        assert_eq!(rt;
            replay_all(alloc, &mut source, &mut sink, 0),
            want,
            "{lines} lines"
        );
        let mut written = String::new(alloc);
        for line in &JOURNAL[..lines] {
            written.push_str(line)?;
        }
        assert_eq!(rt; sink.bytes(), written.as_bytes(), "{lines} lines");
    }
    Ok(())
}

#[test]
fn a_byte_too_many_is_too_long(rt: HostRuntime) -> Result<(), Fail> {
    let alloc = rt.alloc();
    for (length, want) in [
        (4_194_304, Status::BadScript { line: 1, rule: 1 }),
        (4_194_305, Status::TooLong),
    ] {
        let mut source = SureSource::new(vec![in alloc; b'#'; length]?);
        let status = replay_all(alloc, &mut source, &mut SureSink::new(), 0);
        assert_eq!(rt; status, want);
    }
    Ok(())
}

#[test]
fn a_status_has_a_number_and_a_line(rt: HostRuntime) -> Result<(), Fail> {
    for (status, number, line) in [
        (Status::Done, 0, "done"),
        (Status::Usage, 2, "usage"),
        (Status::Left { k: 6 }, 3, "left 6"),
        (
            Status::BadScript { line: 5, rule: 3 },
            4,
            "bad script line 5 rule 3",
        ),
        (Status::TooLong, 5, "too long"),
        (Status::ReadFault, 6, "read fault"),
        (Status::WriteFault, 7, "write fault"),
        (Status::OutOfMemory, 8, "out of memory"),
    ] {
        assert_eq!(rt; status.number(), number);
        assert_eq!(rt; status.to_string(rt.alloc())?.as_bytes(), line.as_bytes());
    }
    Ok(())
}
