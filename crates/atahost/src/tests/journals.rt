//! The journals that scripts give.

use crate::replay::replay_all;
use crate::running::run_all;
use crate::status::Status;
use ata_io::{MemSink, SureSource};
use port_threads::NoGate;
use std::alloc::Global;
use std::process::Abort;
use std::test::Fail;

// Two actors at two ports, of which the first has no drive.
const TWO_PORTS: &str = "atahost 1
port 0 direct
port 1 direct
drive 1 0 0 ALPHA S1 4096 0 3 0
1 1 submit 1 0 flush 5 9
0 0 irq
0 1 kick 0
1 1 work 0 0
1 0 irq
0 1 irq
0 1 submit 2 0 flush 5 9
0 0 submit 2 0 flush 5 9
";

// Its journals, worked by hand.
const TWO_JOURNALS: &str = "port 0
at 0 boot 0 boot
- nothing
at 0 0 0 irq
- nothing
at 0 1 0 irq
- nothing
at 0 0 1 submit 2 0 flush 5 9
- refused 2 no-device
end 0 0 0 0
port 1
at 0 boot 0 boot
- identified 0 ALPHA S1 4096 0
- attached 0
- mode 0 6 off dubious
at 0 1 0 submit 1 0 flush 5 9
- accepted 1
at 0 0 0 kick 0
- issued 1 1 0 9 2780ea0000000040000000000000000000000000
at 0 1 1 work 0 0
- done 1 40 00 0 0
- raised
at 0 0 1 irq
- answered 1 1 ok 40 00 0 0
at 0 0 2 submit 2 0 flush 5 9
- accepted 2
live 2
end 1 2 1 1
";

// The script ends so, and gives this text, where it is settled with so many rounds.
fn plays(
    rt: &impl Abort,
    alloc: Global,
    script: String,
    rounds: u32,
    want: Status,
    text: &str,
) -> Result<(), Fail> {
    let mut source = SureSource::new(script.into_bytes());
    let mut sink = MemSink::new(alloc, 65536, Vec::new(alloc))?;
    assert_eq!(rt; replay_all(alloc, &mut source, &mut sink, rounds), want);
    assert_eq!(rt; sink.bytes(), text.as_bytes());
    Ok(())
}

#[test]
fn two_actors_at_two_ports(rt: HostRuntime) -> Result<(), Fail> {
    let alloc = rt.alloc();
    let script = String::from_str(alloc, TWO_PORTS)?;
    plays(&rt, alloc, script, 0, Status::Left { k: 1 }, TWO_JOURNALS)
}

// A drive with a queue of 32.
const QUEUED: &str = "atahost 1\nport 0 direct\ndrive 0 0 0 ALPHA S1 4096 32 3 0\n";

const BOOTED: &str = "port 0
at 0 boot 0 boot
- identified 0 ALPHA S1 4096 32
- attached 0
- mode 0 6 on dubious
";

// A flush between two queued writes, which waits for the first and is waited for by the second.
const FLUSH: &str = "0 0 submit 1 0 write 0 8 7 5 30000
0 0 submit 2 0 flush 5 30000
0 0 submit 3 0 write 8 8 9 5 30000
0 0 kick 0
0 0 kick 0
0 0 work 0 0
0 0 irq
0 0 kick 0
0 0 kick 0
";

const FLUSH_JOURNAL: &str = "at 0 0 0 submit 1 0 write 0 8 7 5 30000
- accepted 1
at 0 0 1 submit 2 0 flush 5 30000
- accepted 2
at 0 0 2 submit 3 0 write 8 8 9 5 30000
- accepted 3
at 0 0 3 kick 0
- issued 1 1 0 30000 2780610800000040000000000000000000000000
at 0 0 4 kick 0
- deferred 2 link-busy
at 0 0 5 work 0 0
- done 1 40 00 0 0
- raised
at 0 0 6 irq
- answered 1 1 ok 40 00 0 0
at 0 0 7 kick 0
- issued 2 2 0 30000 2780ea0000000040000000000000000000000000
at 0 0 8 kick 0
- deferred 3 link-busy
live 2
live 3
end 0 3 1 2
";

#[test]
fn a_flush_waits_between_queued_writes(rt: HostRuntime) -> Result<(), Fail> {
    let alloc = rt.alloc();
    let script = format!(in alloc; "{QUEUED}{FLUSH}")?;
    let text = format!(in alloc; "{BOOTED}{FLUSH_JOURNAL}")?;
    plays(&rt, alloc, script, 0, Status::Left { k: 2 }, &text)
}

// Of 33 reads, 32 are issued, under the tags 0 to 31.
#[test]
fn of_33_reads_32_are_issued(rt: HostRuntime) -> Result<(), Fail> {
    let alloc = rt.alloc();
    let mut script = String::from_str(alloc, QUEUED)?;
    let mut text = String::from_str(alloc, BOOTED)?;
    for id in 1..=33u64 {
        let line = format!(in alloc; "submit {id} 0 read 0 1 5 30000\n")?;
        script.push_str(&format!(in alloc; "0 0 {line}")?)?;
        text.push_str(&format!(in alloc; "at 0 0 {} {line}- accepted {id}\n", id - 1)?)?;
    }
    for id in 1..=33u64 {
        script.push_str("0 0 kick 0\n")?;
        text.push_str(&format!(in alloc; "at 0 0 {} kick 0\n", id + 32)?)?;
        if id <= 32 {
            let tag = id - 1;
            text.push_str(&format!(in alloc;
                "- issued {id} {id} {tag} 30000 \
                278060010000004000000000{:02x}00000000000000\n",
                8 * tag
            )?)?;
        } else {
            text.push_str("- deferred 33 no-tag\n")?;
        }
    }
    for id in 1..=33u64 {
        text.push_str(&format!(in alloc; "live {id}\n")?)?;
    }
    text.push_str("end 0 33 0 33\n")?;
    plays(&rt, alloc, script, 0, Status::Left { k: 33 }, &text)
}

// Settling alone issues, works and answers, and a calm script leaves nothing.
const SETTLED_JOURNAL: &str = "at 0 0 0 submit 1 0 flush 5 30000
- accepted 1
at 0 settle 0 kick 0
- issued 1 1 0 30000 2780ea0000000040000000000000000000000000
at 0 settle 1 work 0 0
- done 1 40 00 0 0
- raised
at 0 settle 2 irq
- answered 1 1 ok 40 00 0 0
at 0 settle 3 expire
- nothing
at 0 settle 4 recover
- nothing
end 0 1 1 0
";

#[test]
fn settling_answers_what_waits(rt: HostRuntime) -> Result<(), Fail> {
    let alloc = rt.alloc();
    let script = format!(in alloc; "{QUEUED}0 0 submit 1 0 flush 5 30000\n")?;
    let text = format!(in alloc; "{BOOTED}{SETTLED_JOURNAL}")?;
    plays(&rt, alloc, script, 3, Status::Done, &text)
}

// So does a run, whose one actor takes its step on a thread.
#[test]
fn a_run_answers_what_waits(rt: HostRuntime) -> Result<(), Fail> {
    let alloc = rt.alloc();
    let script = format!(in alloc; "{QUEUED}0 0 submit 1 0 flush 5 30000\n")?;
    let text = format!(in alloc; "{BOOTED}{SETTLED_JOURNAL}")?;
    let mut source = SureSource::new(script.into_bytes());
    let mut sink = MemSink::new(alloc, 4096, Vec::new(alloc))?;
    assert_eq!(rt;
        run_all(&rt, alloc, &mut source, &mut sink, 3, &NoGate),
        Status::Done
    );
    assert_eq!(rt; sink.bytes(), text.as_bytes());
    Ok(())
}

#[test]
fn a_script_of_one_line_is_done(rt: HostRuntime) -> Result<(), Fail> {
    let alloc = rt.alloc();
    let mut source = SureSource::new(String::from_str(alloc, "atahost 1\n")?.into_bytes());
    let mut sink = MemSink::new(alloc, 64, Vec::new(alloc))?;
    assert_eq!(rt; replay_all(alloc, &mut source, &mut sink, 0), Status::Done);
    assert!(rt; sink.bytes().is_empty());
    Ok(())
}
