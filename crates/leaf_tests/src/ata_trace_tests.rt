use ata_base::{
    ActorNo, Allowance, CmdId, DriveNo, Fault, Ms, Name40, Op, Pick, Place, SerrorBit, Tag, Tick,
    Wait,
};
use ata_trace::*;
use std::process::Abort;
use std::test::Fail;

fn place() -> Place {
    Place::at(14)
}

fn submit(rt: &impl Abort, op: Op) -> Step {
    Step::Submit {
        id: CmdId::at(1),
        place: Place::at(0),
        op: ScriptOp::new(op).expect(rt, "an operation of a script"),
        allow: Allowance::at(5),
        wait: Wait::at(30000),
    }
}

fn inject(rt: &impl Abort, fault: Fault) -> Step {
    Step::Inject {
        place: place(),
        fault: ScriptFault::new(fault).expect(rt, "a fault of a script"),
    }
}

// The line of a head at 70 ms, of actor 31 with the number 5.
fn check_head(rt: &impl Abort, step: Step, line: &str) {
    let told = head_line(Ms { n: 70 }, Who::Actor(ActorNo::at(31)), 5, &step);
    assert_eq!(rt; told.bytes(), line.as_bytes(), "{line}");
    let want = Some((Ms { n: 70 }, Who::Actor(ActorNo::at(31)), 5, step));
    assert_eq!(rt; read_head(line.as_bytes()), want, "{line}");
}

#[test]
fn lines_of_heads(rt: HostRuntime) {
    let rows = [
        (
            submit(
                &rt,
                Op::Write {
                    lba: 0,
                    count: 8,
                    stamp: 7,
                },
            ),
            "at 70 31 5 submit 1 0 write 0 8 7 5 30000\n",
        ),
        (
            submit(
                &rt,
                Op::Read {
                    lba: 281474976710655,
                    count: 65535,
                },
            ),
            "at 70 31 5 submit 1 0 read 281474976710655 65535 5 30000\n",
        ),
        (
            submit(&rt, Op::Verify { lba: 9, count: 16 }),
            "at 70 31 5 submit 1 0 verify 9 16 5 30000\n",
        ),
        (
            submit(&rt, Op::Flush),
            "at 70 31 5 submit 1 0 flush 5 30000\n",
        ),
        (
            submit(&rt, Op::Power),
            "at 70 31 5 submit 1 0 power 5 30000\n",
        ),
        (Step::Kick { place: place() }, "at 70 31 5 kick 14\n"),
        (
            Step::Work {
                place: place(),
                pick: Pick::at(31),
            },
            "at 70 31 5 work 14 31\n",
        ),
        (Step::Irq, "at 70 31 5 irq\n"),
        (Step::Drop, "at 70 31 5 drop\n"),
        (Step::Stray { tag: Tag::at(9) }, "at 70 31 5 stray 9\n"),
        (
            Step::Tick {
                ms: Tick::at(1_000_000),
            },
            "at 70 31 5 tick 1000000\n",
        ),
        (Step::Expire, "at 70 31 5 expire\n"),
        (Step::Recover, "at 70 31 5 recover\n"),
        (
            Step::Plug {
                place: place(),
                drive: DriveNo::at(1),
            },
            "at 70 31 5 plug 14 1\n",
        ),
        (Step::Unplug { place: place() }, "at 70 31 5 unplug 14\n"),
        (
            inject(
                &rt,
                Fault::Media {
                    lba: 281474976710655,
                },
            ),
            "at 70 31 5 inject 14 media 281474976710655\n",
        ),
        (
            inject(&rt, Fault::IdentFail { k: 100 }),
            "at 70 31 5 inject 14 identfail 100\n",
        ),
        (
            inject(
                &rt,
                Fault::Serr {
                    bit: SerrorBit::Exch,
                },
            ),
            "at 70 31 5 inject 14 serr exch\n",
        ),
    ];
    for (step, line) in rows {
        check_head(&rt, step, line);
    }
    let boot = "at 0 boot 0 boot\n";
    let settle = "at 70 settle 8 irq\n";
    assert_eq!(rt;
        read_head(boot.as_bytes()),
        Some((Ms { n: 0 }, Who::Boot, 0, Step::Boot))
    );
    assert_eq!(rt;
        read_head(settle.as_bytes()),
        Some((Ms { n: 70 }, Who::Settle, 8, Step::Irq))
    );
}

#[test]
fn lines_that_are_none(rt: HostRuntime) {
    for line in [
        "",
        "\n",
        "-\n",
        "- accepted 0\n",
        "- accepted 65536\n",
        "- accepted 01\n",
        "- accepted  1\n",
        "- accepted 1 \n",
        "- accepted 1",
        "- accepted 1 1\n",
        "- accepted\n",
        "accepted 1\n",
        "- waiting tag 32\n",
        "- same 15\n",
        "- done 2 4A 00 0 0\n",
        "- done 18446744073709551616 40 00 0 0\n",
        "- judged 2 ncq+dev\n",
        "- judged 2 none+dev\n",
        "- mode 0 6 on off\n",
        "- identified 0 A_B S 1 1\n",
    ] {
        assert!(rt; read_act(line.as_bytes()).is_none(), "{line}");
    }
    for line in [
        "at 0 32 0 irq\n",
        "at 0 boot 0\n",
        "at 0 0 0 submit 1 0 read 281474976710656 1 5 1\n",
        "at 0 0 0 submit 1 0 read 0 65536 5 1\n",
        "at 0 0 0 submit 1 0 flush 101 1\n",
        "at 0 0 0 submit 1 0 flush 5 0\n",
        "at 0 0 0 tick 1000001\n",
        "at 0 0 0 inject 0 hang 0\n",
        "at 0 0 0 inject 0 hang 101\n",
        "at 0 0 0 inject 0 media 281474976710656\n",
        "at 0 0 0 inject 0 serr data 1\n",
        "at 0 0 0 work 32 0\n",
    ] {
        assert!(rt; read_head(line.as_bytes()).is_none(), "{line}");
    }
}

#[test]
fn names_of_drives(rt: HostRuntime) {
    let rows = [
        ("ALPHA", true),
        ("z-09", true),
        ("", false),
        ("A B", false),
        ("a_b", false),
        ("[", false),
        ("/", false),
    ];
    for (text, allowed) in rows {
        let model = ModelName::new(&Name40::new(text.as_bytes()).unwrap());
        let serial = SerialName::of(text.as_bytes());
        assert_eq!(rt; model.is_some(), allowed, "{text}");
        assert_eq!(rt; serial.is_some(), allowed, "{text}");
    }
    assert_eq!(rt; ModelName::dash().bytes(), b"-".as_slice());
}

#[test]
fn a_script_has_its_ranges(rt: HostRuntime) {
    let at = |lba| Op::Read { lba, count: 1 };
    assert_eq!(rt; ScriptOp::at(at(0)).get(), at(0));
    assert!(rt; ScriptOp::new(at(281474976710655)).is_some());
    assert!(rt; ScriptOp::new(at(281474976710656)).is_none());
    let hang = |k| Fault::Hang { k };
    assert_eq!(rt; ScriptFault::at(hang(1)).get(), hang(1));
    assert!(rt; ScriptFault::new(hang(100)).is_some());
    assert!(rt; ScriptFault::new(hang(0)).is_none());
    assert!(rt; ScriptFault::new(hang(101)).is_none());
}

// Whether that act stands there.
fn is_act(acts: &Acts<'_>, i: usize, act: &Act) -> bool {
    match acts.get(i) {
        Some(found) => found.get() == act,
        None => false,
    }
}

#[test]
fn a_journal_keeps_an_open_entry(rt: HostRuntime) -> Result<(), Fail> {
    let alloc = rt.alloc();
    let mut open = OpenEntry::new(alloc, Ms { n: 0 }, Who::Boot, 0, Step::Boot)?;
    open.add(Act::Raised);
    open.begin(Ms { n: 9 }, Who::Settle, 1, Step::Irq);
    open.add(Act::Frozen);
    open.add(Act::Thawed.copy());
    assert_eq!(rt; open.acts().len(), 2);
    let mut journal = Journal::new(alloc);
    journal.reserve()?;
    open.keep(&mut journal);
    match journal.entry(0) {
        Some(entry) => {
            assert_eq!(rt; entry.at, Ms { n: 9 });
            assert!(rt; is_act(&entry.acts, 0, &Act::Frozen));
            assert!(rt; is_act(&entry.acts, 1, &Act::Thawed));
        }
        None => assert!(rt; false),
    }
    Ok(())
}

#[test]
fn a_journal_keeps_its_entries(rt: HostRuntime) -> Result<(), Fail> {
    let mut journal = Journal::new(rt.alloc());
    journal.reserve()?;
    journal.begin(Ms { n: 0 }, Who::Boot, 0, Step::Boot);
    journal.add(&Act::Raised);
    journal.add(&Act::Frozen);
    journal.reserve()?;
    journal.begin(Ms { n: 9 }, Who::Settle, 1, Step::Irq);
    journal.add(&Act::Nothing);
    assert_eq!(rt; journal.len(), 2);
    match journal.entry(0) {
        Some(first) => {
            assert_eq!(rt; first.acts.len(), 2);
            assert!(rt; is_act(&first.acts, 0, &Act::Raised));
            assert!(rt; is_act(&first.acts, 1, &Act::Frozen));
        }
        None => assert!(rt; false),
    }
    match journal.entry(1) {
        Some(second) => {
            assert_eq!(rt; second.at, Ms { n: 9 });
            assert_eq!(rt; second.who, Who::Settle);
            assert_eq!(rt; second.seq, 1);
            assert_eq!(rt; second.step, Step::Irq);
            assert_eq!(rt; second.acts.len(), 1);
            assert!(rt; is_act(&second.acts, 0, &Act::Nothing));
        }
        None => assert!(rt; false),
    }
    assert!(rt; journal.entry(2).is_none());
    Ok(())
}
