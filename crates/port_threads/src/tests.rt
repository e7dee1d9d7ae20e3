// Two actors of whom each waits for the other, and the run of one actor.
use super::*;
use ata_base::PortNo;
use ata_io::MemSink;
use ata_script::{Script, read};
use port_core::put_host;
use std::alloc::Global;
use std::hint::spin_loop;
use std::process::Abort;
use std::sync::atomic::{AtomicBool, Ordering};
use std::test::Fail;

const MOST_BYTES: usize = 4_194_304;

const MOST_TURNS: u32 = 500_000_000;

// Two ports; actor 0 has a step at port 0, actor 1 one at each.
const MEETING: &str = "atahost 1
port 0 direct
drive 0 0 0 ALPHA S1 4096 0 3 0
port 1 direct
drive 1 0 0 BETA S2 4096 0 3 0
0 0 irq
1 1 irq
1 0 kick 0
";

// A write of eight sectors, and a read of them.
const ONE_ACTOR: &str = "atahost 1
port 0 direct
drive 0 0 0 ALPHA S1 4096 0 3 0
0 0 submit 1 0 write 0 8 7 5 30000
0 0 kick 0
0 0 work 0 0
0 0 irq
0 0 submit 2 0 read 0 8 5 30000
0 0 kick 0
0 0 work 0 0
0 0 irq
";

const ONE_JOURNAL: &str = "port 0
at 0 boot 0 boot
- identified 0 ALPHA S1 4096 0
- attached 0
- mode 0 6 off dubious
at 0 0 0 submit 1 0 write 0 8 7 5 30000
- accepted 1
at 0 0 1 kick 0
- issued 1 1 0 30000 2780350000000040000000000800000000000000
at 0 0 2 work 0 0
- done 1 40 00 0 0
- raised
at 0 0 3 irq
- answered 1 1 ok 40 00 0 0
at 0 0 4 submit 2 0 read 0 8 5 30000
- accepted 2
at 0 0 5 kick 0
- issued 2 2 0 30000 2780250000000040000000000800000000000000
at 0 0 6 work 0 0
- done 2 40 00 0 0
- raised
at 0 0 7 irq
- answered 2 2 ok 40 00 0 0 7 7 7 7 7 7 7 7
end 0 2 2 0
";

/// Holds the first steps of actors 0 and 1 back until both are before theirs.
#[derive(Drop)]
struct Meet {
    first: AtomicBool,
    second: AtomicBool,
    late: AtomicBool,
}

impl Gate for Meet {
    fn before(&self, actor: u8, made: u32) {
        if made > 0 || actor > 1 {
            return;
        }
        let (mine, other) = if actor == 0 {
            (&self.first, &self.second)
        } else {
            (&self.second, &self.first)
        };
        mine.store(true, Ordering::SeqCst);
        for _ in 0..MOST_TURNS {
            if other.load(Ordering::SeqCst) {
                return;
            }
            spin_loop();
        }
        self.late.store(true, Ordering::SeqCst);
    }

    fn after(&self, _actor: u8, _made: u32) {}
}

// The script of a text.
fn script_of(rt: &impl Abort, alloc: Global, text: &str) -> Script {
    assert!(rt; text.len() <= MOST_BYTES);
    match read(alloc, text.as_bytes()) {
        Ok(script) => script,
        Err(_) => panic!(rt; "the script wasn't read"),
    }
}

#[test]
fn two_actors_meet(rt: HostRuntime) -> Result<(), Fail> {
    let script = script_of(&rt, rt.alloc(), MEETING);
    let meet = Meet {
        first: AtomicBool::new(false),
        second: AtomicBool::new(false),
        late: AtomicBool::new(false),
    };
    let host = run_actors(&rt, rt.alloc(), &script, &meet)?;
    assert!(rt; !meet.late.load(Ordering::SeqCst));
    for (number, entries) in [(0, 3), (1, 2)] {
        let port = host.port(PortNo::at(number)).expect(&rt, "a port");
        assert_eq!(rt; port.journal().len(), entries);
    }
    assert_eq!(rt; host.ports().len(), 2);
    Ok(())
}

#[test]
fn one_actor_leaves_one_journal(rt: HostRuntime) -> Result<(), Fail> {
    let script = script_of(&rt, rt.alloc(), ONE_ACTOR);
    let host = run_actors(&rt, rt.alloc(), &script, &NoGate)?;
    let mut sink = MemSink::new(rt.alloc(), 4096, Vec::new(rt.alloc()))?;
    assert!(rt; put_host(&host, &mut sink).is_ok());
    assert_eq!(rt; sink.bytes(), ONE_JOURNAL.as_bytes());
    Ok(())
}
