//! What generated scripts come to.

use crate::generated::gen_all;
use crate::status::Status;
use crate::tests::words_of;
use crate::top::atahost;
use ata_gen::script_of;
use ata_io::{MemSink, MemSource, Source};
use host_core::replay;
use port_threads::NoGate;
use std::test::Fail;

// What the script of 1 comes to: one read at a direct port, and two boots.
const FIRST_SUMMARY: &str = "commands 1
accepted 1
refused 0
issued 1
ok 1
failed 0
nodev 0
retried 0
runs 0
recorded 0
entries 7
live 0
";

#[test]
fn a_generated_script_is_summed_up(rt: HostRuntime) -> Result<(), Fail> {
    let alloc = rt.alloc();
    let mut source = MemSource::new(vec![in alloc; b'#']?, 64, vec![in alloc; 1]?);
    let mut sink = MemSink::new(alloc, 4096, Vec::new(alloc))?;
    let words = words_of(alloc, "gen 1")?;
    let status = atahost(&rt, alloc, &words, &mut source, &mut sink, &NoGate);
    assert_eq!(rt; status, Status::Done);
    assert_eq!(rt; sink.bytes(), FIRST_SUMMARY.as_bytes());
    assert_eq!(rt; source.faults(), 0);
    Ok(())
}

// What is left live is what the ports of the same script tell, and a second call writes the same.
#[test]
fn what_is_left_is_what_the_ports_tell(rt: HostRuntime) -> Result<(), Fail> {
    let alloc = rt.alloc();
    let Ok(script) = script_of(alloc, 1000) else {
        panic!(rt; "the script wasn't made");
    };
    let live = replay(alloc, &script, 0)?.live();
    let mut first = MemSink::new(alloc, 4096, Vec::new(alloc))?;
    let mut second = MemSink::new(alloc, 4096, Vec::new(alloc))?;
    let want = Status::Left { k: live };
    assert_eq!(rt; gen_all(&rt, alloc, 1000, 0, &mut first), want);
    assert_eq!(rt; gen_all(&rt, alloc, 1000, 0, &mut second), want);
    let last = format!(in alloc; "live {live}\n")?;
    assert!(rt; first.bytes().ends_with(last.as_bytes()));
    assert_eq!(rt; first.bytes(), second.bytes());
    Ok(())
}
