use crate::{Summary, put_summary, sum_up};
use ata_gen::script_of;
use ata_io::MemSink;
use ata_script::read;
use std::test::Fail;

// A write of eight sectors and a read of them; then a number that was used, and a command that nobody issues.
const MIXED: &[u8] = b"atahost 1
port 0 direct
drive 0 0 0 ALPHA S1 4096 0 3 0
0 0 submit 1 0 write 0 8 7 5 30000
0 0 kick 0
0 0 work 0 0
0 0 irq
0 0 submit 2 0 read 0 8 5 30000
0 0 kick 0
0 0 work 0 0
0 0 irq
0 0 submit 2 0 flush 5 30000
0 0 submit 3 0 flush 5 30000
";

// The text of the summary of the script of 1.
const FIRST: &[u8] = b"commands 1
accepted 1
refused 0
issued 1
ok 1
failed 0
nodev 0
retried 0
runs 0
recorded 0
entries 7
live 0
";

#[test]
fn a_mixed_script_is_counted(rt: HostRuntime) {
    let alloc = rt.alloc();
    let script = read(alloc, MIXED).expect(&rt, "a script");
    let want = Summary {
        commands: 4,
        accepted: 3,
        refused: 1,
        issued: 2,
        ok: 2,
        failed: 0,
        nodev: 0,
        retried: 0,
        runs: 0,
        recorded: 0,
        entries: 11,
        live: 1,
    };
    let summary = sum_up(&rt, alloc, &script, 0).expect(&rt, "room for it");
    assert_eq!(rt; summary, want);
}

#[test]
fn the_first_script_is_summed_up(rt: HostRuntime) -> Result<(), Fail> {
    let alloc = rt.alloc();
    let script = script_of(alloc, 1).expect(&rt, "room for it");
    let summary = sum_up(&rt, alloc, &script, 200_000).expect(&rt, "room for it");
    let mut sink = MemSink::new(alloc, 4096, Vec::new(alloc))?;
    assert!(rt; put_summary(&summary, &mut sink).is_ok());
    assert_eq!(rt; sink.bytes(), FIRST);
    Ok(())
}

#[test]
fn a_failed_write_is_told(rt: HostRuntime) -> Result<(), Fail> {
    let alloc = rt.alloc();
    let script = script_of(alloc, 1).expect(&rt, "room for it");
    let summary = sum_up(&rt, alloc, &script, 0).expect(&rt, "room for it");
    let mut sink = MemSink::new(alloc, 4096, vec![in alloc; 1]?)?;
    assert!(rt; put_summary(&summary, &mut sink).is_err());
    assert!(rt; sink.bytes().is_empty());
    Ok(())
}
