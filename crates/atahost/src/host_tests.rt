use ata_base::PortNo;
use ata_script::read;
use host_core::{boot, replay};
use port_core::Host;
use std::alloc::Global;
use std::process::Abort;
use std::test::Fail;

// Two ports and a spare drive; actor 1 submits at port 1, and actor 0 at port 0, where no drive stands.
const SCRIPT: &str = "atahost 1
port 0 direct
drive 0 0 - ALPHA S1 4096 0 3 9
port 1 direct
drive 1 0 0 BETA S2 4096 0 3 0
1 1 submit 1 0 flush 5 9
0 0 submit 1 0 flush 5 9
1 0 irq
";

// The host of this script after its boot, and after its steps, unsettled.
fn hosts_of(rt: &impl Abort, alloc: Global) -> Result<(Host, Host), Fail> {
    let script = match read(alloc, SCRIPT.as_bytes()) {
        Ok(script) => script,
        Err(_) => panic!(rt; "the script wasn't read"),
    };
    let booted = boot(alloc, &script)?;
    let host = replay(alloc, &script, 0)?;
    Ok((booted, host))
}

#[test]
fn a_host_is_booted_and_replayed(rt: HostRuntime) -> Result<(), Fail> {
    let (booted, host) = hosts_of(&rt, rt.alloc())?;
    for (number, entries) in [(0, 3), (1, 2)] {
        let number = PortNo::at(number);
        let before = booted.port(number).expect(&rt, "a port");
        let after = host.port(number).expect(&rt, "a port");
        assert_eq!(rt; before.journal().len(), 1);
        assert_eq!(rt; after.journal().len(), entries);
        assert_eq!(rt; after.number().get(), number.get());
    }
    assert!(rt; host.port(PortNo::at(2)).is_none());
    assert_eq!(rt; booted.live(), 0);
    assert_eq!(rt; host.live(), 1);
    assert_eq!(rt; host.ports().len(), 2);
    Ok(())
}
