use ata_script::{ScriptError, read, write};
use std::process::Abort;
use std::test::Fail;

// A script of two ports with comments, empty lines and each kind of line.
const SCRIPT: &[u8] =
    b"atahost 2\n# the first port\nport 0 direct drain\ndrive 0 0 0 ALPHA S1 65536 32 3 60000\n\nport 1 pmp 15 fbs\ndrive 1 0 14 BETA S2 1 0 1 0\ndrive 1 1 - GAMMA S3 4096 1 2 250\n0 0 submit 65535 0 write 281474976710655 65535 18446744073709551615 100 1000000\n#\n31 1 inject 14 identfail 100\n0 1 plug 14 31\n0 0 irq\n";

// The same without them.
const WRITTEN: &[u8] =
    b"atahost 2\nport 0 direct drain\ndrive 0 0 0 ALPHA S1 65536 32 3 60000\nport 1 pmp 15 fbs\ndrive 1 0 14 BETA S2 1 0 1 0\ndrive 1 1 - GAMMA S3 4096 1 2 250\n0 0 submit 65535 0 write 281474976710655 65535 18446744073709551615 100 1000000\n31 1 inject 14 identfail 100\n0 1 plug 14 31\n0 0 irq\n";

#[test]
fn a_script_is_written_without_comments(rt: HostRuntime) {
    let script = read(rt.alloc(), SCRIPT).expect(&rt, "a script");
    let text = write(rt.alloc(), &script).expect(&rt, "room for it");
    assert_eq!(rt; &text[..], WRITTEN);
}

#[test]
fn the_first_fault_is_told(rt: HostRuntime) {
    let fault = read(
        rt.alloc(),
        b"atahost 1\nport 0 direct\n0 0 irq\n0 1 irq\n0 0 kick 01\n",
    );
    assert_eq!(rt; fault.err(), Some(ScriptError::Fault { line: 4, rule: 6 }));
}
