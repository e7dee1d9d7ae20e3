use crate::script_of;
use ata_script::write;

// The script of 1.
const FIRST: &[u8] =
    b"atahost 1\nport 0 direct\ndrive 0 0 0 GEN S0 65536 32 3 0\nport 1 pmp 3\ndrive 1 0 0 GEN S1 65536 32 2 0\ndrive 1 1 1 GEN S2 65536 32 2 0\ndrive 1 2 2 GEN S3 65536 0 1 0\n0 0 submit 1 0 read 33676 7 5 30000\n0 0 kick 0\n0 0 work 0 0\n2 0 irq\n3 0 recover\n";

#[test]
fn the_first_script_is_written_down(rt: HostRuntime) {
    let script = script_of(rt.alloc(), 1).expect(&rt, "room for it");
    let text = write(rt.alloc(), &script).expect(&rt, "room for its text");
    assert_eq!(rt; &text[..], FIRST);
}
