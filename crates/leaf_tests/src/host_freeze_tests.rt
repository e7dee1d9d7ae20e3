use host_freeze::*;

// A freeze, an asking, a run with an asking meanwhile, and its end; each call is made.
#[test]
fn from_a_freeze_to_the_end_of_recovery(rt: HostRuntime) {
    let mut gate = Gatekeeper::new();
    assert!(rt; !gate.frozen() && !gate.recovering());
    assert_eq!(rt; (gate.freeze(), gate.freeze()), (true, false));
    assert_eq!(rt; (gate.request(), gate.request()), (true, false));
    assert!(rt; gate.frozen() && gate.asked() && !gate.running() && gate.recovering());
    gate.begin();
    assert!(rt; gate.frozen() && !gate.asked() && gate.running() && gate.recovering());
    assert!(rt; gate.request());
    gate.end();
    assert!(rt; gate.asked() && !gate.running() && gate.recovering());
    assert_eq!(rt; (gate.thaw(), gate.thaw()), (true, false));
    assert_eq!(rt; Gatekeeper::default(), Gatekeeper::new());
}
