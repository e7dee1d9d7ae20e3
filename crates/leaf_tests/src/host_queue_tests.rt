ghost use Rattle.std.specs.Prelude.{◌≡◌};

use ata_base::{Cmd, CmdId, Ms, Op, Place};
use host_queue::*;

fn flush(id: CmdId) -> Cmd
    ensures { result.place ≡ 0 }
{
    Cmd {
        id,
        place: Place::at(0),
        op: Op::Flush,
        allow: 5,
        retries: 0,
        wait: Ms { n: 30_000 },
        attachment: 0,
    }
}

/// Two commands are served in turn, and one that is put back is served first.
#[test]
fn first_in_first_out(rt: HostRuntime) {
    let (one, two, place) = (CmdId::at(1), CmdId::at(2), Place::at(0));
    let mut queues = Queues::new(rt.alloc(), 1).expect(&rt, "memory for a list");
    queues
        .reserve(place, 2)
        .expect(&rt, "memory for two commands");
    queues.push(flush(one));
    queues.push(flush(two));
    assert!(rt; queues.pop(place).is_some_and(|c| c.id == one));
    queues.push_front(flush(one));
    assert!(rt; queues.front(place).is_some_and(|c| c.id == one));
    assert!(rt; queues.pop(place).is_some_and(|c| c.id == one));
    assert!(rt; queues.pop(place).is_some_and(|c| c.id == two));
    assert!(rt; queues.pop(place).is_none());
}
