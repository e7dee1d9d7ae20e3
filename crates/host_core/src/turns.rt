ghost use Rattle.std.specs.Prelude.{◌≡◌, ◌+◌, ◌*◌, ◌<◌, ◌^◌, replicate, slice_index, slice_set};

use ata_base::{ActorNo, PortNo};
use std::marker::Model;

/// How many steps each actor took at each port. A contract sees a list, 32 actors a port.
#[derive(Drop)]
pub struct Turns {
    taken: [u64; 256],
}

impl Model for Turns {
    ghost use Rattle.std.specs.Prelude.{◌≡◌, ℕ, List, length};

    ghost Value = { List ℕ };

    ghost view = { λ t. t.taken };

    ghost invariant = { λ t. length t.taken ≡ 256 };
}

impl Turns {
    /// No steps yet.
    pub fn new() -> Turns
        ensures { result ≡ replicate 256 0 }
    {
        Turns { taken: [0; 256] }
    }

    /// The number of an actor's next step at a port, which is counted. There are 8 ports and 32 actors.
    pub fn next(&mut self, port: PortNo, actor: ActorNo) -> u64
        requires { port < 8 → actor < 32 → slice_index self.old (32 * port + actor) + 1 < 2 ^ 64 }
        ensures port { port < 8 }
        ensures actor { actor < 32 }
        ensures number { result ≡ slice_index self.old (32 * port + actor) }
        ensures counted { self.new ≡ slice_set self.old (32 * port + actor) (slice_index self.old (32 * port + actor) + 1) }
    {
        let place = 32 * port.get() as usize + actor.get() as usize;
        let number = self.taken[place];
        self.taken[place] = number + 1;
        number
    }
}
