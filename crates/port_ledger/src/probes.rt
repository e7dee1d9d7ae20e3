ghost use Rattle.std.specs.Prelude.{◌≡◌};
ghost use Rattle.ata_trace.specs.Event.Event.{Told};
ghost use Rattle.eh_reval.specs.Probes.{no_probes};
ghost use Rattle.port_past.specs.Hot.{probes_after};
ghost use Rattle.port_past.specs.Places.{everywhere};

use ata_base::{MOST_PLACES, Ms};
use ata_trace::Act;
use eh_reval::ProbeTimes;

/// The times of the last two hotplugs, by place.
pub type Probes = [ProbeTimes; MOST_PLACES];

/// No hotplug yet.
pub fn no_hotplugs() -> Probes
    ensures { result ≡ everywhere no_probes }
{
    [ProbeTimes::new(); MOST_PLACES]
}

/// They after an act, at a time by the clock.
#[tactic(auto, using(crate::proofs::ListLemmas::changed_probes))]
pub fn note_probes(probes: &mut Probes, act: &Act, clock: u64)
    ensures { probes.new ≡ probes_after (Told act.now) clock probes.old }
{
    if let Act::Hot { place, .. } = act {
        let mut times = probes[place.get() as usize];
        times.note(Ms { n: clock });
        probes[place.get() as usize] = times;
    }
}
