ghost use Rattle.std.specs.Prelude.{◌≡◌, ◌≤◌, ◌&&◌, not};
ghost use Rattle.eh_reval.specs.Probes.{probe_limit_of};
ghost use Rattle.eh_ring.specs.Category.{category_of};
ghost use Rattle.link_model.specs.LinkView.{IsGeneration};
ghost use Rattle.port_ledger.specs.Sound.{IsSpeed};
ghost use Rattle.port_rules.specs.Autopsy.{is_nil};
ghost use Rattle.port_recovery.specs.Findings.{findings_of, speed_action_by, view_in};

use crate::issues::link_told;
use crate::tallying::tally_up;
use crate::verdicts::verdict_by;
use ata_base::{Kinds, LinkAction, Place, SpeedAction};
use eh_autopsy::action;
use eh_reval::probe_limit;
use eh_ring::{Category, category};
use eh_verdict::{Verdict, decide};
use port_ledger::Ledger;

/// What an autopsy finds at a place before its first act there.
#[derive(Drop)]
pub struct Findings {
    /// Whether it is hot.
    pub hot: bool,
    /// The generation to which one hotplug more limits its link.
    pub limit: u8,
    /// Its kinds and those of all its owned issues.
    pub kinds: Kinds,
    /// Whether an owned issue is of a read, a write or a flush.
    pub io: bool,
    /// Whether its device is dubious.
    pub dubious: bool,
    /// Whether the error is recorded.
    pub recorded: bool,
    /// What the error ring asks for, the error counted.
    pub verdict: Verdict,
    /// What is done about the speed.
    pub speed: SpeedAction,
    /// What recovery does.
    pub action: LinkAction,
}

/// What an autopsy finds at a place.
pub fn findings_at(ledger: &Ledger, place: Place) -> Findings
    ensures value { result ≡ findings_of (view_in ledger.now place) }
    ensures limit { IsGeneration result.limit }
    ensures speed { IsSpeed result.speed }
{
    let hot = link_told(ledger, place).1;
    let all = tally_up(ledger, place);
    let dubious = ledger.is_dubious(place);
    let recorded = is_recorded(ledger.is_attached(place), all.io, all.kinds);
    let verdict = verdict_by(ledger, place, all.io, all.kinds);
    let speed = speed_action(ledger, place, recorded, &verdict);
    let action = action(ledger.is_frozen(), hot, all.kinds, all.io_error, &speed);
    Findings {
        hot,
        limit: probe_limit_at(ledger, place),
        kinds: all.kinds,
        io: all.io,
        dubious,
        recorded,
        verdict,
        speed,
        action,
    }
}

/// Whether an error is recorded: a device is attached, and the error falls into a category.
fn is_recorded(attached: bool, io: bool, kinds: Kinds) -> bool
    ensures { result ≡ (attached && not (is_nil (category_of io kinds.0))) }
{
    attached && !is_nil(category(io, kinds))
}

/// Whether an error falls into no category.
fn is_nil(category: Category) -> bool
    ensures { result ≡ is_nil category }
{
    matches!(category, Category::Nil)
}

/// What is done about the speed of a place by a verdict, where the error is recorded.
#[tactic(auto, using(crate::proofs::SpeedLemmas::speed_ranges, crate::proofs::SpeedLemmas::few_lowerings))]
fn speed_action(ledger: &Ledger, place: Place, recorded: bool, verdict: &Verdict) -> SpeedAction
    ensures value { result ≡ speed_action_by (view_in ledger.now place) recorded verdict.now }
    ensures limited { IsSpeed result }
{
    if !recorded {
        return SpeedAction::NoChange;
    }
    let lowerings = ledger.lowerings(place).min(2) as u8;
    decide(
        verdict,
        ledger.is_ncq_on(place),
        speed_at(ledger, place),
        lowerings,
    )
}

/// The present speed of a place: the lesser of its limit and the generation of its device.
fn speed_at(ledger: &Ledger, place: Place) -> u8
    ensures value { result ≡ (view_in ledger.now place).speed }
    ensures most { result ≤ 3 }
{
    ledger.limit(place).min(ledger.generation(place))
}

/// The generation to which one hotplug more now limits the link of a place.
#[tactic(auto, using(crate::proofs::SpeedLemmas::limit_ranges))]
fn probe_limit_at(ledger: &Ledger, place: Place) -> u8
    ensures value { result ≡ probe_limit_of (view_in ledger.now place).probes (view_in ledger.now place).clock }
    ensures range { IsGeneration result }
{
    probe_limit(&ledger.probes(place), ledger.clock())
}
