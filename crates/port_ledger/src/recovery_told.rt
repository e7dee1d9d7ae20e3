ghost use Rattle.std.specs.Prelude.{◌≡◌, ◌+◌, ◌<◌, ◌^◌, false};
ghost use Rattle.ata_trace.specs.Event.Event.{Told};
ghost use Rattle.port_past.specs.Hot.{was_hot_after};
ghost use Rattle.port_past.specs.Logs.{logs_after};
ghost use Rattle.port_past.specs.PlaceTold.{place_told_after, host_told_after, ident_lates_after, late};
ghost use Rattle.port_past.specs.Places.{changed_at, everywhere, nowhere};
ghost use Rattle.port_past.specs.Tasks.{actions_after};
ghost use Rattle.port_past.specs.declared.place_told.HostTold.TheVariants.{NotBegun as HostNotBegun};
ghost use Rattle.port_past.specs.declared.place_told.PlaceTold.TheVariants.{NotBegun};
ghost use Rattle.port_ledger.specs.Parts.{AreAtMost};

use crate::answers::log_in;
use crate::attachments::{Counts, count};
use ata_base::{LinkAction, MOST_PLACES, Place};
use ata_trace::Act;
use drive_model::LogTold;
use port_past::{HostTold, PlaceTold};

/// What the logs told, by place.
pub type Logs = [Option<LogTold>; MOST_PLACES];

/// What this recovery has told: of each place the last of the seven acts, how often its identity was late, whether it is
/// hot, what is to be done, what its log told; of the host link the last of the two.
#[derive(Drop)]
pub struct RecoveryTold {
    pub places: [PlaceTold; MOST_PLACES],
    pub host: HostTold,
    pub ident_lates: Counts,
    pub was_hot: [bool; MOST_PLACES],
    pub actions: [Option<LinkAction>; MOST_PLACES],
    pub logs: Logs,
}

impl RecoveryTold {
    /// Nothing was told.
    pub fn new() -> RecoveryTold
        ensures places { result.places ≡ everywhere NotBegun }
        ensures host { result.host ≡ HostNotBegun }
        ensures ident_lates { result.ident_lates ≡ everywhere 0 }
        ensures was_hot { result.was_hot ≡ everywhere false }
        ensures actions { result.actions ≡ nowhere }
        ensures logs { result.logs ≡ nowhere }
    {
        RecoveryTold {
            places: [PlaceTold::NotBegun; MOST_PLACES],
            host: HostTold::NotBegun,
            ident_lates: [0; MOST_PLACES],
            was_hot: [false; MOST_PLACES],
            actions: [None; MOST_PLACES],
            logs: no_logs(),
        }
    }
}

/// What recovery has told, after an act, where no count was above `most`.
#[tactic(auto, using(crate::proofs::CountLemmas::still_at_most))]
pub fn note_recovery(recovery: &mut RecoveryTold, act: &Act, most: u64)
    requires room { most + 1 < 2 ^ 64 }
    requires most { AreAtMost most recovery.old.ident_lates }
    ensures places { recovery.new.places ≡ place_told_after (Told act.now) recovery.old.places }
    ensures host { recovery.new.host ≡ host_told_after (Told act.now) recovery.old.host }
    ensures ident_lates { recovery.new.ident_lates ≡ ident_lates_after (Told act.now) recovery.old.ident_lates }
    ensures most { AreAtMost (most + 1) recovery.new.ident_lates }
    ensures was_hot { recovery.new.was_hot ≡ was_hot_after (Told act.now) recovery.old.was_hot }
    ensures actions { recovery.new.actions ≡ actions_after (Told act.now) recovery.old.actions }
    ensures logs { recovery.new.logs ≡ logs_after (Told act.now) recovery.old.logs }
{
    note_places(&mut recovery.places, act);
    recovery.host = host_told_after(act, recovery.host);
    note_ident_lates(&mut recovery.ident_lates, act, most);
    note_hot(&mut recovery.was_hot, act);
    note_actions(&mut recovery.actions, act);
    note_logs(&mut recovery.logs, act);
}

fn note_places(places: &mut [PlaceTold; MOST_PLACES], act: &Act)
    ensures { places.new ≡ place_told_after (Told act.now) places.old }
{
    match act {
        Act::Begun => *places = [PlaceTold::NotBegun; MOST_PLACES],
        Act::ResetBegun {
            place,
            attempt,
            deadline,
        } => {
            if let Some(place) = place {
                places[place.get() as usize] = PlaceTold::ResetBegun {
                    attempt: *attempt,
                    deadline: *deadline,
                };
            }
        }
        Act::ResetLate { place } => {
            if let Some(place) = place {
                be_late(places, place.get() as usize);
            }
        }
        Act::ResetEndedGen { place, .. } => {
            places[place.get() as usize] = PlaceTold::ResetEnded { found: true };
        }
        Act::ResetEndedNone { place } => {
            places[place.get() as usize] = PlaceTold::ResetEnded { found: false };
        }
        Act::ResetFailed { place } => {
            if let Some(place) = place {
                places[place.get() as usize] = PlaceTold::ResetFailed;
            }
        }
        Act::IdentAsked {
            place,
            deadline,
            ..
        } => {
            places[place.get() as usize] = PlaceTold::IdentAsked {
                deadline: *deadline,
            };
        }
        Act::IdentLate { place } => places[place.get() as usize] = PlaceTold::IdentLate,
        Act::Mode { place, .. } => places[place.get() as usize] = PlaceTold::Mode,
        _ => {}
    }
}

#[tactic(auto, using(crate::proofs::ListLemmas::changed_told))]
fn be_late(places: &mut [PlaceTold; MOST_PLACES], at: usize)
    requires { at < 15 }
    ensures { places.new ≡ changed_at at late places.old }
{
    places[at] = late(places[at]);
}

fn late(told: PlaceTold) -> PlaceTold
    ensures { result ≡ late told }
{
    match told {
        PlaceTold::ResetBegun { attempt, .. } => PlaceTold::ResetLate { attempt },
        other => other,
    }
}

fn host_told_after(act: &Act, was: HostTold) -> HostTold
    ensures { result ≡ host_told_after (Told act.now) was }
{
    match act {
        Act::Begun => HostTold::NotBegun,
        Act::ResetBegun { place, .. } => match place {
            Some(_) => was,
            None => HostTold::ResetBegun,
        },
        Act::ResetEndedHost => HostTold::ResetEnded,
        _ => was,
    }
}

#[tactic(auto, using(crate::proofs::CountLemmas::still_at_most, crate::proofs::CountLemmas::none_at_most))]
fn note_ident_lates(lates: &mut Counts, act: &Act, most: u64)
    requires room { most + 1 < 2 ^ 64 }
    requires most { AreAtMost most lates.old }
    ensures value { lates.new ≡ ident_lates_after (Told act.now) lates.old }
    ensures most { AreAtMost (most + 1) lates.new }
{
    match act {
        Act::Begun => *lates = [0; MOST_PLACES],
        Act::IdentLate { place } => count(lates, *place, most),
        _ => {}
    }
}

fn note_hot(was_hot: &mut [bool; MOST_PLACES], act: &Act)
    ensures { was_hot.new ≡ was_hot_after (Told act.now) was_hot.old }
{
    match act {
        Act::Begun => *was_hot = [false; MOST_PLACES],
        Act::Hot { place, .. } => was_hot[place.get() as usize] = true,
        _ => {}
    }
}

fn note_actions(actions: &mut [Option<LinkAction>; MOST_PLACES], act: &Act)
    ensures { actions.new ≡ actions_after (Told act.now) actions.old }
{
    match act {
        Act::Begun => *actions = [None; MOST_PLACES],
        Act::Action { place, action, .. } => actions[place.get() as usize] = Some(*action),
        _ => {}
    }
}

fn note_logs(logs: &mut Logs, act: &Act)
    ensures { logs.new ≡ logs_after (Told act.now) logs.old }
{
    match act {
        Act::Begun => *logs = no_logs(),
        Act::Log { .. }
        | Act::LogFailed { .. }
        | Act::LogBadSum { .. }
        | Act::LogNotQueued { .. } => {
            if let Some(log) = log_in(act) {
                logs[log.place.get() as usize] = Some(log.told);
            }
        }
        _ => {}
    }
}

/// No log was read.
pub fn no_logs() -> Logs
    ensures { result ≡ nowhere }
{
    [None; MOST_PLACES]
}
