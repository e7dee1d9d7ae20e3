ghost use Rattle.std.specs.Prelude.{◌≡◌, ◌<◌, slice_index};
ghost use Rattle.port_ledger.specs.LedgerView.{past};
ghost use Rattle.port_past.specs.PlaceTold.{ident_lates, place_told};
ghost use Rattle.port_past.specs.Tasks.{tasks};
ghost use Rattle.port_rules.specs.Phase.{first_phase, host_phase, is_wanted, phase, phase_at, place_phase, task_phase};
ghost use Rattle.port_recovery.specs.Recoverable.{AreFewTries, late_try};

use ata_base::Place;
use eh_flow::Phase;
use eh_reval::IDENT_TRIES;
use port_ledger::Ledger;
use port_past::{HostTold, PlaceTold, Task};

/// Where recovery stands: it isn't running, it has no autopsy yet, or it is at its first task that isn't through.
pub fn phase(ledger: &Ledger) -> Phase
    requires tries { AreFewTries (place_told (past ledger.now)) (ident_lates (past ledger.now)) }
    ensures { result ≡ phase ledger.now.head (past ledger.now) }
{
    if !ledger.is_running() {
        Phase::Idle
    } else if !ledger.is_autopsied() {
        Phase::Logs
    } else {
        first_phase(ledger)
    }
}

/// The phase of the first task that isn't through.
fn first_phase(ledger: &Ledger) -> Phase
    requires tries { AreFewTries (place_told (past ledger.now)) (ident_lates (past ledger.now)) }
    ensures { result ≡ first_phase (past ledger.now) (tasks ledger.now.head (past ledger.now)) }
{
    let tasks = ledger.tasks();
    for task in tasks {
        if let Some(phase) = task_phase(ledger, task) {
            return phase;
        }
    }
    Phase::Through
}

/// The phase of a task, none where it is through.
fn task_phase(ledger: &Ledger, task: &Task) -> Option<Phase>
    requires tries { AreFewTries (place_told (past ledger.now)) (ident_lates (past ledger.now)) }
    ensures { result ≡ task_phase (past ledger.now) task.now }
{
    match *task {
        Task::Host => host_phase(ledger.host_told()),
        Task::Reset { place } => phase_at(
            ledger,
            place,
            Phase::ResetOwed {
                place,
                attempt: 1,
                ident: 1,
            },
        ),
        Task::Revalidate { place } => {
            phase_at(ledger, place, Phase::IdentOwed { place, attempt: 1 })
        }
    }
}

/// The phase of the host's task by what was told last of it, none where it is through.
fn host_phase(told: HostTold) -> Option<Phase>
    ensures { result ≡ host_phase told }
{
    match told {
        HostTold::NotBegun => Some(Phase::HostOwed),
        HostTold::ResetBegun => Some(Phase::HostOpen),
        HostTold::ResetEnded => None,
    }
}

/// The phase of a place's task, which begins with this one, none where it is through.
fn phase_at(ledger: &Ledger, place: Place, first: Phase) -> Option<Phase>
    requires tries { AreFewTries (place_told (past ledger.now)) (ident_lates (past ledger.now)) }
    ensures { result ≡ phase_at (past ledger.now) place first }
{
    let wanted = is_wanted(ledger, place);
    let lates = ident_lates(ledger, place);
    place_phase(place, first, wanted, lates, ledger.place_told(place))
}

/// Whether the device of a place is to be identified after a reset: it is attached or hot.
fn is_wanted(ledger: &Ledger, place: Place) -> bool
    ensures { result ≡ is_wanted (past ledger.now) place }
{
    ledger.is_attached(place) || ledger.was_hot(place)
}

/// How often the identity of a place was late in this recovery, as a byte.
fn ident_lates(ledger: &Ledger, place: Place) -> u8
    requires few { slice_index (ident_lates (past ledger.now)) place < 255 }
    ensures { result ≡ slice_index (ident_lates (past ledger.now)) place }
{
    ledger.ident_lates(place) as u8
}

/// The phase of a place's task by what was told last of it, none where it is through: what is first to do, whether its
/// device is to be identified, and how often its identity was late.
fn place_phase(
    place: Place,
    first: Phase,
    wanted: bool,
    lates: u8,
    told: PlaceTold,
) -> Option<Phase>
    requires lates { lates < 255 }
    requires tries { late_try told < 255 }
    ensures { result ≡ place_phase place first wanted lates told }
{
    let ident = lates + 1;
    match told {
        PlaceTold::NotBegun => Some(first),
        PlaceTold::ResetBegun { attempt, deadline } => Some(Phase::ResetOpen {
            place,
            attempt,
            ident,
            deadline,
        }),
        PlaceTold::ResetLate { attempt } => Some(Phase::ResetOwed {
            place,
            attempt: attempt + 1,
            ident,
        }),
        PlaceTold::ResetEnded { found } if found && wanted => Some(Phase::IdentOwed {
            place,
            attempt: ident,
        }),
        PlaceTold::IdentAsked { deadline } => Some(Phase::IdentOpen {
            place,
            attempt: ident,
            deadline,
        }),
        PlaceTold::IdentLate if lates < IDENT_TRIES => Some(Phase::ResetOwed {
            place,
            attempt: 1,
            ident,
        }),
        _ => None,
    }
}
