ghost use Rattle.std.specs.Prelude.{◌≡◌, ◌+◌, ◌<◌, ◌≤◌, ◌^◌};
ghost use Rattle.ata_trace.specs.Event.Event.{Told};
ghost use Rattle.port_past.specs.Completions.{completions_after};
ghost use Rattle.port_past.specs.Drives.{drives_after, with_fault};
ghost use Rattle.port_past.specs.Places.{changed_at_some};
ghost use Rattle.port_ledger.specs.DriveParts.{drive_in, fault_put};
ghost use Rattle.port_ledger.specs.Sound.{TakesSome, IsLow, IsPut};

use crate::answers::{is_good_end, left_issue, log_in, registers};
use crate::command_table::CommandTable;
use crate::completion_list::CompletionList;
use crate::drive_list::DriveList;
use crate::flights::Flights;
use crate::links::{Links, linked_at, plugged_at, worker};
use crate::notes::is_queued_frame;
use ata_base::{DriveNo, Fault, IssueNo, Ms};
use ata_trace::{Act, Step};
use port_past::Completion;

/// The drives after an act: the linked one takes issues, works, is asked for its log and its identity; the plugged one is
/// reset, emptied where it is unplugged, and given faults.
#[tactic(auto, using(crate::proofs::CommandLemmas::short_served))]
#[inline(always)]
pub fn note_drives(
    drives: &mut DriveList,
    act: &Act,
    step: &Step,
    clock: u64,
    commands: &CommandTable,
    flights: &Flights,
    links: &Links,
)
    requires room { 0 < drives.old.room }
    requires early { clock ≤ 2 ^ 62 }
    requires put { IsPut step.now links.now drives.old.list act.now }
    requires low { IsLow act.now }
    ensures list { drives.new.list ≡ drives_after (Told act.now) step.now clock commands.now.list flights.now links.now drives.old.list }
    ensures room { drives.old.room ≤ drives.new.room + 1 }
{
    match act {
        Act::Issued {
            id,
            number,
            tag,
            fis,
            ..
        } => {
            if let Some(cmd) = commands.get(*id) {
                let d = linked_at(links, cmd.place);
                drives.hold(d, *number, *tag, &cmd.op, is_queued_frame(fis));
            }
        }
        Act::Done {
            number,
            status,
            error,
            lba,
            count,
        } => drives.done(
            worker(step, links),
            *number,
            &registers(*status, *error, *lba, *count),
        ),
        Act::ResetBegun { place, .. } => {
            if let Some(place) = place {
                drives.reset(plugged_at(links, *place), Ms { n: clock });
            }
        }
        Act::IdentAsked { place, .. } => drives.identity_asked(linked_at(links, *place)),
        Act::Unplugged { place } => drives.drop_held(plugged_at(links, *place)),
        Act::Injected { place } => inject(drives, step, plugged_at(links, *place)),
        Act::Log { .. }
        | Act::LogFailed { .. }
        | Act::LogBadSum { .. }
        | Act::LogNotQueued { .. } => {
            if let Some(log) = log_in(act) {
                let idle = flights.lowest_free();
                drives.log_told(linked_at(links, log.place), idle, &log.told);
            }
        }
        _ => {}
    }
}

/// The fault that a step puts in, None where it puts in none.
fn fault_put(step: &Step) -> Option<Fault>
    ensures { result ≡ fault_put step.now }
{
    match step {
        Step::Inject { fault, .. } => Some(fault.get()),
        _ => None,
    }
}

/// The fault of an inject step is put into the drive of this number.
#[tactic(auto, using(crate::proofs::DriveLemmas::no_fault, crate::proofs::DriveLemmas::some_fault))]
fn inject(drives: &mut DriveList, step: &Step, d: Option<DriveNo>)
    requires { TakesSome (fault_put step.now) (drive_in drives.old.list d) }
    ensures list { drives.new.list ≡ changed_at_some d (with_fault step.now) drives.old.list }
    ensures room { drives.new.room ≡ drives.old.room }
{
    if let Some(fault) = fault_put(step) {
        drives.inject(d, &fault);
    }
}

/// The completions after an act: an issue's is set by a good `done`, and goes with the issue and with a reset of its place
/// or of the host.
#[inline(always)]
pub fn note_completions(
    completions: &mut CompletionList,
    act: &Act,
    step: &Step,
    flights: &Flights,
    links: &Links,
    drives: &DriveList,
)
    ensures { completions.new ≡ completions_after (Told act.now) step.now flights.now links.now drives.now.list completions.old }
{
    match act {
        Act::Done {
            number,
            status,
            error,
            lba,
            count,
        } => {
            if is_good_end(*status, *error, *lba) {
                let completion = Completion {
                    regs: registers(*status, *error, *lba, *count),
                    stamps: drives.stamps(worker(step, links), *number),
                };
                completions.set_issue(flights, *number, Some(completion));
            }
        }
        Act::Issued { tag, .. } => completions.set(*tag, None),
        Act::ResetBegun { place, .. } => match place {
            Some(place) => completions.leave_place(flights, *place),
            None => completions.clear(),
        },
        _ => {
            if let Some(n) = left_issue(act) {
                completions.set_issue(flights, IssueNo { n }, None);
            }
        }
    }
}
