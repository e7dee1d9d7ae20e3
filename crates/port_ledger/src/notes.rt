ghost use Rattle.std.specs.Prelude.{◌≡◌, ◌+◌, ◌<◌, ◌≤◌, ◌^◌, ◌++◌, option_map, option_to_list, Bool, false, ◌∷◌, [], length, Some, None};
ghost use Rattle.ata_trace.specs.Event.Event.{Told};
ghost use Rattle.host_tags.specs.Numbers.{AreUpTo};
ghost use Rattle.port_past.specs.Clock.{clock_after};
ghost use Rattle.port_past.specs.Commands.{command_of, commands_after, counted, is_accepted, place_of, submitted};
ghost use Rattle.port_past.specs.Issues.{issue_count_after};
ghost use Rattle.port_past.specs.Line.{line_after, line_begun};
ghost use Rattle.port_past.specs.Live.{live_after};
ghost use Rattle.port_past.specs.Queues.{queues_after, retried_after};
ghost use Rattle.port_past.specs.Tasks.{tasks_after};
ghost use Rattle.port_past.specs.Settlings.{settle_count_begun};
ghost use Rattle.port_past.specs.Slots.{slots_after, fresh_flight, is_queued_frame};
ghost use Rattle.port_ledger.specs.Commands.{CanServe};
ghost use Rattle.port_ledger.specs.LiveFlags.{ids_of, live_of};
ghost use Rattle.port_ledger.specs.Sound.{AskedForFew, CanCount, IsNew, IsNext, IsCounted, IsEarly};

use crate::answers::{answered_command, left_issue};
use crate::attachments::Counts;
use crate::command_queues::CommandQueues;
use crate::command_table::{CommandTable, counted};
use crate::flights::Flights;
use crate::live_flags::LiveFlags;
use crate::recovery_told::RecoveryTold;
use crate::task_list::TaskList;
use ata_base::{Cmd, CmdId, IssueNo, Kinds, MOST_PLACES, Ms, Place};
use ata_trace::{Act, Step, Who};
use host_tags::InFlight;

// One function for each part that an act can change: what the part is after the act.

/// The interrupt line when a step begins, at a port that is frozen or not.
pub fn line_at(step: &Step, frozen: bool, was: bool) -> bool
    ensures { result ≡ line_begun step.now frozen was }
{
    match step {
        Step::Irq => frozen && was,
        _ => was,
    }
}

/// The interrupt line after an act.
pub fn line_after(act: &Act, was: bool) -> bool
    ensures { (frozen : Bool) → result ≡ line_after (Told act.now) frozen was }
{
    match act {
        Act::Raised => true,
        Act::Lost => false,
        _ => was,
    }
}

/// The clock after an act.
pub fn clock_after(act: &Act, was: u64) -> u64
    requires act { IsEarly act.now }
    requires was { was ≤ 2 ^ 62 }
    ensures value { result ≡ clock_after (Told act.now) was }
    ensures early { result ≤ 2 ^ 62 }
{
    match act {
        Act::Now { at } => at.n,
        _ => was,
    }
}

/// How many issues there were after an act.
pub fn issue_count_after(act: &Act, was: u64) -> u64
    requires { was + 1 < 2 ^ 64 }
    ensures value { result ≡ issue_count_after (Told act.now) was }
    ensures most { result ≤ was + 1 }
{
    match act {
        Act::Issued { .. } => was + 1,
        _ => was,
    }
}

/// The accepted commands and the live ones: one more is accepted, or one is counted or answered.
#[tactic(auto, using(crate::proofs::LiveLemmas::live_of_answer, crate::proofs::LiveLemmas::ids_retried))]
#[inline(always)]
pub fn note_commands(
    commands: &mut CommandTable,
    live: &mut LiveFlags,
    act: &Act,
    step: &Step,
    detachments: &Counts,
)
    requires room { 0 < commands.old.room }
    requires new { IsNew commands.old.list step.now act.now }
    requires counted { IsCounted commands.old.list act.now }
    ensures list { commands.new.list ≡ commands_after (Told act.now) step.now detachments.now commands.old.list }
    ensures live { live_of live.new (ids_of commands.new.list) ≡ live_after (Told act.now) (live_of live.old (ids_of commands.old.list)) }
    ensures room { commands.old.room ≤ commands.new.room + 1 }
{
    match act {
        Act::Accepted { id } => note_accepted(commands, live, *id, step, detachments),
        Act::Retried {
            id,
            allowance_raised,
            ..
        } => commands.retry(*id, *allowance_raised),
        _ => {
            if let Some(id) = answered_command(act) {
                live.set(id, false);
            }
        }
    }
}

/// What a step submits is accepted, and live from now on.
#[tactic(auto, using(crate::proofs::LiveLemmas::live_of_accepted))]
fn note_accepted(
    commands: &mut CommandTable,
    live: &mut LiveFlags,
    id: CmdId,
    step: &Step,
    detachments: &Counts,
)
    requires room { 0 < commands.old.room }
    requires new { is_accepted id commands.old.list ≡ false }
    requires asked { AskedForFew step.now }
    ensures list { commands.new.list ≡ commands.old.list ++ option_to_list (submitted id step.now detachments.now) }
    ensures live { live_of live.new (ids_of commands.new.list) ≡ live_of live.old (ids_of commands.old.list) ++ id ∷ [] }
    ensures room { commands.old.room ≤ commands.new.room + 1 }
{
    let cmd = submitted(id, step, detachments);
    live.set(cmd.id, true);
    commands.accept(cmd);
}

/// The command that a submit step asks for.
#[tactic(auto, using(crate::proofs::CommandLemmas::can_serve))]
pub fn submitted(id: CmdId, step: &Step, detachments: &Counts) -> Cmd
    requires { AskedForFew step.now }
    ensures value { submitted id step.now detachments.now ≡ Some result }
    ensures number { result.id ≡ id }
    ensures served { CanServe result }
{
    match step {
        Step::Submit {
            place,
            op,
            allow,
            wait,
            ..
        } => Cmd {
            id,
            place: *place,
            op: op.get(),
            allow: allow.get(),
            retries: 0,
            wait: wait.get(),
            attachment: detachments[place.get() as usize],
        },
        _ => unreachable!(),
    }
}

/// The slots: an issue is in flight under its tag until the answer or the retry that names it.
#[tactic(auto, using(host_tags::proofs::NumberLemmas::fresh_above, host_tags::proofs::NumberLemmas::up_to_put, host_tags::proofs::NumberLemmas::up_to_later, crate::proofs::FlightLemmas::up_to_without, crate::proofs::FlightLemmas::up_to_condemned, crate::proofs::FlightLemmas::up_to_expired))]
#[inline(always)]
pub fn note_slots(flights: &mut Flights, act: &Act, commands: &CommandTable, issues: u64)
    requires next { IsNext issues act.now }
    requires numbers { AreUpTo issues flights.old }
    ensures value { flights.new ≡ slots_after (Told act.now) commands.now.list flights.old }
    ensures numbers { AreUpTo (issue_count_after (Told act.now) issues) flights.new }
{
    match act {
        Act::Issued {
            id,
            number,
            tag,
            deadline,
            fis,
        } => {
            let place = place_of(commands, *id);
            flights.put(*tag, fresh_flight(*id, *number, place, *deadline, fis));
        }
        Act::Condemned { number, kinds } => flights.condemn_issue(*number, *kinds),
        Act::Expired { number, .. } => flights.expire_issue(*number),
        _ => {
            if let Some(n) = left_issue(act) {
                flights.release_issue(IssueNo { n });
            }
        }
    }
}

/// The place of the command of this number; 0 for one that was never accepted.
pub fn place_of(commands: &CommandTable, id: CmdId) -> Place
    ensures { result ≡ place_of id commands.now.list }
{
    match commands.get(id) {
        Some(cmd) => cmd.place,
        None => Place::at(0),
    }
}

/// An issue that has just begun.
fn fresh_flight(id: CmdId, number: IssueNo, place: Place, deadline: Ms, fis: &[u8; 20]) -> InFlight
    ensures { result ≡ fresh_flight id number place deadline fis.now }
{
    InFlight {
        id,
        number,
        place,
        queued: is_queued_frame(fis),
        deadline,
        expired: false,
        owned: false,
        kinds: Kinds::none(),
    }
}

/// Whether a frame is of a queued command.
pub fn is_queued_frame(fis: &[u8; 20]) -> bool
    ensures { result ≡ is_queued_frame fis.now }
{
    fis[2] == 0x60 || fis[2] == 0x61
}

/// How many entries of the settling there are, where one begins.
pub fn settlings_at(who: &Who, was: u64) -> u64
    requires { was + 1 < 2 ^ 64 }
    ensures value { result ≡ settle_count_begun who.now was }
    ensures most { result ≤ was + 1 }
{
    match who {
        Who::Settle => was + 1,
        _ => was,
    }
}

/// The queues and the retried commands: an accepted command joins, an issued or refused one leaves, a retried one goes back
/// at the end of recovery.
#[inline(always)]
pub fn note_queues(
    queues: &mut CommandQueues,
    act: &Act,
    step: &Step,
    detachments: &Counts,
    commands: &CommandTable,
)
    requires room { 0 < queues.old.room }
    requires new { IsNew commands.now.list step.now act.now }
    requires counted { IsCounted commands.now.list act.now }
    ensures lists { queues.new.lists ≡ queues_after (Told act.now) step.now detachments.now commands.now.list queues.old.retried queues.old.lists }
    ensures retried { queues.new.retried ≡ retried_after (Told act.now) commands.now.list queues.old.retried }
    ensures room { queues.old.room ≤ queues.new.room + 1 }
{
    match act {
        Act::Accepted { id } => queues.join(submitted(*id, step, detachments)),
        Act::Issued { id, .. } => queues.serve(place_of(commands, *id)),
        Act::AnsweredNodev { id, number } => {
            if number.n == 0 {
                queues.serve(place_of(commands, *id));
            }
        }
        Act::Retried {
            id,
            allowance_raised,
            ..
        } => note_retried(queues, *id, *allowance_raised, commands),
        Act::Ended => queues.give_back(),
        _ => {}
    }
}

/// A command is retried.
#[tactic(auto, using(crate::proofs::CommandLemmas::served_counted))]
fn note_retried(queues: &mut CommandQueues, id: CmdId, raised: bool, commands: &CommandTable)
    requires room { 0 < queues.old.room }
    requires counted { raised ≡ false → CanCount (command_of id commands.now.list) }
    ensures lists { queues.new.lists ≡ queues.old.lists }
    ensures retried { queues.new.retried ≡ queues.old.retried ++ option_to_list (option_map (counted raised) (command_of id commands.now.list)) }
    ensures room { queues.old.room ≤ queues.new.room + 1 }
{
    if let Some(cmd) = commands.get(id) {
        queues.retry(counted(cmd, raised));
    }
}

/// The tasks: each recovery makes them anew, at its autopsy.
pub fn note_tasks(
    tasks: &mut TaskList,
    act: &Act,
    pmp: bool,
    frozen: bool,
    attached: &[bool; MOST_PLACES],
    recovery: &RecoveryTold,
)
    ensures { tasks.new ≡ tasks_after pmp (Told act.now) frozen attached.now recovery.now.was_hot recovery.now.actions tasks.old }
{
    match act {
        Act::Begun => tasks.clear(),
        Act::Autopsied => {
            tasks.make(
                pmp && frozen,
                attached,
                &recovery.was_hot,
                &recovery.actions,
            );
        }
        _ => {}
    }
}
