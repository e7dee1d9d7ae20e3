ghost use Rattle.std.specs.Prelude.{◌≡◌, ◌+◌, ◌≤◌, List, Some, IfSome, slice_index_or, None};
ghost use Rattle.ata_base.specs.declared.cmd.Cmd.{Cmd};
ghost use Rattle.host_tags.specs.Numbers.{AreApart};
ghost use Rattle.host_tags.specs.Slots.{flight_at};
ghost use Rattle.port_ledger.specs.LedgerView.{past};
ghost use Rattle.port_ledger.specs.Sound.{IsCounted, IsSound};
ghost use Rattle.port_past.specs.Attachment.{detachments};
ghost use Rattle.port_past.specs.Commands.{command_of, commands};
ghost use Rattle.port_past.specs.Judged.{judged};
ghost use Rattle.port_past.specs.Slots.{slots};
ghost use Rattle.port_rules.specs.Finish.{failed_act, finish_act, finish_acts, finishes, registers_told};
ghost use Rattle.port_rules.specs.TagByTag.{finish_of};
ghost use Rattle.port_telling.specs.Adds.{Adds};
ghost use Rattle.port_telling.specs.Walks.{TellsAt, slots_in};
ghost use Rattle.port_recovery.specs.FinishByTag.{as_kept, finishes_in};
ghost use Rattle.port_recovery.specs.Recoverable.{AreOneEach};

use ata_base::{Cmd, IssueNo, Regs, TAG_COUNT, Tag};
use ata_trace::Act;
use eh_flow::Finish;
use port_ledger::Ledger;
use port_past::Judgement;

/// Recovery ends: the commands of owned issues are answered or tried again, in tag order.
pub fn finish(ledger: &mut Ledger)
    requires room { 33 ≤ ledger.old.room }
    requires single { AreOneEach (slots (past ledger.old)) }
    ensures { Adds ledger.old ledger.new (finish_acts (past ledger.old)) }
{
    finish_all(ledger);
    ledger.note(Act::Ended);
}

/// Answers the commands of owned issues, or tries them again, in tag order.
#[tactic(auto, using(port_telling::proofs::WalkLemmas::walk_begins))]
fn finish_all(ledger: &mut Ledger)
    requires room { 32 ≤ ledger.old.room }
    requires single { AreOneEach (slots (past ledger.old)) }
    ensures adds { Adds ledger.old ledger.new
        (finishes (commands (past ledger.old)) (detachments (past ledger.old)) (slots (past ledger.old)) (judged (past ledger.old))) }
    ensures spare { ledger.old.room ≤ ledger.new.room + 32 }
{
    for tag in 0..TAG_COUNT as u8 {
        finish_at(ledger, Tag::at(tag));
    }
}

/// Answers the command of the issue under a tag, or tries it again, where the issue is owned and was judged.
fn finish_at(ledger: &mut Ledger, tag: Tag)
    requires room { 1 ≤ ledger.old.room }
    requires single { AreOneEach (slots_in ledger.old) }
    ensures tells { TellsAt as_kept finishes_in tag ledger.old ledger.new }
    ensures single { AreOneEach (slots_in ledger.new) }
{
    if let Some(act) = finish_of(ledger, tag) {
        ledger.note(act);
    }
}

/// What the finish tells of the issue under a tag, where it is owned and was judged.
fn finish_of(ledger: &Ledger, tag: Tag) -> Option<Act>
    ensures act { result ≡ finish_of (commands (past ledger.now)) (detachments (past ledger.now))
        (flight_at (slots (past ledger.now)) tag) (slice_index_or (judged (past ledger.now)) tag None) }
    ensures sound { IfSome result (IsSound ledger.now.head (past ledger.now)) }
    ensures apart { AreApart (slots (past ledger.now)) }
{
    let flight = match ledger.flight(tag) {
        Some(flight) => flight,
        None => return None,
    };
    let judgement = ledger.judgement(tag)?;
    if !flight.owned {
        return None;
    }
    let cmd = ledger.command(flight.id)?;
    Some(finish_act(cmd, flight.number, &judgement, ledger.is_gone(&cmd)))
}

/// What becomes of a command of an owned issue, told.
fn finish_act(cmd: Cmd, number: IssueNo, judgement: &Judgement, gone: bool) -> Act
    ensures act { result ≡ finish_act cmd number judgement.now gone }
    ensures counted { (accepted : List Cmd) → command_of cmd.id accepted ≡ Some cmd → IsCounted accepted result }
{
    match eh_flow::finish(&cmd, judgement.kinds, gone) {
        Finish::NoDev => Act::AnsweredNodev { id: cmd.id, number },
        Finish::Retry { raised } => Act::Retried {
            id: cmd.id,
            number,
            allowance_raised: raised,
        },
        Finish::Fail => failed_act(&cmd, number, judgement),
    }
}

/// A command that failed is answered with the kinds of its judgement, and the registers.
fn failed_act(cmd: &Cmd, number: IssueNo, judgement: &Judgement) -> Act
    ensures { result ≡ failed_act cmd.now number judgement.now (registers_told judgement.now.regs) }
{
    let regs = registers_told(judgement.regs);
    Act::AnsweredFailed {
        id: cmd.id,
        number,
        kinds: judgement.kinds,
        status: regs.status,
        error: regs.error,
        lba: regs.lba,
        count: regs.count,
    }
}

/// The registers that are told: those that were analysed, and zeros where none were.
fn registers_told(regs: Option<Regs>) -> Regs
    ensures { result ≡ registers_told regs }
{
    match regs {
        Some(regs) => regs,
        None => Regs {
            status: 0,
            error: 0,
            lba: 0,
            device: 0x40,
            count: 0,
        },
    }
}
