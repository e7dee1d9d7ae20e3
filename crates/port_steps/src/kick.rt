ghost use Rattle.std.specs.Prelude.{◌<◌, ◌≤◌, ◌≡◌, ◌∷◌, [], Some, IsSome, IsTrue};
ghost use Rattle.ata_base.specs.Operations.{is_data};
ghost use Rattle.ata_tf.specs.CommandCodes.{command_frame};
ghost use Rattle.ata_trace.specs.ScriptRanges.{IsScriptOp};
ghost use Rattle.ata_trace.specs.declared.act.Act.TheVariants.{AnsweredNodev, Exclusive};
ghost use Rattle.port_ledger.specs.Commands.{CanServe};
ghost use Rattle.port_ledger.specs.LedgerView.{past};
ghost use Rattle.port_rules.specs.Kick.{command_acts, deferred_or_issued, frame_port, front_acts, is_for_port, is_queued, issued_acts, kick_acts, tag_named};
ghost use Rattle.port_rules.specs.Told.{told_if};
ghost use Rattle.port_telling.specs.Adds.{Adds};

use crate::deferral::may_issue;
use ata_base::{Cmd, CmdId, Deferral, IssueNo, Ms, Op, Place, Tag};
use ata_script::PortHead;
use ata_tf::{of_op, to_h2d};
use ata_trace::Act;
use port_ledger::Ledger;
use port_telling::nothing;

/// The front command of a place is answered where its device is gone, and else issued, or deferred for the first reason
/// that holds.
pub fn kick(ledger: &mut Ledger, place: Place)
    requires room { 2 ≤ ledger.old.room }
    ensures { Adds ledger.old ledger.new (kick_acts ledger.old.head (past ledger.old) place) }
{
    match ledger.front(place) {
        Some(cmd) => serve(ledger, &cmd),
        None => nothing(ledger),
    }
}

/// A front command is answered, issued or deferred.
fn serve(ledger: &mut Ledger, cmd: &Cmd)
    requires room { 2 ≤ ledger.old.room }
    requires served { CanServe cmd.now }
    ensures { Adds ledger.old ledger.new (front_acts ledger.old.head (past ledger.old) (Some cmd.now)) }
{
    if ledger.is_gone(cmd) {
        answer_gone(ledger, cmd.id);
    } else {
        let queued = is_queued(ledger, cmd);
        issue_or_defer(ledger, cmd, queued);
    }
}

/// A command that waits is answered, since its device is gone.
fn answer_gone(ledger: &mut Ledger, id: CmdId)
    requires room { 0 < ledger.old.room }
    ensures { Adds ledger.old ledger.new (AnsweredNodev id (record { n = 0 }) ∷ []) }
{
    ledger.note(Act::AnsweredNodev {
        id,
        number: IssueNo { n: 0 },
    });
}

/// Whether a command is queued: a read or a write where NCQ is on.
fn is_queued(ledger: &Ledger, cmd: &Cmd) -> bool
    ensures value { result ≡ is_queued (past ledger.now) cmd.now.place cmd.now.op }
    ensures data { IsTrue result → IsTrue (is_data cmd.now.op) }
{
    cmd.op.is_data() && ledger.is_ncq_on(cmd.place)
}

/// A command is issued, or deferred for the first reason that holds.
fn issue_or_defer(ledger: &mut Ledger, cmd: &Cmd, queued: bool)
    requires room { 2 ≤ ledger.old.room }
    requires served { CanServe cmd.now }
    requires data { IsTrue queued → IsTrue (is_data cmd.now.op) }
    ensures { Adds ledger.old ledger.new (command_acts ledger.old.head (past ledger.old) cmd.now queued) }
{
    match may_issue(ledger, cmd.place, queued) {
        Ok(tag) => issue(ledger, cmd, queued, tag),
        Err(why) => defer(ledger, cmd, queued, why),
    }
}

/// A command is deferred for this reason, and its place waits for the port where no other does.
#[tactic(auto, using(port_telling::proofs::AddLemmas::adds_act, port_telling::proofs::AddLemmas::adds_more))]
fn defer(ledger: &mut Ledger, cmd: &Cmd, queued: bool, why: Deferral)
    requires room { 2 ≤ ledger.old.room }
    ensures { Adds ledger.old ledger.new (deferred_or_issued ledger.old.head (past ledger.old) cmd.now queued (Some why)) }
{
    let first = is_for_port(why) && ledger.exclusive().is_none();
    ledger.note(Act::Deferred { id: cmd.id, why });
    exclude_if(ledger, first, cmd.place);
}

/// Whether a reason to defer is that another place has the port.
fn is_for_port(why: Deferral) -> bool
    ensures { result ≡ is_for_port why }
{
    matches!(why, Deferral::PortBusy)
}

/// A place alone may issue from now on, where something holds.
fn exclude_if(ledger: &mut Ledger, holds: bool, place: Place)
    requires room { 0 < ledger.old.room }
    ensures { Adds ledger.old ledger.new (told_if holds (Exclusive place)) }
{
    if holds {
        exclude(ledger, place);
    }
}

fn exclude(ledger: &mut Ledger, place: Place)
    requires room { 0 < ledger.old.room }
    ensures { Adds ledger.old ledger.new (Exclusive place ∷ []) }
{
    ledger.note(Act::Exclusive { place });
}

/// Issues a command under a tag, under the next number, due after its wait.
fn issue(ledger: &mut Ledger, cmd: &Cmd, queued: bool, tag: Tag)
    requires room { 0 < ledger.old.room }
    requires served { CanServe cmd.now }
    requires data { IsTrue queued → IsTrue (is_data cmd.now.op) }
    ensures { Adds ledger.old ledger.new (issued_acts ledger.old.head (past ledger.old) cmd.now queued (Some tag)) }
{
    let number = IssueNo {
        n: ledger.issue_count() + 1,
    };
    let deadline = Ms {
        n: ledger.clock().n + cmd.wait.n,
    };
    let port = frame_port(ledger.head(), cmd.place);
    let fis = frame_of(&cmd.op, tag_named(queued, tag), port);
    ledger.note(Act::Issued {
        id: cmd.id,
        number,
        tag,
        deadline,
        fis,
    });
}

/// The tag that a frame names: a queued command's.
fn tag_named(queued: bool, tag: Tag) -> Option<Tag>
    ensures value { result ≡ tag_named queued tag }
    ensures queued { IsSome result → IsTrue queued }
{
    if queued { Some(tag) } else { None }
}

/// The port of a multiplier that a frame names: the place, and 0 on a direct port.
fn frame_port(head: &PortHead, place: Place) -> u8
    ensures value { result ≡ frame_port head.now place }
    ensures range { result < 16 }
{
    if head.pmp { place.get() } else { 0 }
}

/// The frame that gives an operation to the drive behind this port of a multiplier.
fn frame_of(op: &Op, named: Option<Tag>, port: u8) -> [u8; 20]
    requires low { IsScriptOp op.now }
    requires data { IsSome named → IsTrue (is_data op.now) }
    requires port { port < 16 }
    ensures { result ≡ command_frame op.now named port }
{
    to_h2d(&of_op(op, named), port)
}
