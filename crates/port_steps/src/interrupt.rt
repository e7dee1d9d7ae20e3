ghost use Rattle.std.specs.Prelude.{◌≡◌, ◌+◌, ◌<◌, ◌≤◌, true, false};
ghost use Rattle.ata_trace.specs.Entries.{grown};
ghost use Rattle.ata_trace.specs.declared.step.Step.TheVariants as steps;
ghost use Rattle.port_ledger.specs.LedgerView.{past};
ghost use Rattle.port_past.specs.Line.{is_irq_served};
ghost use Rattle.port_past.specs.PortState.{is_asked};
ghost use Rattle.port_rules.specs.Interrupt.{is_struck, must_request, no_kinds, served_from};
ghost use Rattle.port_rules.specs.Legal.{entry_after};
ghost use Rattle.port_rules.specs.Sorting.{condemnations, ok_answers};
ghost use Rattle.port_rules.specs.Told.{or_nothing};
ghost use Rattle.port_telling.specs.Adds.{Adds};
ghost use Rattle.port_steps.specs.Taken.{asks};
ghost use Rattle.port_telling.specs.Walks.{completions_in, slots_in};

use crate::taken::{Taken, asks, has_cause, standing};
use ata_base::Kinds;
use ata_trace::{Step, Who};
use port_ledger::Ledger;
use port_telling::{answer_all, condemn_all, freeze_if, is_more, nothing, request_if};

/// Makes the entry of an interrupt. The causes are asked before it begins, since its beginning takes them.
pub fn irq(ledger: &mut Ledger, who: Who, seq: u64)
    requires begins { 0 < ledger.old.begins }
    ensures past { past ledger.new ≡ grown (past ledger.old) (entry_after ledger.old.head (past ledger.old) who seq steps.Irq) }
    ensures head { ledger.new.head ≡ ledger.old.head }
{
    if !ledger.is_irq_served() {
        pass(ledger, who, seq);
    } else if has_cause(ledger) {
        take(ledger, who, seq);
    } else {
        answer(ledger, who, seq);
    }
}

/// Makes the entry of an interrupt that isn't served.
fn pass(ledger: &mut Ledger, who: Who, seq: u64)
    requires begins { 0 < ledger.old.begins }
    requires unserved { is_irq_served (past ledger.old) ≡ false }
    ensures past { past ledger.new ≡ grown (past ledger.old) (entry_after ledger.old.head (past ledger.old) who seq steps.Irq) }
    ensures head { ledger.new.head ≡ ledger.old.head }
{
    ledger.begin(who, seq, &Step::Irq);
    nothing(ledger);
}

/// Makes the entry of an interrupt that is served. It stands apart, since what it takes is large, and most take nothing.
#[inline(never)]
fn take(ledger: &mut Ledger, who: Who, seq: u64)
    requires begins { 0 < ledger.old.begins }
    requires served { is_irq_served (past ledger.old) ≡ true }
    ensures past { past ledger.new ≡ grown (past ledger.old) (entry_after ledger.old.head (past ledger.old) who seq steps.Irq) }
    ensures head { ledger.new.head ≡ ledger.old.head }
{
    let taken = standing(ledger);
    ledger.begin(who, seq, &Step::Irq);
    serve_or_nothing(ledger, &taken);
}

/// Makes the entry of an interrupt that is served and takes nothing: it answers.
fn answer(ledger: &mut Ledger, who: Who, seq: u64)
    requires begins { 0 < ledger.old.begins }
    requires served { is_irq_served (past ledger.old) ≡ true }
    requires calm { must_request ledger.old.head (past ledger.old) ≡ false }
    ensures past { past ledger.new ≡ grown (past ledger.old) (entry_after ledger.old.head (past ledger.old) who seq steps.Irq) }
    ensures head { ledger.new.head ≡ ledger.old.head }
{
    ledger.begin(who, seq, &Step::Irq);
    answer_or_nothing(ledger);
}

/// The completed issues are answered, and there may be nothing to do.
#[tactic(auto, using(port_telling::proofs::AddLemmas::or_nothing_some, port_telling::proofs::AddLemmas::or_nothing_none))]
fn answer_or_nothing(ledger: &mut Ledger)
    requires room { 33 ≤ ledger.old.room }
    ensures { Adds ledger.old ledger.new (or_nothing (ok_answers (slots_in ledger.old) (completions_in ledger.old))) }
{
    let room = ledger.room();
    answer_all(ledger);
    if ledger.room() == room {
        nothing(ledger);
    }
}

/// An interrupt is served, and there may be nothing to do.
#[tactic(auto, using(port_telling::proofs::AddLemmas::or_nothing_some, port_telling::proofs::AddLemmas::or_nothing_none))]
fn serve_or_nothing(ledger: &mut Ledger, taken: &Taken)
    requires room { 67 ≤ ledger.old.room }
    ensures { Adds ledger.old ledger.new
        (or_nothing (served_from (slots_in ledger.old) (completions_in ledger.old) taken.now.failing taken.now.freeze (asks taken.now) (is_asked (past ledger.old)))) }
{
    let room = ledger.room();
    serve(ledger, taken);
    if ledger.room() == room {
        nothing(ledger);
    }
}

/// An interrupt is served.
fn serve(ledger: &mut Ledger, taken: &Taken)
    requires room { 66 ≤ ledger.old.room }
    ensures { Adds ledger.old ledger.new
        (served_from (slots_in ledger.old) (completions_in ledger.old) taken.now.failing taken.now.freeze (asks taken.now) (is_asked (past ledger.old))) }
{
    let asked = ledger.is_asked();
    let request = asks(taken);
    answer_all(ledger);
    condemn_struck(ledger, taken, request);
    freeze_if(ledger, taken.freeze);
    request_if(ledger, is_more(request, asked));
}

/// Condemns the issues that are struck, without kinds; without a cause none is.
#[tactic(auto, using(crate::proofs::IrqLemmas::none_struck))]
fn condemn_struck(ledger: &mut Ledger, taken: &Taken, request: bool)
    requires room { 32 ≤ ledger.old.room }
    requires causes { request ≡ asks taken.now }
    ensures adds { Adds ledger.old ledger.new
        (condemnations (is_struck taken.now.freeze taken.now.failing) no_kinds (slots_in ledger.old) (completions_in ledger.old)) }
    ensures spare { ledger.old.room ≤ ledger.new.room + 32 }
{
    if request {
        condemn_all(ledger, taken.freeze, &taken.failing, Kinds::none());
    }
}
