ghost use Rattle.std.specs.Prelude.{◌≡◌, ◌+◌, ◌≤◌, Bool};
ghost use Rattle.ata_base.specs.declared.err_mask.ErrMask.{ErrMask};
ghost use Rattle.host_tags.specs.declared.in_flight.InFlight.{InFlight};
ghost use Rattle.port_rules.specs.Interrupt.{is_struck};
ghost use Rattle.port_rules.specs.Sorting.{condemnations, ok_answers};
ghost use Rattle.port_rules.specs.TagByTag.{answer_of, condemnation_of};
ghost use Rattle.port_telling.specs.Adds.{Adds};
ghost use Rattle.port_telling.specs.Walks.{TellsAt, completions_in, slots_in};

use ata_base::{Kinds, MOST_PLACES, TAG_COUNT, Tag};
use ata_trace::Act;
use eh_autopsy::FailedIssue;
use host_tags::InFlight;
use port_ledger::Ledger;

/// Answers the completed issues that aren't owned, in tag order. What is to be condemned stays. Past the last busy tag
/// there is none.
#[tactic(auto, using(crate::proofs::WalkLemmas::walk_begins))]
pub fn answer_all(ledger: &mut Ledger)
    requires room { 32 ≤ ledger.old.room }
    ensures adds { Adds ledger.old ledger.new (ok_answers (slots_in ledger.old) (completions_in ledger.old)) }
    ensures spare { ledger.old.room ≤ ledger.new.room + 32 }
    ensures left { (test : InFlight → Bool) (kinds : ErrMask) → condemnations test kinds (slots_in ledger.new) (completions_in ledger.new)
        ≡ condemnations test kinds (slots_in ledger.old) (completions_in ledger.old) }
{
    let busy = ledger.slots().busy();
    for tag in 0..TAG_COUNT as u8 {
        if busy >> tag == 0 {
            return;
        }
        answer_busy(ledger, Tag::at(tag));
    }
}

/// Answers the issue under a tag, where there is one that is completed and not owned.
fn answer_busy(ledger: &mut Ledger, tag: Tag)
    requires room { 1 ≤ ledger.old.room }
    ensures tells { TellsAt answer_of completions_in tag ledger.old ledger.new }
    ensures left { (test : InFlight → Bool) (kinds : ErrMask) → condemnations test kinds (slots_in ledger.new) (completions_in ledger.new)
        ≡ condemnations test kinds (slots_in ledger.old) (completions_in ledger.old) }
{
    if ledger.flight(tag).is_some() {
        answer_at(ledger, tag);
    }
}

/// Answers the issue under a tag, where it is completed and not owned. It stands apart, so that its act costs nothing at a
/// free tag.
#[inline(never)]
#[tactic(auto, using(crate::proofs::WalkLemmas::later_without, crate::proofs::WalkLemmas::later_beside))]
fn answer_at(ledger: &mut Ledger, tag: Tag)
    requires room { 1 ≤ ledger.old.room }
    ensures tells { TellsAt answer_of completions_in tag ledger.old ledger.new }
    ensures left { (test : InFlight → Bool) (kinds : ErrMask) → condemnations test kinds (slots_in ledger.new) (completions_in ledger.new)
        ≡ condemnations test kinds (slots_in ledger.old) (completions_in ledger.old) }
{
    let flight = match ledger.flight(tag) {
        Some(flight) => flight,
        None => return,
    };
    if flight.owned {
        return;
    }
    let act = match ledger.completion(tag) {
        Some(it) => Act::AnsweredOk {
            id: flight.id,
            number: flight.number,
            status: it.regs.status,
            error: it.regs.error,
            lba: it.regs.lba,
            count: it.regs.count,
            stamps: it.stamps.copy(),
        },
        None => return,
    };
    ledger.note(act);
}

/// Condemns with these kinds the issues that are neither owned nor completed, in tag order: all, or those at a place that
/// has a failed issue.
#[tactic(auto, using(crate::proofs::WalkLemmas::walk_begins))]
pub fn condemn_all(
    ledger: &mut Ledger,
    all: bool,
    failing: &[Option<FailedIssue>; MOST_PLACES],
    kinds: Kinds,
)
    requires room { 32 ≤ ledger.old.room }
    ensures adds { Adds ledger.old ledger.new (condemnations (is_struck all failing.now) kinds (slots_in ledger.old) (completions_in ledger.old)) }
    ensures spare { ledger.old.room ≤ ledger.new.room + 32 }
{
    for tag in 0..TAG_COUNT as u8 {
        condemn_at(ledger, Tag::at(tag), all, failing, kinds);
    }
}

/// Condemns the issue under a tag, where it is neither owned nor completed, and struck.
#[tactic(auto, using(crate::proofs::WalkLemmas::later_condemned))]
fn condemn_at(
    ledger: &mut Ledger,
    tag: Tag,
    all: bool,
    failing: &[Option<FailedIssue>; MOST_PLACES],
    kinds: Kinds,
)
    requires room { 1 ≤ ledger.old.room }
    ensures { TellsAt (condemnation_of (is_struck all failing.now) kinds) completions_in tag ledger.old ledger.new }
{
    let flight = match ledger.flight(tag) {
        Some(flight) => flight,
        None => return,
    };
    if ledger.completion(tag).is_some() || flight.owned || !is_struck(all, failing, flight) {
        return;
    }
    let number = flight.number;
    ledger.note(Act::Condemned { number, kinds });
}

/// Whether an issue is struck: all are, or its place has a failed issue.
fn is_struck(all: bool, failing: &[Option<FailedIssue>; MOST_PLACES], flight: &InFlight) -> bool
    ensures { result ≡ is_struck all failing.now flight.now }
{
    all || failing[flight.place.get() as usize].is_some()
}
