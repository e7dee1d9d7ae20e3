ghost use Rattle.std.specs.Prelude.{◌≡◌, ◌+◌, ◌<◌, ◌≤◌, ◌↔◌, ◌++◌, ◌||◌, ◌&&◌, not, ℕ, Bool, IsTrue, IsBitSet};
ghost use Rattle.std.specs.List.{list_any};
ghost use Rattle.ata_trace.specs.declared.act.Act.TheVariants.{Drained};
ghost use Rattle.host_tags.specs.Slots.{flight_at, is_unowned};
ghost use Rattle.host_timer.specs.Due.{has_due, is_due};
ghost use Rattle.port_ledger.specs.LedgerView.{past};
ghost use Rattle.port_past.specs.Clock.{clock};
ghost use Rattle.port_past.specs.Drain.{is_drained};
ghost use Rattle.port_past.specs.PortState.{is_asked};
ghost use Rattle.port_past.specs.Slots.{slots};
ghost use Rattle.port_rules.specs.Time.{expire_acts, expiries, expiry, has_drain_come, waits_for_drain, with_request};
ghost use Rattle.port_rules.specs.Told.{told_if};
ghost use Rattle.port_telling.specs.Adds.{Adds};
ghost use Rattle.port_telling.specs.Walks.{TellsAt, alone, completions_in, slots_in};

use ata_base::{Ms, TAG_COUNT, Tag};
use ata_trace::Act;
use host_tags::{InFlight, Slots};
use host_timer::{drain_now, due};
use port_ledger::Ledger;
use port_telling::{drain_if, is_more, nothing, request_if};

/// The timer tells of the issues that are due, and whether the port gives up waiting.
#[tactic(auto, using(port_telling::proofs::AddLemmas::or_nothing_some, port_telling::proofs::AddLemmas::or_nothing_none))]
pub fn expire(ledger: &mut Ledger)
    requires room { 35 ≤ ledger.old.room }
    ensures { Adds ledger.old ledger.new (expire_acts ledger.old.head (past ledger.old)) }
{
    let room = ledger.room();
    tell_time(ledger);
    if ledger.room() == room {
        nothing(ledger);
    }
}

/// What the timer tells, where it tells anything.
fn tell_time(ledger: &mut Ledger)
    requires room { 34 ≤ ledger.old.room }
    ensures { Adds ledger.old ledger.new
        (told_if (has_drain_come ledger.old.head (past ledger.old)) Drained
        ++ with_request (is_asked (past ledger.old)) (expiries (clock (past ledger.old)) (has_drain_come ledger.old.head (past ledger.old) || is_drained (past ledger.old)) (slots (past ledger.old)))) }
{
    let clock = ledger.clock();
    let asked = ledger.is_asked();
    let comes = has_drain_come(ledger);
    let drained = is_drained(ledger, comes);
    drain_if(ledger, comes);
    let room = ledger.room();
    expire_all(ledger, clock, drained);
    let some = ledger.room() < room;
    request_if(ledger, is_more(some, asked));
}

/// Whether the port gives up waiting now.
fn has_drain_come(ledger: &Ledger) -> bool
    ensures { result ≡ has_drain_come ledger.now.head (past ledger.now) }
{
    let quiet = Ms {
        n: ledger.quiet_since(),
    };
    waits_for_drain(ledger) && drain_now(quiet, ledger.clock())
}

/// Whether the port waits and may give up.
pub fn waits_for_drain(ledger: &Ledger) -> bool
    ensures { result ≡ waits_for_drain ledger.now.head (past ledger.now) }
{
    ledger.head().drain
        && ledger.is_asked()
        && has_unowned(ledger.slots())
        && !ledger.drained_since()
}

/// Whether an issue in flight isn't owned.
fn has_unowned(slots: &Slots) -> bool
    ensures { result ≡ list_any is_unowned slots.now }
{
    slots.flights().iter().any(|slot| is_unowned(slot))
}

/// Whether the issue in a slot isn't owned by recovery.
fn is_unowned(slot: &Option<InFlight>) -> bool
    ensures { result ≡ is_unowned slot.now }
{
    match slot {
        Some(flight) => !flight.owned,
        None => false,
    }
}

/// Whether the port gave up waiting, or does now.
fn is_drained(ledger: &Ledger, comes: bool) -> bool
    ensures { result ≡ (comes || is_drained (past ledger.now)) }
{
    comes || ledger.is_drained()
}

/// The timer tells once of each issue that is due, in tag order; none is where no tag is busy.
fn expire_all(ledger: &mut Ledger, clock: Ms, drained: bool)
    requires room { 32 ≤ ledger.old.room }
    ensures adds { Adds ledger.old ledger.new (expiries clock.n drained (slots_in ledger.old)) }
    ensures spare { ledger.old.room ≤ ledger.new.room + 32 }
{
    if ledger.slots().busy() != 0 {
        expire_busy(ledger, clock, drained);
    }
}

/// The timer tells once of each issue that is due; none is where no tag is due.
fn expire_busy(ledger: &mut Ledger, clock: Ms, drained: bool)
    requires room { 32 ≤ ledger.old.room }
    ensures adds { Adds ledger.old ledger.new (expiries clock.n drained (slots_in ledger.old)) }
    ensures spare { ledger.old.room ≤ ledger.new.room + 32 }
{
    let tags = due(ledger.slots(), clock, drained);
    if tags != 0 {
        expire_due(ledger, clock, drained, tags);
    }
}

/// The timer walks over all tags, of which these are due.
#[tactic(auto, using(port_telling::proofs::WalkLemmas::walk_begins))]
fn expire_due(ledger: &mut Ledger, clock: Ms, drained: bool, tags: u32)
    requires room { 32 ≤ ledger.old.room }
    requires due { (tag : ℕ) → IsBitSet tags tag ↔ IsTrue (is_due clock.n drained (slots_in ledger.old) tag) }
    ensures adds { Adds ledger.old ledger.new (expiries clock.n drained (slots_in ledger.old)) }
    ensures spare { ledger.old.room ≤ ledger.new.room + 32 }
{
    for tag in 0..TAG_COUNT as u8 {
        expire_at(ledger, Tag::at(tag), is_in(tags, tag));
    }
}

/// Whether a tag is in a mask.
fn is_in(mask: u32, tag: u8) -> bool
    requires { tag < 32 }
    ensures { IsTrue result ↔ IsBitSet mask tag }
{
    mask >> tag & 1 == 1
}

/// The timer tells of the issue under a tag, where it is due and wasn't told of.
#[tactic(auto, using(port_telling::proofs::WalkLemmas::later_expired))]
fn expire_at(ledger: &mut Ledger, tag: Tag, is_due: bool)
    requires room { 1 ≤ ledger.old.room }
    ensures { (time : ℕ) (drained : Bool) → is_due ≡ has_due time drained (flight_at (slots_in ledger.old) tag)
        → TellsAt (alone (expiry time drained)) completions_in tag ledger.old ledger.new }
{
    let flight = match ledger.flight(tag) {
        Some(flight) => flight,
        None => return,
    };
    if !is_due || flight.expired {
        return;
    }
    let (id, number) = (flight.id, flight.number);
    ledger.note(Act::Expired { id, number });
}
