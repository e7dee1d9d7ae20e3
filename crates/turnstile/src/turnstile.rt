ghost use Rattle.std.specs.Prelude.{◌≡◌, ℕ, ◌+◌, ◌-◌, ◌^◌, ◌≤◌, ◌<◌, List, [], ◌∷◌, ◌++◌, map, length, IfOk, IfErr, IfSome, IsSome, IsSomeAnd, MatchBool, MatchResult, Some, None};
ghost use mathlib.Core.List.{IsPrefix};
ghost use Rattle.turnstile.specs.Places.{AreApart, EndsWith, Rises, entry_at, merged, longer};
ghost use Rattle.turnstile.specs.Steps.{IsIdle, IsWaiting, Admitted, Left};

use crate::entry::Entry;
use crate::kept::Kept;
use crate::machine::Machine;
use crate::out_of_memory::OutOfMemory;
use crate::pass::Pass;
use crate::seat_view::SeatView;
use crate::steps::{Both, Cut, Draw, Law, Learn, Look, Mark, Serve};
use atomic_table::{Refused, Seat, Table};
use std::alloc::Global;
use std::array;
use std::hint::spin_loop;
use std::snapshot::Snapshot;
use std::sync::Wait;
use std::sync::atomic::{AtomicU64, Ordering};

// How often a caller looks at the turn before it sleeps.
const LOOKS: u32 = 64;

// The two words of the table.
const TURN: usize = 0;

const TICKETS: usize = 1;

// Its slot.
const MACHINE: usize = 0;

// Tickets that differ by less than this have different bells.
const BELLS: usize = 32;

/// A machine that callers enter one after the other, in the order in which they drew their tickets.
#[derive(Drop)]
pub struct Turnstile<M: Machine> {
    // A sleeper waits for the bell of its ticket.
    bells: [AtomicU64; BELLS],
    table: Table<Option<M>, SeatView<Entry<M::Move>, M>, Snapshot<M>, Law<M>, Global>,
    ghost sized: { (table.shared.table_id.words ≡ 2) × (table.shared.table_id.slots ≡ 1) },
}

// The bell of a ticket.
fn bell_of(ticket: u64) -> usize
    ensures { result < 32 }
{
    (ticket % BELLS as u64) as usize
}

// Makes the entry at the machine in the slot, where there is memory for it.
fn attempt<M: Machine>(
    slot: &mut Option<M>,
    actor: u8,
    seq: u64,
    step: &M::Move,
) -> Result<(), OutOfMemory>
    requires there { IsSome slot.old }
    requires actor { actor ≤ 31 }
    ensures stepped { IfSome slot.old (λ x. IsSomeAnd slot.new (λ z. (M.fixed z ≡ M.fixed x) × MatchResult result (λ _. M.history z ≡ M.history x ++ record { actor = actor; seq = seq; step = step.now } ∷ []) (λ _. M.history z ≡ M.history x))) }
{
    let Some(machine) = slot else { unreachable!() };
    machine.reserve()?;
    machine.step(actor, seq, step);
    Ok(())
}

impl<M: Machine> Turnstile<M> {
    ghost use Rattle.turnstile.specs.Passes.{at, place, opening, seen, own, share, entry_of};

    /// A turnstile round the machine, and its first pass, which has every share. Refused where there is no memory; the
    /// machine is dropped then.
    pub fn new(alloc: Global, machine: M) -> Result<(Turnstile<M>, Pass<M>), OutOfMemory>
        ensures made { IfOk result (λ r. at r.1 ≡ place r.0) }
        ensures opening { IfOk result (λ r. opening r.0 ≡ machine) }
        ensures seen { IfOk result (λ r. seen r.1 ≡ []) }
        ensures own { IfOk result (λ r. own r.1 ≡ []) }
        ensures share { IfOk result (λ r. share r.1 ≡ 2 ^ 32) }
    {
        let opening = Snapshot::of(&machine);
        let Ok(mut slots) = Vec::with_capacity(alloc, 1) else {
            return Err(OutOfMemory);
        };
        slots.push_reserved(Some(machine));
        match Table::new(alloc, &[0, 0], slots, &opening) {
            Ok((table, seat)) => {
                let bells = array::from_fn(|_| AtomicU64::new(0));
                Ok((Turnstile { bells, table }, Pass { seat }))
            }
            Err(Refused { slots: _ }) => Err(OutOfMemory),
        }
    }

    // Looks at the turn a few times, and says whether the ticket has it.
    fn spin(&self, seat: &mut Seat<Option<M>, SeatView<Entry<M::Move>, M>>, ticket: u64) -> bool
        requires made { seat.old.table_id ≡ self.now.table.shared.table_id }
        requires waiting { IsWaiting seat.old.me ticket }
        ensures made { seat.new.table_id ≡ seat.old.table_id }
        ensures turn { MatchBool result (Admitted seat.old.me.0 seat.new.me) (seat.new.me ≡ seat.old.me) }
    {
        for _ in 0..LOOKS {
            if self.table.shared.load::<Look>(seat, TURN) == ticket {
                return true;
            }
            spin_loop();
        }
        false
    }

    // Draws a ticket and waits for its turn: awake for a short time, then asleep until its bell rings.
    fn wait<R: Wait>(&self, rt: &R, seat: &mut Seat<Option<M>, SeatView<Entry<M::Move>, M>>)
        requires made { seat.old.table_id ≡ self.now.table.shared.table_id }
        requires idle { IsIdle seat.old.me × (1 ≤ seat.old.me.0.share) }
        ensures { (seat.new.table_id ≡ seat.old.table_id) × Admitted seat.old.me.0 seat.new.me }
    {
        let shared = &self.table.shared;
        let ticket = shared.fetch_add::<Draw>(seat, TICKETS, 1);
        if self.spin(seat, ticket) {
            return;
        }
        let bell = &self.bells[bell_of(ticket)];
        for _ in rt.forever() {
            let rung = bell.load(Ordering::SeqCst);
            if shared.load::<Look>(seat, TURN) == ticket {
                return;
            }
            bell.park(rt, (rung & 0xffff_ffff) as u32);
        }
        unreachable!()
    }

    // Rings the bell of this turn, where somebody has drawn its ticket.
    fn call(&self, turn: u64) {
        if self.table.shared.peek(TICKETS) != turn {
            let bell = &self.bells[bell_of(turn)];
            bell.fetch_add(1, Ordering::SeqCst);
            bell.wake_all();
        }
    }

    // Waits for the turn, makes the step at the machine where it lies, and serves the next ticket.
    fn take_turn<R: Wait>(
        &self,
        rt: &R,
        seat: &mut Seat<Option<M>, SeatView<Entry<M::Move>, M>>,
        actor: u8,
        seq: u64,
        step: &M::Move,
    ) -> Result<(), OutOfMemory>
        requires actor { actor ≤ 31 }
        requires made { seat.old.table_id ≡ self.now.table.shared.table_id }
        requires idle { IsIdle seat.old.me × (1 ≤ seat.old.me.0.share) }
        ensures made { seat.new.table_id ≡ seat.old.table_id }
        ensures in_order { Rises 0 seat.new.me.0.own }
        ensures left { MatchResult result (λ _. Left seat.old.me.0 (Some (entry_of actor seq step.now)) seat.new.me) (λ _. Left seat.old.me.0 None seat.new.me) }
    {
        self.wait(rt, seat);
        let shared = &self.table.shared;
        let made = attempt(seat.slot_mut(shared, MACHINE), actor, seq, step);
        shared.load::<Mark<M>>(seat, TURN);
        let served = shared.fetch_add::<Serve>(seat, TURN, 1);
        self.call(served.wrapping_add(1));
        made
    }

    /// Waits for a turn, and makes this step of an actor, under this number, at the machine. Kept where there was no
    /// memory for it in the turn. Who has a turn when isn't said.
    pub fn enter<R: Wait>(
        &self,
        rt: &R,
        pass: Pass<M>,
        actor: u8,
        seq: u64,
        step: &M::Move,
    ) -> Result<Pass<M>, Kept<M>>
        requires actor { actor ≤ 31 }
        requires made { at pass ≡ place self.now }
        ensures made { MatchResult result (λ q. at q ≡ at pass) (λ k. at k.pass ≡ at pass) }
        ensures share { MatchResult result (λ q. share q ≡ share pass) (λ k. share k.pass ≡ share pass) }
        ensures seen { MatchResult result (λ q. IsPrefix (seen pass) (seen q)) (λ k. IsPrefix (seen pass) (seen k.pass)) }
        ensures last { IfOk result (λ q. EndsWith (seen q) (entry_of actor seq step.now)) }
        ensures own { IfOk result (λ q. own q ≡ own pass ++ (length (seen q) - 1, entry_of actor seq step.now) ∷ []) }
        ensures kept { IfErr result (λ k. own k.pass ≡ own pass) }
    {
        let Pass { mut seat } = pass;
        match self.take_turn(rt, &mut seat, actor, seq, step) {
            Ok(()) => Ok(Pass { seat }),
            Err(OutOfMemory) => Err(Kept {
                pass: Pass { seat },
            }),
        }
    }

    /// Gives one share of the pass to a new one. Waits for nobody.
    pub fn split(&self, pass: Pass<M>) -> (Pass<M>, Pass<M>)
        requires made { at pass ≡ place self.now }
        requires share { 2 ≤ (share pass) }
        ensures made { (at result.0 ≡ at pass) × (at result.1 ≡ at pass) }
        ensures seen { (seen result.0 ≡ seen pass) × (seen result.1 ≡ seen pass) }
        ensures own { (own result.0 ≡ own pass) × (own result.1 ≡ []) }
        ensures share { (share result.0 ≡ share pass - 1) × (share result.1 ≡ 1) }
    {
        let Pass { mut seat } = pass;
        let other = self.table.shared.split_seat::<Cut>(&mut seat);
        (Pass { seat }, Pass { seat: other })
    }

    /// Makes one pass of two. Waits for nobody.
    pub fn join(&self, a: Pass<M>, b: Pass<M>) -> Pass<M>
        requires made { (at a ≡ place self.now) × (at b ≡ place self.now) }
        ensures made { at result ≡ at a }
        ensures seen { seen result ≡ longer (seen a) (seen b) }
        ensures begun { IsPrefix (seen a) (seen result) × IsPrefix (seen b) (seen result) }
        ensures own { own result ≡ merged (own a) (own b) }
        ensures apart { AreApart (own a) (own b) }
        ensures share { share result ≡ share a + share b }
    {
        let Pass { mut seat } = a;
        let Pass { seat: other } = b;
        let shared = &self.table.shared;
        shared.join_seat::<Both>(&mut seat, other);
        shared.load::<Learn>(&mut seat, TURN);
        Pass { seat }
    }

    /// Ends the turnstile, and gives the machine back. The pass has every share, so it is the only one.
    pub fn close(self, pass: Pass<M>) -> M
        requires made { at pass ≡ place self }
        requires only { share pass ≡ 2 ^ 32 }
        ensures history { M.history result ≡ M.history (opening self) ++ map entry_at (own pass) }
        ensures fixed { M.fixed result ≡ M.fixed (opening self) }
    {
        let Turnstile { bells: _, table } = self;
        let Pass { seat } = pass;
        let mut closed = table.close_with(seat);
        let machine = closed.take(MACHINE).unwrap();
        closed.free();
        machine
    }
}
