ghost use Rattle.std.specs.Prelude.{◌≡◌, ℕ, ◌+◌, ◌^◌, ◌<◌, ◌≤◌, [], ◌∷◌, ◌++◌, length, map, All, MatchResult, IfOk, IsSome, Some, None, slice_set, slice_index_or};
ghost use Rattle.port_threads.specs.Stiles.{AllClosed, AreInOrder};
ghost use Rattle.port_threads.specs.Held.{Grew, held_at, lessened, single, joined_all, at_of, AllRise};

use crate::desk::Desk;
use arrayvec::ArrayVec;
use ata_base::OutOfMemory;
use ata_trace::Step;
use port_core::Host;
use std::alloc::Global;
use std::marker::Model;
use std::sync::Wait;
use turnstile::{Kept, Pass, Turnstile};

/// At most 8 passes, one for each port in the order of their numbers. A contract sees what each of them has.
#[derive(Drop)]
pub struct Passes {
    items: ArrayVec<Option<Pass<Desk>>, 8>,
}

impl Model for Passes {
    ghost use Rattle.std.specs.Prelude.{List, map};
    ghost use Rattle.port_threads.specs.Held.{Held};

    ghost Value = { List Held };

    ghost use Rattle.port_threads.specs.PassesHeld.{held, IsRow};

    ghost view = { λ p. map held p.items.items };

    ghost invariant = { λ p. IsRow p.items.items };
}

impl Passes {
    ghost use Rattle.turnstile.specs.Passes.{place, at, entry_of};
    ghost use Rattle.port_threads.specs.PassesHeld.{of_pass};

    /// No passes. It takes no memory.
    pub fn new() -> Passes
        ensures { result ≡ [] }
    {
        Passes {
            items: ArrayVec::new(),
        }
    }

    /// How many passes there are, 0 to 8.
    pub fn len(&self) -> usize
        ensures { result ≡ length self.now }
    {
        self.items.len()
    }

    /// Appends the pass of the next port. There have to be fewer than 8.
    pub fn push(&mut self, pass: Pass<Desk>)
        requires { length self.old < 8 }
        ensures { self.new ≡ self.old ++ of_pass pass ∷ [] }
    {
        self.items.push(Some(pass));
    }

    /// Waits for a turn at the port, and makes this step of an actor there, 0 to 31, under this number. Refused where there
    /// was no memory in the turn; no entry was made then.
    pub fn enter_at<R: Wait>(
        &mut self,
        rt: &R,
        desk: &Turnstile<Desk>,
        port: usize,
        actor: u8,
        seq: u64,
        step: &Step,
    ) -> Result<(), OutOfMemory>
        requires port { port < length self.old }
        requires actor { actor ≤ 31 }
        requires made { (held_at self.old port).at ≡ place desk.now }
        ensures others { self.new ≡ slice_set self.old port (held_at self.new port) }
        ensures grew { MatchResult result (λ _. Grew (held_at self.old port) (entry_of actor seq step.now ∷ []) (held_at self.new port)) (λ _. Grew (held_at self.old port) [] (held_at self.new port)) }
    {
        let pass = lend(&mut self.items, port);
        match desk.enter(rt, pass, actor, seq, step) {
            Ok(pass) => {
                put_back(&mut self.items, port, pass);
                Ok(())
            }
            Err(Kept { pass }) => {
                put_back(&mut self.items, port, pass);
                Err(OutOfMemory)
            }
        }
    }

    /// Gives one share of each pass to a new one. Waits for nobody.
    pub fn split(self, desks: &[Turnstile<Desk>]) -> (Passes, Passes)
        requires made { map at_of self ≡ map place desks.now }
        requires shares { All (λ h. 2 ≤ h.share) self }
        ensures rest { result.0 ≡ map lessened self }
        ensures given { result.1 ≡ map single self }
    {
        let Passes { mut items } = self;
        let mut given = ArrayVec::new();
        for port in 0..desks.len() {
            let (rest, new) = desks[port].split(lend(&mut items, port));
            put_back(&mut items, port, rest);
            given.push(Some(new));
        }
        (Passes { items }, Passes { items: given })
    }

    /// Makes one pass of two at each port. Waits for nobody.
    pub fn join(self, desks: &[Turnstile<Desk>], other: Passes) -> Passes
        requires made { map at_of self ≡ map place desks.now }
        requires other { map at_of other ≡ map place desks.now }
        ensures joined { result ≡ joined_all self other }
        ensures in_order { AllRise self × AllRise other }
    {
        let Passes { items: mut mine } = self;
        let Passes { items: mut theirs } = other;
        for port in 0..desks.len() {
            let both = desks[port].join(lend(&mut mine, port), lend(&mut theirs, port));
            put_back(&mut mine, port, both);
        }
        Passes { items: mine }
    }

    /// Ends the turnstiles, and gives the ports back in their order. Refused where there is no memory.
    pub fn close(self, alloc: Global, desks: Vec<Turnstile<Desk>>) -> Result<Host, OutOfMemory>
        requires made { map at_of self ≡ map place desks.items }
        requires only { All (λ h. h.share ≡ 2 ^ 32) self }
        requires numbers { AreInOrder desks.items }
        ensures { IfOk result (λ host. AllClosed desks.items self host) }
    {
        let Passes { mut items } = self;
        let mut host = Host::new(alloc);
        let mut place = 0;
        for desk in desks {
            let port = desk.close(lend(&mut items, place)).into_port();
            host.push(port)?;
            place += 1;
        }
        Ok(host)
    }
}

// Takes the pass of a port out.
fn lend(items: &mut ArrayVec<Option<Pass<Desk>>, 8>, port: usize) -> Pass<Desk>
    requires port { port < length items.old.items }
    requires there { IsSome (slice_index_or items.old.items port None) }
    ensures pass { slice_index_or items.old.items port None ≡ Some result }
    ensures rest { items.new.items ≡ slice_set items.old.items port None }
{
    items[port].take().unwrap()
}

// Puts the pass of a port back.
fn put_back(items: &mut ArrayVec<Option<Pass<Desk>>, 8>, port: usize, pass: Pass<Desk>)
    requires port { port < length items.old.items }
    ensures { items.new.items ≡ slice_set items.old.items port (Some pass) }
{
    items[port] = Some(pass);
}
