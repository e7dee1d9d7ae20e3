ghost use Rattle.std.specs.Prelude.{◌≡◌, ℕ, ◌+◌, ◌<◌, ◌≤◌, ◌∷◌, ◌++◌, [], length, IfOk, IfSome, OnOk};
ghost use Rattle.ata_base.specs.Limits.{most_places};
ghost use Rattle.host_queue.specs.Waiting.{joined, without_front, front_of, no_lists};
ghost use Rattle.port_past.specs.Queues.{with_retried};
ghost use Rattle.port_ledger.specs.Commands.{CanServe};
ghost use Rattle.port_ledger.specs.QueueParts.{AllServe, EachServes, HasRoom};
ghost use Rattle.std.specs.Vec.{vec_capacity};

use ata_base::{Cmd, MOST_PLACES, OutOfMemory, Place};
use host_queue::Queues;
use std::alloc::Global;
use std::marker::Model;

/// For how many more than are asked for room is made, so that it is made seldom.
pub const MORE: usize = 128;

/// The commands that wait at each place of a port, and those that this recovery retried so far, with room at every place
/// for all of these and as many more.
#[derive(Drop)]
pub struct CommandQueues {
    queues: Queues,
    retried: Vec<Cmd>,
    room: usize,
}

impl Model for CommandQueues {
    ghost use Rattle.std.specs.Prelude.{◌≤◌, ◌+◌, length};
    ghost use Rattle.std.specs.Vec.{vec_len, vec_capacity};
    ghost use Rattle.port_ledger.specs.QueueParts.{AllServe, CommandQueuesView, HasRoom, EachServes};

    ghost Value = { CommandQueuesView };

    ghost view = { λ q. record { lists = q.queues.lists; retried = q.retried.items; room = q.room } };

    ghost invariant = { λ q.
        HasRoom (q.room + length q.retried.items) q.queues.spares
        × EachServes q.queues.lists
        × AllServe q.retried.items
        × (vec_len q.retried + q.room ≤ vec_capacity q.retried) };
}

impl CommandQueues {
    /// Nothing waits, and nothing was retried.
    pub fn new(alloc: Global) -> Result<CommandQueues, OutOfMemory>
        ensures lists { IfOk result (λ q. q.lists ≡ no_lists most_places) }
        ensures retried { IfOk result (λ q. q.retried ≡ []) }
    {
        Ok(CommandQueues {
            queues: Queues::new(alloc, MOST_PLACES as u8)?,
            retried: Vec::new(alloc),
            room: 0,
        })
    }

    /// Makes room for `more` commands at every place. What waits stays, also where memory is wanted.
    pub fn reserve(&mut self, more: usize) -> Result<(), OutOfMemory>
        requires { more ≤ 256 }
        ensures lists { self.new.lists ≡ self.old.lists }
        ensures retried { self.new.retried ≡ self.old.retried }
        ensures room { OnOk result (more ≤ self.new.room) }
        ensures kept { self.old.room ≤ self.new.room }
    {
        if more <= self.room {
            return Ok(());
        }
        let room = more + MORE;
        self.retried.reserve(room)?;
        let spare = self.retried.len().saturating_add(room);
        reserve_each(&mut self.queues, spare)?;
        self.room = room;
        Ok(())
    }

    /// The command at the front of a place's queue, None exactly where none waits there.
    #[tactic(auto, using(crate::proofs::QueueLemmas::EachServes_front))]
    pub fn front(&self, place: Place) -> Option<Cmd>
        ensures value { result ≡ front_of self.now.lists place }
        ensures served { IfSome result CanServe }
    {
        self.queues.front(place)
    }

    /// A command joins the end of its place's queue.
    #[tactic(auto, using(crate::proofs::QueueLemmas::HasRoom_joined, crate::proofs::QueueLemmas::EachServes_joined))]
    pub fn join(&mut self, cmd: Cmd)
        requires room { 0 < self.old.room }
        requires served { CanServe cmd }
        ensures lists { self.new.lists ≡ joined cmd self.old.lists }
        ensures retried { self.new.retried ≡ self.old.retried }
        ensures room { self.new.room + 1 ≡ self.old.room }
    {
        self.queues.push(cmd);
        self.room -= 1;
    }

    /// The front of a place's queue leaves.
    #[tactic(auto, using(crate::proofs::QueueLemmas::HasRoom_more, crate::proofs::QueueLemmas::EachServes_served))]
    pub fn serve(&mut self, place: Place)
        ensures lists { self.new.lists ≡ without_front place self.old.lists }
        ensures retried { self.new.retried ≡ self.old.retried }
        ensures room { self.new.room ≡ self.old.room }
    {
        let _ = self.queues.pop(place);
    }

    /// A command is retried: it goes back to its queue with `give_back`.
    #[tactic(auto, using(crate::proofs::QueueLemmas::HasRoom_retried, crate::proofs::QueueLemmas::push_serves))]
    pub fn retry(&mut self, cmd: Cmd)
        requires room { 0 < self.old.room }
        requires served { CanServe cmd }
        ensures lists { self.new.lists ≡ self.old.lists }
        ensures retried { self.new.retried ≡ self.old.retried ++ cmd ∷ [] }
        ensures room { self.new.room + 1 ≡ self.old.room }
    {
        self.retried.push_reserved(cmd);
        self.room -= 1;
    }

    /// The retried commands go to the front of their queues, the first of them foremost.
    pub fn give_back(&mut self)
        ensures lists { self.new.lists ≡ with_retried self.old.retried self.old.lists }
        ensures retried { self.new.retried ≡ [] }
        ensures room { self.new.room ≡ self.old.room }
    {
        give_back(&mut self.queues, &mut self.retried, self.room);
    }
}

/// These commands go to the front of their queues, the first of them foremost; room for so many more is left.
fn give_back(queues: &mut Queues, retried: &mut Vec<Cmd>, room: usize)
    requires room { HasRoom (room + length retried.old.items) queues.old.spares }
    requires waiting { EachServes queues.old.lists }
    requires served { AllServe retried.old.items }
    ensures lists { queues.new.lists ≡ with_retried retried.old.items queues.old.lists }
    ensures retried { retried.new.items ≡ [] }
    ensures room { HasRoom room queues.new.spares }
    ensures waiting { EachServes queues.new.lists }
    ensures capacity { vec_capacity retried.new ≡ vec_capacity retried.old }
{
    for at in 0..retried.len() {
        let _ = at;
        give_last(queues, retried, room);
    }
}

/// The last of these commands goes to the front of its queue.
#[tactic(auto, using(crate::proofs::QueueLemmas::retried_last, crate::proofs::QueueLemmas::last_serves, crate::proofs::QueueLemmas::rest_serve, crate::proofs::QueueLemmas::HasRoom_first, crate::proofs::QueueLemmas::EachServes_first))]
fn give_last(queues: &mut Queues, retried: &mut Vec<Cmd>, room: usize)
    requires some { 0 < length retried.old.items }
    requires room { HasRoom (room + length retried.old.items) queues.old.spares }
    requires waiting { EachServes queues.old.lists }
    requires served { AllServe retried.old.items }
    ensures lists { with_retried retried.new.items queues.new.lists ≡ with_retried retried.old.items queues.old.lists }
    ensures shorter { length retried.new.items + 1 ≡ length retried.old.items }
    ensures room { HasRoom (room + length retried.new.items) queues.new.spares }
    ensures waiting { EachServes queues.new.lists }
    ensures served { AllServe retried.new.items }
    ensures capacity { vec_capacity retried.new ≡ vec_capacity retried.old }
{
    if let Some(cmd) = retried.pop() {
        queues.push_front(cmd);
    }
}

/// Makes room for so many commands at every place.
fn reserve_each(queues: &mut Queues, room: usize) -> Result<(), OutOfMemory>
    requires places { length queues.old.lists ≡ most_places }
    requires spares { length queues.old.spares ≡ most_places }
    ensures lists { queues.new.lists ≡ queues.old.lists }
    ensures room { OnOk result (HasRoom room queues.new.spares) }
    ensures kept { (less : ℕ) → HasRoom less queues.old.spares → HasRoom less queues.new.spares }
{
    for n in 0..MOST_PLACES as u8 {
        queues.reserve(Place::at(n), room)?;
    }
    Ok(())
}
