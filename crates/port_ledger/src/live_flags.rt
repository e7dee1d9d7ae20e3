ghost use Rattle.std.specs.Prelude.{◌≡◌, ◌≢◌, ◌≤◌, ◌==◌, ◌&&◌, ℕ, [], IfOk, length, filter};
ghost use Rattle.std.specs.List.{list_any};
ghost use Rattle.std.specs.Vec.{vec_capacity};
ghost use Rattle.port_ledger.specs.LiveFlags.{ids_of, is_flagged, live_of};

use crate::command_table::CommandTable;
use crate::numbered::{NUMBERS, reach};
use ata_base::{Cmd, CmdId, OutOfMemory};
use std::alloc::Global;
use std::marker::Model;

/// A flag for each number of a command: whether the command is live. A contract sees them as a list; a number past its
/// end isn't flagged. Memory is taken once, in `new`.
#[derive(Drop)]
pub struct LiveFlags {
    flags: Vec<bool>,
}

impl Model for LiveFlags {
    ghost use Rattle.std.specs.Prelude.{◌≤◌, Bool, List};
    ghost use Rattle.std.specs.Vec.{vec_capacity};

    ghost Value = { List Bool };

    ghost view = { λ l. l.flags.items };

    ghost invariant = { λ l. 65536 ≤ vec_capacity l.flags };
}

impl LiveFlags {
    /// No command is live.
    pub fn new(alloc: Global) -> Result<LiveFlags, OutOfMemory>
        ensures { IfOk result (λ l. l ≡ []) }
    {
        Ok(LiveFlags {
            flags: Vec::with_capacity(alloc, NUMBERS)?,
        })
    }

    /// Whether the command of a number is live, if it was accepted.
    fn is_flagged(&self, id: CmdId) -> bool
        ensures { result ≡ is_flagged self.now id }
    {
        flag_of(&self.flags, id)
    }

    /// Whether the command of a number is among these and live.
    pub fn is_live(&self, id: CmdId, commands: &CommandTable) -> bool
        ensures { result ≡ list_any (λ c. c == id) (live_of self.now (ids_of commands.now.list)) }
    {
        both(self.is_flagged(id), commands.is_accepted(id))
    }

    /// How many of these commands are live.
    #[tactic(auto, using(crate::proofs::LiveLemmas::live_count))]
    pub fn count(&self, list: &[Cmd]) -> usize
        ensures value { result ≡ length (live_of self.now (ids_of list.now)) }
        ensures most { result ≤ length list.now }
    {
        count_live(&self.flags, list)
    }

    /// Whether the command of a number is live from now on.
    pub fn set(&mut self, id: CmdId, live: bool)
        ensures here { is_flagged self.new id ≡ live }
        ensures others { (k : ℕ) → k ≢ id → is_flagged self.new k ≡ is_flagged self.old k }
    {
        set_flag(&mut self.flags, id, live);
    }
}

fn both(a: bool, b: bool) -> bool
    ensures { result ≡ (a && b) }
{
    a && b
}

/// The flag of this number.
fn flag_of(flags: &[bool], id: CmdId) -> bool
    ensures { result ≡ is_flagged flags.now id }
{
    match flags.get(id.get() as usize) {
        Some(live) => *live,
        None => false,
    }
}

/// How many of these commands are flagged as live.
fn count_live(flags: &[bool], list: &[Cmd]) -> usize
    ensures value { result ≡ length (filter (λ c. is_flagged flags.now c.id) list.now) }
    ensures most { result ≤ length list.now }
{
    list.iter().filter(|c| flag_of(flags, c.id)).count()
}

/// The flag of this number is set, in a table with memory for all numbers.
#[tactic(auto, using(crate::proofs::LiveLemmas::flag_here, crate::proofs::LiveLemmas::flag_other))]
fn set_flag(flags: &mut Vec<bool>, id: CmdId, live: bool)
    requires { 65536 ≤ vec_capacity flags.old }
    ensures here { is_flagged flags.new.items id ≡ live }
    ensures others { (k : ℕ) → k ≢ id → is_flagged flags.new.items k ≡ is_flagged flags.old.items k }
    ensures capacity { vec_capacity flags.new ≡ vec_capacity flags.old }
{
    reach(flags, id.get() as usize, false);
    flags[id.get() as usize] = live;
}
