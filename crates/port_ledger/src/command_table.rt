ghost use Rattle.std.specs.Prelude.{◌≡◌, ◌+◌, ◌<◌, ◌≤◌, ◌==◌, ◌^◌, ◌++◌, ◌∷◌, [], false, map, slice_index, length, IfOk, OnOk, IfSome, if◌then◌else◌};
ghost use Rattle.port_past.specs.Commands.{command_of, is_accepted, counted};
ghost use Rattle.port_ledger.specs.Commands.{index_of, CanServe};
ghost use Rattle.port_ledger.specs.Sound.{CanCount};

use crate::numbered::{NUMBERS, reach};
use ata_base::{Cmd, CmdId, OutOfMemory};
use std::alloc::Global;
use std::marker::Model;

/// The commands that a port has accepted, in order. The command of a number is found at once: a table has its place in the
/// list, counted from 1; 0 and a number past the table's end stand for none. The table has memory for all numbers from
/// `new` on, and grows as they are used.
#[derive(Drop)]
pub struct CommandTable {
    list: Vec<Cmd>,
    table: Vec<u32>,
}

impl Model for CommandTable {
    ghost use Rattle.std.specs.Prelude.{◌-◌, ◌≤◌};
    ghost use Rattle.std.specs.Vec.{vec_len, vec_capacity};
    ghost use Rattle.port_ledger.specs.Commands.{CommandTableView, IsIndex};

    ghost Value = { CommandTableView };

    ghost view = { λ r. record { list = r.list.items; room = vec_capacity r.list - vec_len r.list } };

    ghost invariant = { λ r. IsIndex r.table.items r.list.items × (65536 ≤ vec_capacity r.table) };
}

impl CommandTable {
    /// No command was accepted.
    pub fn new(alloc: Global) -> Result<CommandTable, OutOfMemory>
        ensures { IfOk result (λ r. r.list ≡ []) }
    {
        Ok(CommandTable {
            list: Vec::new(alloc),
            table: Vec::with_capacity(alloc, NUMBERS)?,
        })
    }

    /// Makes room for `more` commands.
    pub fn reserve(&mut self, more: usize) -> Result<(), OutOfMemory>
        ensures list { self.new.list ≡ self.old.list }
        ensures room { OnOk result (more ≤ self.new.room) }
        ensures kept { self.old.room ≤ self.new.room }
    {
        self.list.reserve(more)?;
        Ok(())
    }

    /// The accepted commands, lent.
    #[tactic(auto, using(crate::proofs::CommandLemmas::few_commands))]
    pub fn list(&self) -> &[Cmd]
        ensures value { result.now ≡ self.now.list }
        ensures few { length self.now.list ≤ 65536 }
    {
        &self.list
    }

    /// Where the command of this number stands in the list, counted from 1; 0 where there is none.
    fn place_of(&self, id: CmdId) -> u32
        ensures { result ≡ index_of id self.now.list }
    {
        place_in(&self.table, id)
    }

    /// The accepted command of this number.
    #[tactic(auto, using(crate::proofs::CommandLemmas::no_command, crate::proofs::CommandLemmas::command_at, crate::proofs::CommandLemmas::index_within))]
    pub fn get(&self, id: CmdId) -> Option<Cmd>
        ensures value { result ≡ command_of id self.now.list }
        ensures served { IfSome result CanServe }
    {
        let at = self.place_of(id);
        if at == 0 {
            None
        } else {
            Some(self.list[at as usize - 1])
        }
    }

    /// Whether a command of this number was accepted.
    #[tactic(auto, using(crate::proofs::CommandLemmas::accepted_at, crate::proofs::CommandLemmas::accepted_none))]
    pub fn is_accepted(&self, id: CmdId) -> bool
        ensures { result ≡ is_accepted id self.now.list }
    {
        self.place_of(id) != 0
    }

    /// A command is accepted.
    pub fn accept(&mut self, cmd: Cmd)
        requires room { 0 < self.old.room }
        requires fresh { is_accepted cmd.id self.old.list ≡ false }
        requires served { CanServe cmd }
        ensures list { self.new.list ≡ self.old.list ++ cmd ∷ [] }
        ensures room { self.new.room + 1 ≡ self.old.room }
    {
        reach(&mut self.table, cmd.id.get() as usize, 0);
        self.table[cmd.id.get() as usize] = self.list.len() as u32 + 1;
        self.list.push_reserved(cmd);
    }

    /// A command is tried again.
    #[tactic(auto, using(crate::proofs::CommandLemmas::command_at, crate::proofs::CommandLemmas::index_within, crate::proofs::CommandLemmas::map_found, crate::proofs::CommandLemmas::map_missing))]
    pub fn retry(&mut self, id: CmdId, allowance_raised: bool)
        requires { allowance_raised ≡ false → CanCount (command_of id self.old.list) }
        ensures list { self.new.list ≡ map (λ c. if c.id == id then counted allowance_raised c else c) self.old.list }
        ensures room { self.new.room ≡ self.old.room }
    {
        let at = self.place_of(id) as usize;
        if at != 0 {
            let was = self.list[at - 1];
            self.list[at - 1] = counted(was, allowance_raised);
        }
    }
}

/// What a table has for this number, 0 past its end.
fn place_in(table: &[u32], id: CmdId) -> u32
    ensures { result ≡ slice_index table.now id }
{
    match table.get(id.get() as usize) {
        Some(at) => *at,
        None => 0,
    }
}

/// A command once it is tried again.
pub fn counted(was: Cmd, allowance_raised: bool) -> Cmd
    requires { allowance_raised ≡ false → was.retries + 1 < 2 ^ 32 }
    ensures { result ≡ counted allowance_raised was }
{
    let mut c = was;
    if !allowance_raised {
        c.retries += 1;
    }
    c
}
