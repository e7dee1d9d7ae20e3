ghost use Rattle.std.specs.Prelude.{map};
ghost use Rattle.ata_trace.specs.Lent.{entry_lent};
ghost use Rattle.ata_trace.specs.Ranges.{IsStep, IsWho};
ghost use Rattle.ata_trace.specs.Texts.{AreActs, AreEntries, AreIds, ArePorts};
ghost use Rattle.port_core.specs.Told.{IsEntry, IsTold, ids_of, told_of};

use crate::number_ranges::{id_in_range, long_in_range};
use crate::port::Port;
use crate::{act_ranges, ranges};
use ata_base::Cmd;
use ata_trace::{Acts, Entry, Journal, Step, Who};

/// All that the texts of these ports tell is in the ranges of its types. It changes nothing.
#[tactic(auto, using(crate::proofs::ToldLemmas::ports_more))]
pub(crate) fn ports_in_range(ports: &[Port])
    ensures { ArePorts (map told_of ports.now) }
{
    for port in ports {
        port_in_range(port);
    }
}

/// All that the text of a port tells is in the ranges of its types. It changes nothing.
pub(crate) fn port_in_range(port: &Port)
    ensures { IsTold (told_of port.now) }
{
    let accepted = port.accepted();
    entries_in_range(port.journal());
    ids_in_range(accepted);
    long_in_range(u64::from(port.number().get()));
    long_in_range(accepted.len() as u64);
    long_in_range(u64::from(port.live()));
}

// Entries.
fn entries_in_range(journal: &Journal)
    ensures { AreEntries journal.now.entries }
{
    for i in 0..journal.len() {
        match journal.entry(i) {
            Some(entry) => entry_in_range(&entry),
            None => unreachable!(),
        }
    }
}

// An entry.
fn entry_in_range(entry: &Entry<'_>)
    ensures { IsEntry (entry_lent entry.now) }
{
    long_in_range(entry.at.n);
    who_in_range(entry.who);
    long_in_range(entry.seq);
    step_in_range(&entry.step);
    acts_in_range(&entry.acts);
}

// Who took a step.
#[tactic(auto, using(crate::proofs::NumberRanges::is_in))]
fn who_in_range(who: Who)
    ensures { IsWho who }
{
    match who {
        Who::Actor(actor) => {
            let _ = actor.get();
        }
        Who::Boot => {}
        Who::Settle => {}
    }
}

// A step.
#[tactic(auto, using(crate::proofs::ToldLemmas::script_step))]
fn step_in_range(step: &Step)
    ensures { IsStep step.now }
{
    ranges::in_range(step);
}

// Acts.
fn acts_in_range(acts: &Acts<'_>)
    ensures { AreActs acts.now }
{
    for i in 0..acts.len() {
        match acts.get(i) {
            Some(act) => act_ranges::in_range(act.get()),
            None => unreachable!(),
        }
    }
}

// The numbers of commands.
#[tactic(auto, using(crate::proofs::ToldLemmas::ids_more))]
fn ids_in_range(commands: &[Cmd])
    ensures { AreIds (ids_of commands.now) }
{
    for command in commands {
        id_in_range(command.id);
    }
}
