ghost use Rattle.std.specs.Prelude.{◌≡◌, length, filter};
ghost use Rattle.ata_io.specs.Faults.{one_more};
ghost use Rattle.ata_trace.specs.OpenEntries.{last_acts};
ghost use Rattle.host_summary.specs.Summary.{is_submit};
ghost use Rattle.host_summary.specs.Tally.{none_of, with_act, with_acts};

use crate::summary::Summary;
use ata_base::{ActorNo, PortNo};
use ata_trace::{Act, Step};
use port_core::Machine;

/// The summary of no journal, with the numbers that aren't counted in journals.
pub(crate) fn nothing(commands: u64, live: u64) -> Summary
    ensures { result ≡ none_of commands live }
{
    Summary {
        commands,
        accepted: 0,
        refused: 0,
        issued: 0,
        ok: 0,
        failed: 0,
        nodev: 0,
        retried: 0,
        runs: 0,
        recorded: 0,
        entries: 0,
        live,
    }
}

/// How many steps submit a command.
pub(crate) fn submitted(steps: &[(ActorNo, PortNo, Step)]) -> usize
    ensures { result ≡ length (filter is_submit steps.now) }
{
    steps.iter().filter(|taken| is_submit(taken)).count()
}

/// Whether a step of a script submits a command.
fn is_submit(taken: &(ActorNo, PortNo, Step)) -> bool
    ensures { result ≡ is_submit taken.now }
{
    matches!(taken.2, Step::Submit { .. })
}

/// Counts the last entry of a machine.
pub(crate) fn count_last(summary: &mut Summary, machine: &Machine)
    ensures { summary.new ≡ with_acts (record summary.old { entries = one_more summary.old.entries }) (last_acts machine.now.entries) }
{
    summary.entries = one_more(summary.entries);
    count_acts(summary, machine.acts());
}

/// Counts acts.
#[tactic(auto, using(crate::proofs::Counts::acts_more))]
fn count_acts(summary: &mut Summary, acts: &[Act])
    ensures { summary.new ≡ with_acts summary.old acts.now }
{
    for act in acts {
        count_act(summary, act);
    }
}

/// Counts an act.
fn count_act(summary: &mut Summary, act: &Act)
    ensures { summary.new ≡ with_act summary.old act.now }
{
    match act {
        Act::Accepted { .. } => summary.accepted = one_more(summary.accepted),
        Act::Refused { .. } => summary.refused = one_more(summary.refused),
        Act::Issued { .. } => summary.issued = one_more(summary.issued),
        Act::AnsweredOk { .. } => summary.ok = one_more(summary.ok),
        Act::AnsweredFailed { .. } => summary.failed = one_more(summary.failed),
        Act::AnsweredNodev { .. } => summary.nodev = one_more(summary.nodev),
        Act::Retried { .. } => summary.retried = one_more(summary.retried),
        Act::Begun => summary.runs = one_more(summary.runs),
        Act::Recorded { .. } => summary.recorded = one_more(summary.recorded),
        _ => {}
    }
}

/// A count one higher, which stays at the last number.
fn one_more(count: u64) -> u64
    ensures { result ≡ one_more count }
{
    count.saturating_add(1)
}
