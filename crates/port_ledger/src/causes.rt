ghost use Rattle.std.specs.Prelude.{◌≡◌, Bool, false, List, Option, is_some, if◌then◌else◌};
ghost use Rattle.std.specs.List.{list_any};
ghost use Rattle.ata_trace.specs.Event.Event.{Told};
ghost use Rattle.eh_autopsy.specs.declared.failed_issue.FailedIssue.{FailedIssue as Failed};
ghost use Rattle.port_past.specs.Causes.{takes_causes, with_tferr, tferr_after, is_hotplug_bit, injects_hotplug, injects_link_error, injects_serror, cause_begun, iferr_after, connect_after, notify_after};
ghost use Rattle.port_past.specs.Noted.{tferr_noted_after, with_later};
ghost use Rattle.port_past.specs.Places.{nowhere};
ghost use Rattle.port_ledger.specs.Parts.{later};

use crate::answers::{is_good_end, registers};
use ata_base::{Fault, IssueNo, MOST_PLACES, Regs, SerrorBit};
use ata_trace::{Act, Step};
use eh_autopsy::FailedIssue;

/// By place, the failed issue with its registers, where there is one.
pub type Failures = [Option<FailedIssue>; MOST_PLACES];

/// The causes that an interrupt takes: by place the failed issue of TFERR, and IFERR, CONNECT and NOTIFY.
#[derive(Drop)]
pub struct Causes {
    pub tferr: Failures,
    pub iferr: bool,
    pub connect: bool,
    pub notify: bool,
}

impl Causes {
    /// No cause stands.
    pub fn new() -> Causes
        ensures { result ≡ record { tferr = nowhere; iferr = false; connect = false; notify = false } }
    {
        Causes {
            tferr: no_failures(),
            iferr: false,
            connect: false,
            notify: false,
        }
    }
}

/// No failed issue.
pub fn no_failures() -> Failures
    ensures { result ≡ nowhere }
{
    [None; MOST_PLACES]
}

/// Whether an issue failed at some place.
pub fn is_failing(failures: &Failures) -> bool
    ensures { result ≡ list_any is_some failures.now }
{
    failures.iter().any(|failure| failure.is_some())
}

/// Whether a step takes the causes: an interrupt does that is served.
pub fn takes_causes(step: &Step, served: bool) -> bool
    ensures { result ≡ takes_causes step.now served }
{
    match step {
        Step::Irq => served,
        _ => false,
    }
}

/// The causes when a step begins: an interrupt that is served takes them.
pub fn begin_causes(causes: &mut Causes, step: &Step, served: bool)
    ensures tferr { causes.new.tferr ≡ (if takes_causes step.now served then nowhere else causes.old.tferr) }
    ensures iferr { causes.new.iferr ≡ cause_begun step.now served causes.old.iferr }
    ensures connect { causes.new.connect ≡ cause_begun step.now served causes.old.connect }
    ensures notify { causes.new.notify ≡ cause_begun step.now served causes.old.notify }
{
    if takes_causes(step, served) {
        causes.tferr = no_failures();
        causes.iferr = false;
        causes.connect = false;
        causes.notify = false;
    }
}

/// The causes after an act.
pub fn note_causes(causes: &mut Causes, act: &Act, step: &Step, pmp: bool)
    ensures tferr { (served : Bool) → causes.new.tferr ≡ tferr_after (Told act.now) step.now served causes.old.tferr }
    ensures iferr { (served : Bool) → causes.new.iferr ≡ iferr_after pmp (Told act.now) step.now served causes.old.iferr }
    ensures connect { (served : Bool) → causes.new.connect ≡ connect_after pmp (Told act.now) step.now served causes.old.connect }
    ensures notify { (served : Bool) → causes.new.notify ≡ notify_after pmp (Told act.now) step.now served causes.old.notify }
{
    match act {
        // Most acts tell nothing of causes.
        Act::Accepted { .. } | Act::Issued { .. } | Act::Raised | Act::AnsweredOk { .. } => {}
        _ => {
            note_tferr(&mut causes.tferr, act, step);
            causes.iferr = iferr_after(act, step, pmp, causes.iferr);
            causes.connect = connect_after(act, step, pmp, causes.connect);
            causes.notify = notify_after(act, step, pmp, causes.notify);
        }
    }
}

/// By place, the failed issue of TFERR after an act.
#[inline(always)]
pub fn note_tferr(tferr: &mut Failures, act: &Act, step: &Step)
    ensures { (served : Bool) → tferr.new ≡ tferr_after (Told act.now) step.now served tferr.old }
{
    match act {
        Act::Done {
            number,
            status,
            error,
            lba,
            count,
        } => {
            if !is_good_end(*status, *error, *lba) {
                let regs = registers(*status, *error, *lba, *count);
                fail(tferr, step, *number, regs);
            }
        }
        Act::ResetBegun { place, .. } => match place {
            Some(place) => tferr[place.get() as usize] = None,
            None => *tferr = no_failures(),
        },
        _ => {}
    }
}

fn fail(tferr: &mut Failures, step: &Step, number: IssueNo, regs: Regs)
    ensures { tferr.new ≡ with_tferr step.now (record { number = number; regs = regs }) tferr.old }
{
    if let Step::Work { place, .. } = step {
        tferr[place.get() as usize] = Some(FailedIssue { number, regs });
    }
}

fn iferr_after(act: &Act, step: &Step, pmp: bool, was: bool) -> bool
    ensures { (served : Bool) → result ≡ iferr_after pmp (Told act.now) step.now served was }
{
    match act {
        Act::ResetBegun { place, .. } => match place {
            Some(_) => pmp && was,
            None => was,
        },
        Act::Injected { .. } => was || (!pmp && injects_link_error(step)),
        _ => was,
    }
}

fn connect_after(act: &Act, step: &Step, pmp: bool, was: bool) -> bool
    ensures { (served : Bool) → result ≡ connect_after pmp (Told act.now) step.now served was }
{
    match act {
        Act::Plugged { .. } | Act::Unplugged { .. } => was || !pmp,
        Act::Injected { .. } => was || (!pmp && injects_hotplug(step)),
        _ => was,
    }
}

fn notify_after(act: &Act, step: &Step, pmp: bool, was: bool) -> bool
    ensures { (served : Bool) → result ≡ notify_after pmp (Told act.now) step.now served was }
{
    match act {
        Act::Plugged { .. } | Act::Unplugged { .. } => was || pmp,
        Act::Injected { .. } => was || (pmp && injects_serror(step)),
        _ => was,
    }
}

/// Whether a bit of SError tells that a drive was plugged or unplugged.
fn is_hotplug_bit(bit: SerrorBit) -> bool
    ensures { result ≡ is_hotplug_bit bit }
{
    matches!(bit, SerrorBit::Phy | SerrorBit::Exch)
}

/// Whether a step puts in a bit of SError that tells of a hotplug.
fn injects_hotplug(step: &Step) -> bool
    ensures { result ≡ injects_hotplug step.now }
{
    match step {
        Step::Inject { fault, .. } => match fault.get() {
            Fault::Serr { bit } => is_hotplug_bit(bit),
            _ => false,
        },
        _ => false,
    }
}

/// Whether a step puts in a bit of SError that tells of an error of the link.
fn injects_link_error(step: &Step) -> bool
    ensures { result ≡ injects_link_error step.now }
{
    match step {
        Step::Inject { fault, .. } => match fault.get() {
            Fault::Serr { bit } => !is_hotplug_bit(bit),
            _ => false,
        },
        _ => false,
    }
}

/// Whether a step puts in a bit of SError, whichever.
fn injects_serror(step: &Step) -> bool
    ensures { result ≡ injects_serror step.now }
{
    match step {
        Step::Inject { fault, .. } => matches!(fault.get(), Fault::Serr { .. }),
        _ => false,
    }
}

/// The failed issues that are noted, when a step begins: an interrupt that is served notes those that it takes. Most
/// interrupts take none.
#[tactic(auto, using(crate::proofs::NotedLemmas::none_later))]
pub fn begin_noted(noted: &mut Failures, tferr: &Failures, step: &Step, served: bool)
    ensures { noted.new ≡ (if takes_causes step.now served then with_later tferr.now noted.old else noted.old) }
{
    if takes_causes(step, served) && is_failing(tferr) {
        note_later(noted, tferr);
    }
}

/// Of each place the later failed issue.
#[tactic(auto, using(std::proofs::lemmas::List::take_all))]
fn note_later(noted: &mut Failures, tferr: &Failures)
    ensures { noted.new ≡ with_later tferr.now noted.old }
{
    for at in 0..MOST_PLACES {
        noted[at] = later(tferr[at], noted[at]);
    }
}

fn later(told: Option<FailedIssue>, was: Option<FailedIssue>) -> Option<FailedIssue>
    ensures { result ≡ later told was }
{
    match told {
        Some(it) => Some(it),
        None => was,
    }
}

/// The failed issues that are noted, after an act.
pub fn note_noted(noted: &mut Failures, act: &Act)
    ensures { (served : Bool) (failing : List (Option Failed)) → noted.new ≡ tferr_noted_after (Told act.now) served failing noted.old }
{
    if let Act::Autopsied = act {
        *noted = no_failures();
    }
}
