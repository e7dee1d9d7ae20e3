ghost use Rattle.std.specs.Prelude.{◌≡◌, ℕ, Some, IfSome};
ghost use Rattle.ata_trace.specs.Parts.{words_of};
ghost use Rattle.ata_trace.specs.Ranges.{IsLong, IsStep, IsWho};
ghost use Rattle.ata_trace.specs.Text.{head_line};
ghost use Rattle.ata_trace.specs.Told.{head_told, step_told, plug_told, submit_told};
ghost use Rattle.ata_trace.specs.declared.step.Step.{Step};
ghost use Rattle.ata_trace.specs.declared.who.Who.{Who};

use crate::parts::{Words, same, without_end};
use crate::reading::{drive, id, long, number, place, tag, time, who};
use crate::step::Step;
use crate::step_reading::{fault, op};
use crate::text::head_line;
use crate::who::Who;
use ata_base::{Allowance, Ms, Pick, Tick, Wait};

/// The head whose line these bytes are: the time before the step, who took it, which of their steps
/// it is, and the step. `None` exactly where they are the line of no head.
pub fn read_head(bytes: &[u8]) -> Option<(Ms, Who, u64, Step)>
    ensures read { IfSome result (λ h. bytes.now ≡ head_line h.0.n h.1 h.2 h.3) }
    ensures found { (at : ℕ) → (who : Who) → (seq : ℕ) → (step : Step)
        → IsLong at → IsWho who → IsLong seq → IsStep step
        → bytes.now ≡ head_line at who seq step → result ≡ Some (record { n = at }, who, seq, step) }
{
    let head = head_told(&mut Words::new(without_end(bytes)));
    let step = head.3;
    if same(head_line(head.0, head.1, head.2, &step).bytes(), bytes) {
        Some(head)
    } else {
        None
    }
}

// The head whose words these may be.
fn head_told(words: &mut Words<'_>) -> (Ms, Who, u64, Step)
    ensures { result ≡ head_told words.old }
{
    words.next();
    let at = time(words);
    let who = who(words);
    let seq = long(words);
    let name = words.next();
    (at, who, seq, step_told(name, words))
}

// The step of this name, whose words may follow.
#[tactic(auto, unfolding(crate::specs::Told::step_told))]
fn step_told(name: &[u8], words: &mut Words<'_>) -> Step
    ensures { result ≡ step_told name.now words.old }
{
    if same(name, b"submit") {
        submit_told(words)
    } else if same(name, b"kick") {
        Step::Kick {
            place: place(words),
        }
    } else if same(name, b"work") {
        Step::Work {
            place: place(words),
            pick: Pick::at(number(words, 0, 31) as u8),
        }
    } else if same(name, b"irq") {
        Step::Irq
    } else if same(name, b"drop") {
        Step::Drop
    } else if same(name, b"stray") {
        Step::Stray { tag: tag(words) }
    } else if same(name, b"tick") {
        Step::Tick {
            ms: Tick::at(number(words, 0, 1_000_000)),
        }
    } else if same(name, b"expire") {
        Step::Expire
    } else if same(name, b"recover") {
        Step::Recover
    } else {
        plug_told(name, words)
    }
}

// A step of plugs or faults, or the boot.
#[tactic(auto, unfolding(crate::specs::Told::plug_told))]
fn plug_told(name: &[u8], words: &mut Words<'_>) -> Step
    ensures { result ≡ plug_told name.now words.old }
{
    if same(name, b"plug") {
        Step::Plug {
            place: place(words),
            drive: drive(words),
        }
    } else if same(name, b"unplug") {
        Step::Unplug {
            place: place(words),
        }
    } else if same(name, b"inject") {
        Step::Inject {
            place: place(words),
            fault: fault(words),
        }
    } else {
        Step::Boot
    }
}

// What follows the word `submit`.
#[tactic(auto, unfolding(crate::specs::Told::submit_told))]
fn submit_told(words: &mut Words<'_>) -> Step
    ensures { result ≡ submit_told words.old }
{
    let id = id(words);
    let place = place(words);
    let name = words.next();
    let op = op(name, words);
    Step::Submit {
        id,
        place,
        op,
        allow: Allowance::at(number(words, 0, 100) as u32),
        wait: Wait::at(number(words, 1, 1_000_000)),
    }
}
