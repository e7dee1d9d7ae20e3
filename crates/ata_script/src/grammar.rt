ghost use Rattle.std.specs.Prelude.{◌≡◌, ◌≤◌, ◌+◌, ◌*◌, length, None, true, false, codes, IfOk, IfErr, MatchResult};
ghost use Rattle.std.specs.Str.{bytes_eq};
ghost use Rattle.ata_trace.specs.Parts.{words_of, first};
ghost use Rattle.ata_script.specs.Drafts.{draft_said};
ghost use Rattle.ata_script.specs.Forms.{is_head};
ghost use Rattle.ata_script.specs.Grammar.{Line, lines_size, first_rule, version_in, is_skipped, fault_of, later_fault, with_lines};
ghost use Rattle.ata_script.specs.OfText.{all_said};
ghost use Rattle.ata_script.specs.Reader.{Tells, Takes, Gives, Begins};
ghost use Rattle.ata_script.specs.Scripts.{IsScript};

use crate::draft::Draft;
use crate::fields::Fields;
use crate::head_words::{drive, port};
use crate::lines::Lines;
use crate::refusal::Refusal;
use crate::script::Script;
use crate::script_error::ScriptError;
use crate::step_words::{actor_no, port_no, step};
use ata_trace::{Words, same};
use std::alloc::Global;

/// The fewest bytes of a line that is a step, with its line feed.
const LEAST_STEP: usize = 8;

/// Reads a script of at most 4,194,304 bytes. `Fault` exactly where a rule is broken, with the first
/// line at fault and the least rule that it breaks; `Memory` where what it says found no room.
pub fn read(alloc: Global, bytes: &[u8]) -> Result<Script, ScriptError>
    requires { length bytes.now ≤ 4194304 }
    ensures script { IfOk result (λ script. IsScript bytes.now script) }
    ensures fault { IfErr result (λ e. Tells e (fault_of bytes.now)) }
{
    let mut lines = Lines::new(bytes);
    let Some((text, ended)) = lines.next() else {
        return Err(ScriptError::Fault { line: 1, rule: 1 });
    };
    let version = match version(text, ended) {
        Ok(version) => version,
        Err(rule) => return Err(ScriptError::Fault { line: 1, rule }),
    };
    let ahead = bytes.len() / LEAST_STEP;
    let draft = later_lines(alloc, Draft::new(alloc, version, ahead), &mut lines)?;
    Ok(Script {
        version: draft.version,
        head: draft.head,
        steps: draft.steps,
    })
}

// The draft with the lines behind the first, of which the first has the number 2.
fn later_lines(alloc: Global, draft: Draft, lines: &mut Lines<'_>) -> Result<Draft, ScriptError>
    requires { length lines.old ≤ 4194304 }
    ensures said { IfOk result (λ d. draft_said d ≡ with_lines (draft_said draft) lines.old) }
    ensures right { IfOk result (λ d. later_fault 2 (draft_said draft) lines.old ≡ None) }
    ensures few { IfOk result (λ d. 8 * length d.steps ≤ 8 * length draft.steps + lines_size lines.old) }
    ensures fault { IfErr result (λ e. Tells e (later_fault 2 (draft_said draft) lines.old)) }
{
    let mut draft = draft;
    let mut number: u32 = 2;
    loop {
        let Some((text, ended)) = lines.next() else {
            return Ok(draft);
        };
        match later_line(alloc, &mut draft, text, ended) {
            Ok(()) => (),
            Err(Refusal::Rule(rule)) => return Err(ScriptError::Fault { line: number, rule }),
            Err(Refusal::Memory) => return Err(ScriptError::Memory),
        }
        number += 1;
    }
}

// The version that the first line names, or the least rule that it breaks.
fn version(text: &[u8], ended: bool) -> Result<u8, u8>
    ensures { Begins (record { text = text.now; ended = ended }) result }
{
    let two = same(text, b"atahost 2");
    if !two && !same(text, b"atahost 1") {
        Err(1)
    } else if !ended {
        Err(2)
    } else if two {
        Ok(2)
    } else {
        Ok(1)
    }
}

// Adds what a later line says, if it isn't skipped, or tells the least rule that it breaks.
#[tactic(auto, using(crate::proofs::LinesTaken::gives_of))]
fn later_line(alloc: Global, draft: &mut Draft, text: &[u8], ended: bool) -> Result<(), Refusal>
    ensures { Gives (draft_said draft.old) (draft_said draft.new) (record { text = text.now; ended = ended }) result }
{
    if !ended {
        return Err(Refusal::Rule(2));
    }
    if is_skipped(text) {
        return Ok(());
    }
    if Words::new(text).take(b"port") {
        port_line(alloc, draft, text)
    } else if Words::new(text).take(b"drive") {
        drive_line(draft, text)
    } else {
        step_line(draft, text)
    }
}

// Whether a line is skipped: it is empty or begins with `#`.
fn is_skipped(text: &[u8]) -> bool
    ensures { result ≡ is_skipped text.now }
{
    text.is_empty() || text[0] == b'#'
}

// Adds the port of a line that begins with the word `port`.
fn port_line(alloc: Global, draft: &mut Draft, text: &[u8]) -> Result<(), Refusal>
    requires { bytes_eq (first (words_of text.now)) (codes "port") ≡ true }
    ensures { Takes (draft_said draft.old) (draft_said draft.new) (words_of text.now) result }
{
    let mut fields = Fields::new(text);
    fields.small(b"port");
    let two = draft.version == 2;
    let (number, port) = port(alloc, &mut fields, two);
    match fields.verdict() {
        None => draft.add_port(number, port),
        Some(rule) => Err(Refusal::Rule(rule)),
    }
}

// Adds the drive of a line that begins with the word `drive`.
fn drive_line(draft: &mut Draft, text: &[u8]) -> Result<(), Refusal>
    requires drive { bytes_eq (first (words_of text.now)) (codes "drive") ≡ true }
    ensures { Takes (draft_said draft.old) (draft_said draft.new) (words_of text.now) result }
{
    let mut fields = Fields::new(text);
    fields.small(b"drive");
    let (port, number, drive) = drive(&mut fields);
    match fields.verdict() {
        None => draft.add_drive(port, number, drive),
        Some(rule) => Err(Refusal::Rule(rule)),
    }
}

// Adds the step of any other line.
fn step_line(draft: &mut Draft, text: &[u8]) -> Result<(), Refusal>
    requires { is_head (first (words_of text.now)) ≡ false }
    ensures { Takes (draft_said draft.old) (draft_said draft.new) (words_of text.now) result }
{
    let mut fields = Fields::new(text);
    let actor = actor_no(&mut fields);
    let port = port_no(&mut fields);
    let step = step(&mut fields);
    match fields.verdict() {
        None => draft.add_step(actor, port, step),
        Some(rule) => Err(Refusal::Rule(rule)),
    }
}
