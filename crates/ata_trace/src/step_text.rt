ghost use Rattle.std.specs.Prelude.{◌≡◌, ◌≤◌, ◌+◌, ◌++◌, ◌∷◌, [], codes, decimal, length};
ghost use Rattle.ata_trace.specs.Text.{joined, step_words};
ghost use Rattle.ata_trace.specs.Words.{op_words, serror_word, fault_words};

use crate::line::Line;
use crate::pieces::{put_id, put_place};
use crate::step::Step;
use ata_base::{Allowance, CmdId, Fault, Op, Place, SerrorBit, Wait};

/// Appends the words of a step, one space before each. The line has at most 100 bytes before; it has
/// at most 200 more then.
pub fn put_step(line: &mut Line, step: &Step)
    requires { length line.old ≤ 100 }
    ensures text { line.new ≡ joined line.old (step_words step.now) }
    ensures len { length line.new ≤ length line.old + 200 }
{
    match step {
        Step::Submit {
            id,
            place,
            op,
            allow,
            wait,
        } => put_submit(line, *id, *place, &op.get(), *allow, *wait),
        Step::Kick { place } => put_place(line, b"kick", *place),
        Step::Work { place, pick } => {
            put_place(line, b"work", *place);
            line.number(pick.get() as u64);
        }
        Step::Irq => line.word(b"irq"),
        Step::Drop => line.word(b"drop"),
        Step::Stray { tag } => {
            line.word(b"stray");
            line.number(tag.get() as u64);
        }
        Step::Tick { ms } => {
            line.word(b"tick");
            line.number(ms.get().n);
        }
        Step::Expire => line.word(b"expire"),
        Step::Recover => line.word(b"recover"),
        Step::Plug { place, drive } => {
            put_place(line, b"plug", *place);
            line.number(drive.get() as u64);
        }
        Step::Unplug { place } => put_place(line, b"unplug", *place),
        Step::Inject { place, fault } => {
            put_place(line, b"inject", *place);
            put_fault(line, &fault.get());
        }
        Step::Boot => line.word(b"boot"),
    }
}

// Appends the words of a submit.
#[tactic(auto, using(crate::proofs::Words::joined_append))]
fn put_submit(line: &mut Line, id: CmdId, place: Place, op: &Op, allow: Allowance, wait: Wait)
    requires { length line.old ≤ 100 }
    ensures text { line.new ≡ joined line.old
        (codes "submit" ∷ decimal id ∷ decimal place ∷ (op_words op.now ++ decimal allow ∷ decimal wait ∷ [])) }
    ensures len { length line.new ≤ length line.old + 190 }
{
    put_id(line, b"submit", id);
    line.number(place.get() as u64);
    put_op(line, op);
    line.number(allow.get() as u64);
    line.number(wait.get().n);
}

// Appends the words of an operation.
fn put_op(line: &mut Line, op: &Op)
    requires { length line.old ≤ 200 }
    ensures text { line.new ≡ joined line.old (op_words op.now) }
    ensures len { length line.new ≤ length line.old + 70 }
{
    match op {
        Op::Read { lba, count } => {
            line.word(b"read");
            line.number(*lba);
            line.number(*count as u64);
        }
        Op::Write { lba, count, stamp } => {
            line.word(b"write");
            line.number(*lba);
            line.number(*count as u64);
            line.number(*stamp);
        }
        Op::Verify { lba, count } => {
            line.word(b"verify");
            line.number(*lba);
            line.number(*count as u64);
        }
        Op::Flush => line.word(b"flush"),
        Op::Power => line.word(b"power"),
    }
}

// Appends the words of a fault.
fn put_fault(line: &mut Line, fault: &Fault)
    requires { length line.old ≤ 200 }
    ensures text { line.new ≡ joined line.old (fault_words fault.now) }
    ensures len { length line.new ≤ length line.old + 40 }
{
    match fault {
        Fault::Media { lba } => {
            line.word(b"media");
            line.number(*lba);
        }
        Fault::Hang { k } => put_count(line, b"hang", *k),
        Fault::Icrc { k } => put_count(line, b"icrc", *k),
        Fault::Abort { k } => put_count(line, b"abort", *k),
        Fault::Df { k } => put_count(line, b"df", *k),
        Fault::BadStat { k } => put_count(line, b"badstat", *k),
        Fault::Idnf { k } => put_count(line, b"idnf", *k),
        Fault::LogFail { k } => put_count(line, b"logfail", *k),
        Fault::LogSum { k } => put_count(line, b"logsum", *k),
        Fault::LogNq { k } => put_count(line, b"lognq", *k),
        Fault::LogIdle { k } => put_count(line, b"logidle", *k),
        Fault::IdentFail { k } => put_count(line, b"identfail", *k),
        Fault::Serr { bit } => {
            line.word(b"serr");
            line.word(serror_word(*bit));
        }
    }
}

// Appends a name and how often a fault comes.
fn put_count(line: &mut Line, name: &[u8], k: u32)
    requires { length line.old + length name.now ≤ 300 }
    ensures text { line.new ≡ joined line.old (name.now ∷ decimal k ∷ []) }
    ensures len { length line.new ≤ length line.old + length name.now + 22 }
{
    line.word(name);
    line.number(k as u64);
}

// A bit of the SError register.
fn serror_word(bit: SerrorBit) -> &'static [u8]
    ensures value { result.now ≡ serror_word bit }
    ensures short { length result.now ≤ 8 }
{
    match bit {
        SerrorBit::Data => b"data",
        SerrorBit::Persist => b"persist",
        SerrorBit::Proto => b"proto",
        SerrorBit::Internal => b"internal",
        SerrorBit::Phy => b"phy",
        SerrorBit::Exch => b"exch",
    }
}
