ghost use Rattle.std.specs.Prelude.{◌≡◌, ◌∷◌, ◌<◌, ◌^◌, codes};
ghost use Rattle.std.specs.Str.{bytes_eq};
ghost use Rattle.ata_trace.specs.Parts.{first};
ghost use Rattle.ata_trace.specs.Reading.{number_in};
ghost use Rattle.ata_trace.specs.Told.{second, third, fourth, fifth, after_three};
ghost use Rattle.ata_trace.specs.declared.step.Step.TheVariants.{Submit};
ghost use Rattle.ata_base.specs.declared.op.Op.TheVariants.{Write};
ghost use Rattle.ata_script.specs.Fields.{among};
ghost use Rattle.ata_script.specs.Forms.{read_names, flush_names, read_fields, write_fields, flush_fields, a_sector, a_count, an_allowance, a_wait};
ghost use Rattle.ata_script.specs.Taking.{taken, after, behind, submit_step, submit_form_for, sector_in, count_in, read_op, flush_op, op_of_name};

use crate::fields::Fields;
use crate::step_words::place;
use ata_base::{Allowance, CmdId, Op, Place, Wait};
use ata_trace::{ScriptOp, Step, same};

/// The last sector that a script can name.
pub(crate) const MOST_LBA: u64 = (1 << 48) - 1;

/// Takes what follows the word `submit`.
pub(crate) fn submit(fields: &mut Fields<'_>) -> Step
    ensures value { result ≡ submit_step (codes "submit" ∷ fields.old.rest) }
    ensures state { fields.new ≡ after (behind (submit_form_for (third fields.old.rest))) fields.old }
{
    let id = CmdId::at(fields.number(1, 65535) as u16);
    let place = place(fields);
    if fields.take(b"write") {
        write(fields, id, place)
    } else if is_flush(fields.peek()) {
        flush(fields, id, place)
    } else {
        read(fields, id, place)
    }
}

// Whether it is the name of an operation without sectors.
fn is_flush(name: &[u8]) -> bool
    ensures { result ≡ among flush_names name.now }
{
    same(name, b"flush") || same(name, b"power")
}

// Whether it is the name of an operation that only reads.
fn is_read(name: &[u8]) -> bool
    ensures { result ≡ among read_names name.now }
{
    same(name, b"read") || same(name, b"verify")
}

// Takes what follows the word `write`.
fn write(fields: &mut Fields<'_>, id: CmdId, place: Place) -> Step
    ensures value { result ≡ Submit id place
        (Write (sector_in (first fields.old.rest)) (count_in (second fields.old.rest)) (number_in 0 18446744073709551615 (third fields.old.rest)))
        (number_in 0 100 (fourth fields.old.rest)) (number_in 1 1000000 (fifth fields.old.rest)) }
    ensures state { fields.new ≡ after (behind write_fields) fields.old }
{
    let op = ScriptOp::at(Op::Write {
        lba: sector(fields),
        count: count(fields),
        stamp: fields.number(0, u64::MAX),
    });
    Step::Submit {
        id,
        place,
        op,
        allow: allowance(fields),
        wait: wait(fields),
    }
}

// Takes an operation without sectors, from its name on.
fn flush(fields: &mut Fields<'_>, id: CmdId, place: Place) -> Step
    ensures value { result ≡ Submit id place (flush_op (first fields.old.rest))
        (number_in 0 100 (second fields.old.rest)) (number_in 1 1000000 (third fields.old.rest)) }
    ensures state { fields.new ≡ after flush_fields fields.old }
{
    let name = fields.peek();
    fields.choice(is_flush(name));
    Step::Submit {
        id,
        place,
        op: flush_of(name),
        allow: allowance(fields),
        wait: wait(fields),
    }
}

// The operation of this name, which has no sectors.
fn flush_of(name: &[u8]) -> ScriptOp
    ensures { result ≡ flush_op name.now }
{
    if same(name, b"flush") {
        ScriptOp::at(Op::Flush)
    } else {
        ScriptOp::at(Op::Power)
    }
}

// Takes an operation that only reads, from its name on.
fn read(fields: &mut Fields<'_>, id: CmdId, place: Place) -> Step
    ensures value { result ≡ Submit id place (read_op fields.old.rest)
        (number_in 0 100 (fourth fields.old.rest)) (number_in 1 1000000 (fifth fields.old.rest)) }
    ensures state { fields.new ≡ after read_fields fields.old }
{
    let name = fields.peek();
    fields.choice(is_read(name));
    let lba = sector(fields);
    let count = count(fields);
    Step::Submit {
        id,
        place,
        op: read_of(name, lba, count),
        allow: allowance(fields),
        wait: wait(fields),
    }
}

// The operation of this name, which only reads.
fn read_of(name: &[u8], lba: u64, count: u16) -> ScriptOp
    requires { lba < 2 ^ 48 }
    ensures { result ≡ op_of_name name.now lba count }
{
    if same(name, b"read") {
        ScriptOp::at(Op::Read { lba, count })
    } else {
        ScriptOp::at(Op::Verify { lba, count })
    }
}

// Takes a sector.
pub(crate) fn sector(fields: &mut Fields<'_>) -> u64
    ensures value { result ≡ sector_in (first fields.old.rest) }
    ensures range { result < 2 ^ 48 }
    ensures state { fields.new ≡ taken a_sector fields.old }
{
    fields.number(0, MOST_LBA)
}

// Takes a number of sectors.
fn count(fields: &mut Fields<'_>) -> u16
    ensures value { result ≡ count_in (first fields.old.rest) }
    ensures state { fields.new ≡ taken a_count fields.old }
{
    fields.number(0, 65535) as u16
}

// Takes an allowance.
fn allowance(fields: &mut Fields<'_>) -> Allowance
    ensures value { result ≡ number_in 0 100 (first fields.old.rest) }
    ensures state { fields.new ≡ taken an_allowance fields.old }
{
    Allowance::at(fields.number(0, 100) as u32)
}

// Takes a wait.
fn wait(fields: &mut Fields<'_>) -> Wait
    ensures value { result ≡ number_in 1 1000000 (first fields.old.rest) }
    ensures state { fields.new ≡ taken a_wait fields.old }
{
    Wait::at(fields.number(1, 1_000_000))
}
