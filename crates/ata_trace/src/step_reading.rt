ghost use Rattle.std.specs.Prelude.{◌≡◌, ◌≤◌, ◌<◌, ◌^◌};
ghost use Rattle.ata_trace.specs.Parts.{first, later};
ghost use Rattle.ata_trace.specs.Reading.{op_in, after_op, serror_in, fault_in, lba_in, times_in};

use crate::parts::{Words, same};
use crate::reading::{count, long, number};
use crate::script_fault::ScriptFault;
use crate::script_op::ScriptOp;
use ata_base::{Fault, Op, SerrorBit};

// What the words behind the name of a step may tell: an operation, or a fault.

/// Takes an operation, by its name.
pub(crate) fn op(name: &[u8], words: &mut Words<'_>) -> ScriptOp
    ensures value { result ≡ op_in name.now words.old }
    ensures rest { words.new ≡ after_op name.now words.old }
{
    if same(name, b"read") {
        ScriptOp::at(Op::Read {
            lba: lba(words),
            count: count(words),
        })
    } else if same(name, b"write") {
        ScriptOp::at(Op::Write {
            lba: lba(words),
            count: count(words),
            stamp: long(words),
        })
    } else if same(name, b"verify") {
        ScriptOp::at(Op::Verify {
            lba: lba(words),
            count: count(words),
        })
    } else if same(name, b"flush") {
        ScriptOp::at(Op::Flush)
    } else {
        ScriptOp::at(Op::Power)
    }
}

// Takes how often a fault comes, 1 to 100.
fn times(words: &mut Words<'_>) -> u32
    ensures value { result ≡ times_in (first words.old) }
    ensures range { (1 ≤ result) × (result ≤ 100) }
    ensures rest { words.new ≡ later words.old }
{
    number(words, 1, 100) as u32
}

// Takes a sector that 48 bits can name.
fn lba(words: &mut Words<'_>) -> u64
    ensures value { result ≡ lba_in (first words.old) }
    ensures range { result < 2 ^ 48 }
    ensures rest { words.new ≡ later words.old }
{
    number(words, 0, 0xffff_ffff_ffff)
}

// Takes a bit of the SError register.
fn serror(words: &mut Words<'_>) -> SerrorBit
    ensures { result ≡ serror_in (first words.old) }
{
    let word = words.next();
    if same(word, b"data") {
        SerrorBit::Data
    } else if same(word, b"persist") {
        SerrorBit::Persist
    } else if same(word, b"proto") {
        SerrorBit::Proto
    } else if same(word, b"internal") {
        SerrorBit::Internal
    } else if same(word, b"phy") {
        SerrorBit::Phy
    } else {
        SerrorBit::Exch
    }
}

/// Takes a fault.
pub(crate) fn fault(words: &mut Words<'_>) -> ScriptFault
    ensures { result ≡ fault_in (first words.old) (first (later words.old)) }
{
    let name = words.next();
    if same(name, b"media") {
        ScriptFault::at(Fault::Media { lba: lba(words) })
    } else if same(name, b"hang") {
        ScriptFault::at(Fault::Hang { k: times(words) })
    } else if same(name, b"icrc") {
        ScriptFault::at(Fault::Icrc { k: times(words) })
    } else if same(name, b"abort") {
        ScriptFault::at(Fault::Abort { k: times(words) })
    } else if same(name, b"df") {
        ScriptFault::at(Fault::Df { k: times(words) })
    } else if same(name, b"badstat") {
        ScriptFault::at(Fault::BadStat { k: times(words) })
    } else if same(name, b"idnf") {
        ScriptFault::at(Fault::Idnf { k: times(words) })
    } else if same(name, b"logfail") {
        ScriptFault::at(Fault::LogFail { k: times(words) })
    } else if same(name, b"logsum") {
        ScriptFault::at(Fault::LogSum { k: times(words) })
    } else if same(name, b"lognq") {
        ScriptFault::at(Fault::LogNq { k: times(words) })
    } else if same(name, b"logidle") {
        ScriptFault::at(Fault::LogIdle { k: times(words) })
    } else if same(name, b"identfail") {
        ScriptFault::at(Fault::IdentFail { k: times(words) })
    } else {
        ScriptFault::at(Fault::Serr { bit: serror(words) })
    }
}
