ghost use Rattle.std.specs.Prelude.{◌≡◌, ◌≤◌};
ghost use Rattle.ata_trace.specs.Parts.{first};
ghost use Rattle.ata_trace.specs.Reading.{number_in, serror_in};
ghost use Rattle.ata_trace.specs.Told.{second, third};
ghost use Rattle.ata_trace.specs.declared.step.Step.TheVariants.{Inject};
ghost use Rattle.ata_script.specs.Fields.{among};
ghost use Rattle.ata_script.specs.Fields.Field.{OneOf};
ghost use Rattle.ata_script.specs.Forms.{fault_names, fault_fields, serr_names};
ghost use Rattle.ata_script.specs.Taking.{taken, after, inject_step, inject_form_for, fault_of_name};

use crate::fields::Fields;
use crate::step_words::place;
use crate::submit_words::sector;
use ata_base::{Fault, Place, SerrorBit};
use ata_trace::{ScriptFault, Step, same};

/// Takes a step with a fault, from its name on.
pub(crate) fn inject(fields: &mut Fields<'_>) -> Step
    ensures value { result ≡ inject_step fields.old.rest }
    ensures state { fields.new ≡ after (inject_form_for (third fields.old.rest)) fields.old }
{
    fields.small(b"inject");
    let place = place(fields);
    if fields.take(b"media") {
        Step::Inject {
            place,
            fault: ScriptFault::at(Fault::Media {
                lba: sector(fields),
            }),
        }
    } else if fields.take(b"serr") {
        Step::Inject {
            place,
            fault: ScriptFault::at(Fault::Serr {
                bit: serror(fields),
            }),
        }
    } else {
        Step::Inject {
            place,
            fault: counted(fields),
        }
    }
}

// Takes a fault that comes a number of times, from its name on.
fn counted(fields: &mut Fields<'_>) -> ScriptFault
    ensures value { result ≡ fault_of_name (first fields.old.rest) (number_in 1 100 (second fields.old.rest)) }
    ensures state { fields.new ≡ after fault_fields fields.old }
{
    let name = fields.peek();
    fields.choice(is_fault(name));
    fault_of(name, fields.number(1, 100) as u32)
}

// Whether it is the name of such a fault.
fn is_fault(name: &[u8]) -> bool
    ensures { result ≡ among fault_names name.now }
{
    if same(name, b"hang") {
        return true;
    }
    if same(name, b"icrc") {
        return true;
    }
    if same(name, b"abort") {
        return true;
    }
    if same(name, b"df") {
        return true;
    }
    if same(name, b"badstat") {
        return true;
    }
    if same(name, b"idnf") {
        return true;
    }
    if same(name, b"logfail") {
        return true;
    }
    if same(name, b"logsum") {
        return true;
    }
    if same(name, b"lognq") {
        return true;
    }
    if same(name, b"logidle") {
        return true;
    }
    same(name, b"identfail")
}

// The fault of this name that comes k times.
fn fault_of(name: &[u8], k: u32) -> ScriptFault
    requires low { 1 ≤ k }
    requires high { k ≤ 100 }
    ensures { result ≡ fault_of_name name.now k }
{
    if same(name, b"hang") {
        ScriptFault::at(Fault::Hang { k })
    } else if same(name, b"icrc") {
        ScriptFault::at(Fault::Icrc { k })
    } else if same(name, b"abort") {
        ScriptFault::at(Fault::Abort { k })
    } else if same(name, b"df") {
        ScriptFault::at(Fault::Df { k })
    } else if same(name, b"badstat") {
        ScriptFault::at(Fault::BadStat { k })
    } else if same(name, b"idnf") {
        ScriptFault::at(Fault::Idnf { k })
    } else if same(name, b"logfail") {
        ScriptFault::at(Fault::LogFail { k })
    } else if same(name, b"logsum") {
        ScriptFault::at(Fault::LogSum { k })
    } else if same(name, b"lognq") {
        ScriptFault::at(Fault::LogNq { k })
    } else if same(name, b"logidle") {
        ScriptFault::at(Fault::LogIdle { k })
    } else {
        ScriptFault::at(Fault::IdentFail { k })
    }
}

// Takes a bit of the SError register.
fn serror(fields: &mut Fields<'_>) -> SerrorBit
    ensures value { result ≡ serror_in (first fields.old.rest) }
    ensures state { fields.new ≡ taken (OneOf serr_names) fields.old }
{
    let name = fields.peek();
    fields.choice(is_serror(name));
    serror_of(name)
}

// Whether it is the name of such a bit.
fn is_serror(name: &[u8]) -> bool
    ensures { result ≡ among serr_names name.now }
{
    if same(name, b"data") {
        return true;
    }
    if same(name, b"persist") {
        return true;
    }
    if same(name, b"proto") {
        return true;
    }
    if same(name, b"internal") {
        return true;
    }
    if same(name, b"phy") {
        return true;
    }
    same(name, b"exch")
}

// The bit of this name.
fn serror_of(name: &[u8]) -> SerrorBit
    ensures { result ≡ serror_in name.now }
{
    if same(name, b"data") {
        SerrorBit::Data
    } else if same(name, b"persist") {
        SerrorBit::Persist
    } else if same(name, b"proto") {
        SerrorBit::Proto
    } else if same(name, b"internal") {
        SerrorBit::Internal
    } else if same(name, b"phy") {
        SerrorBit::Phy
    } else {
        SerrorBit::Exch
    }
}
