ghost use Rattle.std.specs.Prelude.{◌≡◌, ◌≤◌, ◌↔◌, IsSome, IfSome, IsTrue};
ghost use Rattle.ata_trace.specs.ScriptRanges.{IsScriptFault};

use ata_base::Fault;
use std::marker::Model;

/// A fault as a script may put it in: a bad sector is 0 to 2^48 minus 1, and a fault that comes
/// several times comes 1 to 100 times. A contract sees it as the fault.
#[derive(Clone, Copy, Debug, PartialEq, Eq)]
pub struct ScriptFault {
    fault: Fault,
}

impl Model for ScriptFault {
    ghost use Rattle.ata_base.specs.declared.fault.Fault.{Fault};
    ghost use Rattle.ata_trace.specs.ScriptRanges.{IsScriptFault};

    ghost Value = { Fault };

    ghost view = { λ s. s.fault };

    ghost invariant = { λ s. IsScriptFault s.fault };

    ghost inverse = { λ fault. record { fault = fault } };
}

impl ScriptFault {
    /// The fault as a script's; `None` exactly where its sector is 2^48 or more, or it comes 0 times
    /// or more than 100.
    pub fn new(fault: Fault) -> Option<Self>
        ensures found { IsSome result ↔ IsScriptFault fault }
        ensures value { IfSome result (λ s. s ≡ fault) }
    {
        if is_in_range(&fault) {
            Some(ScriptFault { fault })
        } else {
            None
        }
    }

    /// The fault as a script's. Its numbers have to be in their ranges, as above.
    pub fn at(fault: Fault) -> Self
        requires { IsScriptFault fault }
        ensures { result ≡ fault }
    {
        ScriptFault { fault }
    }

    /// The fault. Its sector is 0 to 2^48 minus 1, and it comes 1 to 100 times.
    pub fn get(&self) -> Fault
        ensures value { result ≡ self.now }
        ensures range { IsScriptFault result }
    {
        self.fault
    }
}

// Whether the numbers of a fault are in a script's ranges.
fn is_in_range(fault: &Fault) -> bool
    ensures { IsTrue result ↔ IsScriptFault fault.now }
{
    match fault {
        Fault::Media { lba } => *lba < 1 << 48,
        Fault::Hang { k } => are_times(*k),
        Fault::Icrc { k } => are_times(*k),
        Fault::Abort { k } => are_times(*k),
        Fault::Df { k } => are_times(*k),
        Fault::BadStat { k } => are_times(*k),
        Fault::Idnf { k } => are_times(*k),
        Fault::LogFail { k } => are_times(*k),
        Fault::LogSum { k } => are_times(*k),
        Fault::LogNq { k } => are_times(*k),
        Fault::LogIdle { k } => are_times(*k),
        Fault::IdentFail { k } => are_times(*k),
        Fault::Serr { .. } => true,
    }
}

// Whether a fault may come so often.
fn are_times(k: u32) -> bool
    ensures { IsTrue result ↔ ((1 ≤ k) × (k ≤ 100)) }
{
    k >= 1 && k <= 100
}
