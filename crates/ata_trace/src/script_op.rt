ghost use Rattle.std.specs.Prelude.{◌≡◌, ◌↔◌, IsSome, IfSome};
ghost use Rattle.ata_trace.specs.ScriptRanges.{IsScriptOp};

use ata_base::Op;
use std::marker::Model;

/// An operation as a script may ask for it: its first sector is 0 to 2^48 minus 1.
/// A contract sees it as the operation.
///
/// Its fields stand in order of size, so that a step takes 40 bytes; what an operation doesn't have is 0.
#[derive(Clone, Copy, Debug, PartialEq, Eq)]
pub struct ScriptOp {
    lba: u64,
    stamp: u64,
    count: u16,
    kind: Kind,
}

// Which operation it is.
#[derive(Clone, Copy, Debug, PartialEq, Eq)]
pub(crate) enum Kind {
    Read,
    Write,
    Verify,
    Flush,
    Power,
}

impl Model for ScriptOp {
    ghost use Rattle.ata_base.specs.declared.op.Op.{Op};
    ghost use Rattle.ata_trace.specs.ScriptParts.{operation, kind_of, lba_of, count_of, stamp_of, AreParts, kind_back};

    ghost Value = { Op };

    ghost view = { λ s. operation s.kind s.lba s.count s.stamp };

    ghost invariant = { λ s. AreParts s.kind s.lba s.count s.stamp };

    ghost inverse = { λ op. record { lba = lba_of op; stamp = stamp_of op; count = count_of op; kind = kind_of op } };

    ghost inverse_ok = { λ s h i. record {
      lba = h.1 i;
      stamp = h.3 i;
      count = h.2 i;
      kind = kind_back s.kind s.lba s.count s.stamp i;
    } };
}

impl ScriptOp {
    /// The operation as a script's; `None` exactly where its first sector is 2^48 or more.
    pub fn new(op: Op) -> Option<Self>
        ensures found { IsSome result ↔ IsScriptOp op }
        ensures value { IfSome result (λ s. s ≡ op) }
    {
        let lba = match op {
            Op::Read { lba, .. } => lba,
            Op::Write { lba, .. } => lba,
            Op::Verify { lba, .. } => lba,
            Op::Flush => 0,
            Op::Power => 0,
        };
        if lba < 1 << 48 {
            Some(ScriptOp::at(op))
        } else {
            None
        }
    }

    /// The operation as a script's. Its first sector has to be below 2^48.
    pub fn at(op: Op) -> Self
        requires { IsScriptOp op }
        ensures { result ≡ op }
    {
        match op {
            Op::Read { lba, count } => ScriptOp {
                lba,
                stamp: 0,
                count,
                kind: Kind::Read,
            },
            Op::Write { lba, count, stamp } => ScriptOp {
                lba,
                stamp,
                count,
                kind: Kind::Write,
            },
            Op::Verify { lba, count } => ScriptOp {
                lba,
                stamp: 0,
                count,
                kind: Kind::Verify,
            },
            Op::Flush => ScriptOp {
                lba: 0,
                stamp: 0,
                count: 0,
                kind: Kind::Flush,
            },
            Op::Power => ScriptOp {
                lba: 0,
                stamp: 0,
                count: 0,
                kind: Kind::Power,
            },
        }
    }

    /// The operation. Its first sector is 0 to 2^48 minus 1.
    pub fn get(&self) -> Op
        ensures value { result ≡ self.now }
        ensures range { IsScriptOp result }
    {
        let (lba, count, stamp) = (self.lba, self.count, self.stamp);
        match self.kind {
            Kind::Read => Op::Read { lba, count },
            Kind::Write => Op::Write { lba, count, stamp },
            Kind::Verify => Op::Verify { lba, count },
            Kind::Flush => Op::Flush,
            Kind::Power => Op::Power,
        }
    }
}
