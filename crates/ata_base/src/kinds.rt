ghost use Rattle.std.specs.Prelude.{◌≡◌, ◌-◌, ◌^◌};
ghost use Rattle.std.specs.Int.RustNames.{bit_and, bit_or};
ghost use Rattle.ata_base.specs.Kinds.{AllKnown};

use crate::err_mask::ErrMask;
use bitflags::Flags;
use std::marker::Model;

/// A set of the eleven kinds of error: no other bit stands. A contract sees it as its mask.
#[derive(Clone, Copy, Debug, PartialEq, Eq)]
pub struct Kinds {
    mask: ErrMask,
}

impl Model for Kinds {
    ghost use Rattle.ata_base.specs.declared.err_mask.ErrMask.{ErrMask};
    ghost use Rattle.ata_base.specs.Kinds.{AllKnown};

    ghost Value = { ErrMask };

    ghost view = { λ kinds. kinds.mask };

    ghost invariant = { λ kinds. AllKnown kinds.mask.0 };

    ghost inverse = { λ mask. record { mask = mask } };
}

impl Kinds {
    /// No kind.
    pub fn none() -> Self
        ensures { result.0 ≡ 0 }
    {
        Kinds {
            mask: ErrMask::empty(),
        }
    }

    /// These kinds. No bit stands in `mask` but those of the eleven kinds.
    pub fn at(mask: ErrMask) -> Self
        requires { AllKnown mask.0 }
        ensures { result ≡ mask }
    {
        Kinds { mask }
    }

    /// Its mask, in which no other bit stands.
    pub fn mask(&self) -> ErrMask
        ensures value { result ≡ self.now }
        ensures known { AllKnown result.0 }
    {
        self.mask
    }

    /// The kinds of both.
    pub fn union(self, other: Kinds) -> Self
        ensures { result.0 ≡ bit_or self.0 other.0 }
    {
        Kinds {
            mask: self.mask.union(other.mask),
        }
    }

    /// These kinds but those of `gone`.
    pub fn without(self, gone: ErrMask) -> Self
        ensures { result.0 ≡ bit_and self.0 (2 ^ 16 - 1 - gone.0) }
    {
        let mut mask = self.mask;
        mask.remove(gone);
        Kinds { mask }
    }
}
