ghost use Rattle.std.specs.Prelude.{◌≡◌, ℕ, ◌≤◌, ◌↔◌, length, IsTrue, IsBitSet, IfSome};
ghost use Rattle.link_model.specs.LinkView.{IsGeneration};
ghost use Rattle.pmp_model.specs.Gscr.{gscr, IsPortCount, has_error, has_error_at, error_information};
ghost use Rattle.pmp_model.specs.Pscr.{pscr};

use ata_base::mask_of;
use link_model::Link;
use std::marker::Model;

/// GSCR[0], product and vendor (Serial ATA 3.x, Port Multiplier).
const PRODUCT_AND_VENDOR: u32 = 0x0001_0001;

/// A port multiplier, whose device ports are the places from 0 on.
/// A contract sees it as the number of its places.
#[derive(Clone, Copy, Debug, PartialEq, Eq)]
pub struct Pmp {
    places: u8,
}

impl Model for Pmp {
    ghost use Rattle.std.specs.Prelude.{ℕ};
    ghost use Rattle.pmp_model.specs.Gscr.{IsPortCount};

    ghost Value = { ℕ };

    ghost view = { λ p. p.places };

    ghost invariant = { λ p. IsPortCount p.places };

    ghost inverse = { λ n. record { places = n } };
}

impl Pmp {
    /// A port multiplier with so many places, 1 to 15.
    pub fn new(places: u8) -> Pmp
        requires { IsPortCount places }
        ensures { result ≡ places }
    {
        Pmp { places }
    }

    /// A general register (Serial ATA 3.x, Port Multiplier, General Status and Control Registers), `links`
    /// being those of its places in order: 0 is product and vendor, 2 the port count, 32 the error
    /// information by port. None exactly for other numbers.
    pub fn gscr(&self, reg: u16, links: &[Link]) -> Option<u32>
        requires { length links.now ≡ self.now }
        ensures value { result ≡ gscr self.now links.now reg }
        ensures errors { reg ≡ 32
            → IfSome result (λ bits. (i : ℕ) → IsBitSet bits i ↔ IsTrue (has_error_at links.now i)) }
    {
        match reg {
            0 => Some(PRODUCT_AND_VENDOR),
            2 => Some(u32::from(self.places)),
            32 => Some(error_information(links)),
            _ => None,
        }
    }

    /// A register of the device port whose link is `link` and whose drive is of the generation `gen_no`, 1
    /// to 3 (Serial ATA 3.x, Port Multiplier, Port Status and Control Registers): 0 is SStatus, 1 SError,
    /// 2 SControl. None exactly for other numbers.
    pub fn pscr(&self, reg: u16, link: &Link, gen_no: u8) -> Option<u32>
        requires { IsGeneration gen_no }
        ensures { result ≡ pscr link.now gen_no reg }
    {
        match reg {
            0 => Some(link.sstatus(gen_no)),
            1 => Some(link.serror()),
            2 => Some(u32::from(link.limit()) << 4),
            _ => None,
        }
    }
}

/// Which of these links have an error: bit i stands for place i.
fn error_information(links: &[Link]) -> u32
    requires { length links.now ≤ 15 }
    ensures value { result ≡ error_information links.now }
    ensures bits { (i : ℕ) → IsBitSet result i ↔ IsTrue (has_error_at links.now i) }
{
    mask_of(links, |link| has_error(link))
}

/// Whether SError tells of anything at a link.
fn has_error(link: &Link) -> bool
    ensures { result ≡ has_error link.now }
{
    link.serror() != 0
}
