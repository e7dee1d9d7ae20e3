ghost use Rattle.std.specs.Prelude.{◌≡◌, ◌<◌, is_none, IfNone, OnSome, None, Some};
ghost use Rattle.std.specs.Bool.{OnTrue, OnFalse};

use ata_base::{DriveNo, SerrorBit};
use std::marker::Model;

/// DET of SStatus: a device is present and communicates (Serial ATA 3.x, SStatus register).
const DET_COMMUNICATING: u32 = 3;

/// IPM of SStatus: the interface is active (Serial ATA 3.x, SStatus register).
const IPM_ACTIVE: u32 = 1;

/// The link of a place to its drive.
/// A contract sees it as the drive that is plugged, whether it is linked, the SError register and the
/// speed limit.
#[derive(Clone, Copy, Debug, PartialEq, Eq)]
pub struct Link {
    plugged: Option<DriveNo>,
    linked: bool,
    serror: u32,
    limit: u8,
}

impl Model for Link {
    ghost use Rattle.link_model.specs.LinkView.{LinkView, IsGeneration};

    ghost Value = { LinkView };

    ghost view = { λ l. record { plugged = l.plugged; linked = l.linked; serror = l.serror; limit = l.limit } };

    ghost invariant = { λ l. IsGeneration l.limit };

    ghost inverse = { λ l. record { plugged = l.plugged; linked = l.linked; serror = l.serror; limit = l.limit } };
}

impl Link {
    ghost use Rattle.link_model.specs.LinkView.{empty_link, IsGeneration, linked_drive, with_serror, with_plugged, after_reset};
    ghost use Rattle.link_model.specs.SStatus.{sstatus};

    /// No drive is plugged, SError is 0, and the limit is the highest generation, 3.
    pub fn new() -> Link
        ensures { result ≡ empty_link }
    {
        Link {
            plugged: None,
            linked: false,
            serror: 0,
            limit: 3,
        }
    }

    /// Plugs a drive, which a reset has to link. SError gets its bit 16, PhyRdy change. False exactly
    /// where a drive is plugged already; then nothing changes.
    pub fn plug(&mut self, d: DriveNo) -> bool
        ensures told { result ≡ is_none self.old.plugged }
        ensures plugged { OnTrue result (self.new ≡ with_plugged (Some d) self.old) }
        ensures occupied { OnFalse result (self.new ≡ self.old) }
    {
        if self.plugged.is_some() {
            return false;
        }
        self.set_plugged(Some(d));
        true
    }

    /// Unplugs the drive, which is answered. The link ends, and SError gets its bit 16, PhyRdy change.
    /// None exactly where no drive is plugged; then nothing changes.
    pub fn unplug(&mut self) -> Option<DriveNo>
        ensures drive { result ≡ self.old.plugged }
        ensures unplugged { OnSome result (self.new ≡ with_plugged None self.old) }
        ensures empty { IfNone result (self.new ≡ self.old) }
    {
        let drive = self.plugged?;
        self.set_plugged(None);
        Some(drive)
    }

    /// This drive is plugged from now on, None where none is: the link ends, and SError gets its bit 16, PhyRdy change.
    pub fn set_plugged(&mut self, drive: Option<DriveNo>)
        ensures { self.new ≡ with_plugged drive self.old }
    {
        self.plugged = drive;
        self.linked = false;
        self.set_serror(SerrorBit::Phy.bit());
    }

    /// A reset of the place begins: a plugged drive is linked from now on.
    pub fn begin_reset(&mut self)
        ensures { self.new ≡ after_reset self.old }
    {
        self.linked = self.plugged.is_some();
    }

    /// The drive that is linked, None exactly where none is.
    pub fn linked(&self) -> Option<DriveNo>
        ensures { result ≡ linked_drive self.now }
    {
        if self.linked { self.plugged } else { None }
    }

    /// The drive that is plugged, None exactly where none is.
    pub fn plugged(&self) -> Option<DriveNo>
        ensures { result ≡ self.now.plugged }
    {
        self.plugged
    }

    /// Sets a bit of the SError register (Serial ATA 3.x, SError register), 0 to 31.
    pub fn set_serror(&mut self, bit: u8)
        requires { bit < 32 }
        ensures { self.new ≡ with_serror bit self.old }
    {
        self.serror |= 1 << bit;
    }

    /// The SError register (Serial ATA 3.x, SError register).
    pub fn serror(&self) -> u32
        ensures { result ≡ self.now.serror }
    {
        self.serror
    }

    /// The SError register as it was; afterwards it is 0.
    pub fn take_serror(&mut self) -> u32
        ensures value { result ≡ self.old.serror }
        ensures cleared { self.new ≡ record self.old { serror = 0 } }
    {
        let serror = self.serror;
        self.serror = 0;
        serror
    }

    /// The speed limit, as the number of a generation, 1 to 3.
    pub fn limit(&self) -> u8
        ensures value { result ≡ self.now.limit }
        ensures range { IsGeneration result }
    {
        self.limit
    }

    /// Sets the speed limit to the generation `g`, 1 to 3.
    pub fn set_limit(&mut self, g: u8)
        requires { IsGeneration g }
        ensures { self.new ≡ record self.old { limit = g } }
    {
        self.limit = g;
    }

    /// The SStatus register (Serial ATA 3.x, SStatus register) where the linked drive is of the generation
    /// `gen_no`, 1 to 3. It is 0 exactly where no drive is linked.
    pub fn sstatus(&self, gen_no: u8) -> u32
        requires { IsGeneration gen_no }
        ensures { result ≡ sstatus self.now gen_no }
    {
        if self.linked().is_none() {
            return 0;
        }
        let speed = gen_no.min(self.limit);
        DET_COMMUNICATING + (u32::from(speed) << 4) + (IPM_ACTIVE << 8)
    }
}
