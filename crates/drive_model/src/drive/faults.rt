ghost use Rattle.std.specs.Prelude.{◌≡◌, ◌+◌, nat_lt, if◌then◌else◌};
ghost use Rattle.drive_model.specs.Inject.{has_room, can_inject, injected};
ghost use Rattle.ata_base.specs.declared.fault.Fault.TheVariants.{Media};

use super::Drive;
use ata_base::Fault;

impl Drive {
    /// Puts a fault into the drive: a sector is bad from now on, or the count of a fault grows. False exactly for a bit
    /// of SError, for a sector that isn't on the drive, and where the count would pass 4,294,967,295; then nothing
    /// changes.
    pub fn inject(&mut self, f: &Fault) -> bool
        ensures done { result ≡ can_inject f.now self.old.drive }
        ensures drive { self.new.drive ≡ (if result then injected f.now self.old.drive else self.old.drive) }
        ensures spare { self.new.spare ≡ self.old.spare }
    {
        match *f {
            Fault::Media { lba } => self.spoil(lba),
            Fault::Hang { k } => raise(&mut self.counts.hang, k),
            Fault::Icrc { k } => raise(&mut self.counts.icrc, k),
            Fault::Abort { k } => raise(&mut self.counts.abort, k),
            Fault::Df { k } => raise(&mut self.counts.df, k),
            Fault::BadStat { k } => raise(&mut self.counts.bad_stat, k),
            Fault::Idnf { k } => raise(&mut self.counts.idnf, k),
            Fault::LogFail { k } => raise(&mut self.counts.log_fail, k),
            Fault::LogSum { k } => raise(&mut self.counts.log_sum, k),
            Fault::LogNq { k } => raise(&mut self.counts.log_nq, k),
            Fault::LogIdle { k } => raise(&mut self.counts.log_idle, k),
            Fault::IdentFail { k } => raise(&mut self.counts.ident_fail, k),
            Fault::Serr { .. } => false,
        }
    }

    /// Whether `inject` would put this fault into the drive; nothing changes.
    pub fn can_inject(&self, f: &Fault) -> bool
        ensures { result ≡ can_inject f.now self.now.drive }
    {
        match *f {
            Fault::Media { lba } => lba < self.identity.sectors,
            Fault::Hang { k } => has_room(self.counts.hang, k),
            Fault::Icrc { k } => has_room(self.counts.icrc, k),
            Fault::Abort { k } => has_room(self.counts.abort, k),
            Fault::Df { k } => has_room(self.counts.df, k),
            Fault::BadStat { k } => has_room(self.counts.bad_stat, k),
            Fault::Idnf { k } => has_room(self.counts.idnf, k),
            Fault::LogFail { k } => has_room(self.counts.log_fail, k),
            Fault::LogSum { k } => has_room(self.counts.log_sum, k),
            Fault::LogNq { k } => has_room(self.counts.log_nq, k),
            Fault::LogIdle { k } => has_room(self.counts.log_idle, k),
            Fault::IdentFail { k } => has_room(self.counts.ident_fail, k),
            Fault::Serr { .. } => false,
        }
    }

    fn spoil(&mut self, lba: u64) -> bool
        ensures done { result ≡ nat_lt lba self.old.drive.identity.sectors }
        ensures drive { self.new.drive ≡ (if result then injected (Media lba) self.old.drive else self.old.drive) }
        ensures spare { self.new.spare ≡ self.old.spare }
    {
        if lba >= self.identity.sectors {
            return false;
        }
        self.sectors.spoil(lba);
        true
    }
}

/// Whether a count and `k` together are at most 4,294,967,295.
fn has_room(count: u32, k: u32) -> bool
    ensures { result ≡ has_room count k }
{
    u64::from(count) + u64::from(k) <= u64::from(u32::MAX)
}

/// A count grows by `k`, if there is room for that.
fn raise(count: &mut u32, k: u32) -> bool
    ensures done { result ≡ has_room count.old k }
    ensures count { count.new ≡ (if result then count.old + k else count.old) }
{
    match count.checked_add(k) {
        Some(sum) => {
            *count = sum;
            true
        }
        None => false,
    }
}
