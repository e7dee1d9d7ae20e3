ghost use Rattle.std.specs.Prelude.{◌≡◌, ◌+◌, ◌<◌, ◌≤◌, false, length, replicate, slice_index, IfOk, IfSome, if◌then◌else◌};
ghost use Rattle.drive_model.specs.Sectors.{IsShort, written, stored, healed, found, stamps_read, least_bad, spoiled};

use crate::marks::Marks;
use crate::sector_stamps::SectorStamps;
use ata_base::{Op, OutOfMemory, Stamps};
use std::alloc::Global;
use std::marker::Model;

/// The sectors of a drive, by number: the stamp of each, and whether it is bad. A sector past the end has the stamp 0,
/// is good, and isn't written.
#[derive(Drop)]
pub struct Sectors {
    stamps: SectorStamps,
    bad: Marks,
}

impl Model for Sectors {
    ghost use Rattle.std.specs.Prelude.{◌≡◌, length};
    ghost use Rattle.drive_model.specs.Sectors.{SectorsView};

    ghost Value = { SectorsView };

    ghost view = { λ s. record { stamps = s.stamps; bad = s.bad } };

    ghost invariant = { λ s. length s.bad ≡ length s.stamps };
}

impl Sectors {
    /// So many good sectors with the stamp 0.
    pub fn new(alloc: Global, count: u64) -> Result<Sectors, OutOfMemory>
        ensures stamps { IfOk result (λ s. s.stamps ≡ replicate count 0) }
        ensures bad { IfOk result (λ s. s.bad ≡ replicate count false) }
    {
        let stamps = SectorStamps::new(alloc, count as usize)?;
        let bad = Marks::new(alloc, count as usize)?;
        Ok(Sectors { stamps, bad })
    }

    /// The least bad sector among so many from there on, `None` where each is good.
    pub fn least_bad(&self, lba: u64, count: u16) -> Option<u64>
        ensures value { result ≡ least_bad lba count self.now.bad }
        ensures within { IfSome result (λ bad. bad < length self.now.bad) }
    {
        for step in 0..count {
            let at = lba.saturating_add(u64::from(step));
            if at < self.stamps.len() as u64 && self.bad.get(at as usize) {
                return Some(at);
            }
        }
        None
    }

    /// The stamps that an operation reads: those of a read's sectors, and none for every other operation.
    pub fn read(&self, op: &Op) -> Stamps
        requires { IsShort op.now }
        ensures { result ≡ stamps_read op.now self.now.stamps }
    {
        match *op {
            Op::Read { lba, count } => found(&self.stamps, lba, count),
            _ => Stamps::new(),
        }
    }

    /// A write that ends well gives its stamp to each of its sectors and makes them good. Nothing else changes them.
    pub fn store(&mut self, op: &Op, well: bool)
        ensures stamps { self.new.stamps ≡ (if well then stored op.now self.old.stamps else self.old.stamps) }
        ensures bad { self.new.bad ≡ (if well then healed op.now self.old.bad else self.old.bad) }
        ensures size { length self.new.bad ≡ length self.old.bad }
    {
        if well {
            store(&mut self.stamps, op);
            heal(&mut self.bad, op);
        }
    }

    /// A sector is bad from now on, if it is on the drive.
    pub fn spoil(&mut self, lba: u64)
        ensures stamps { self.new.stamps ≡ self.old.stamps }
        ensures bad { self.new.bad ≡ spoiled lba self.old.bad }
        ensures size { length self.new.bad ≡ length self.old.bad }
    {
        if lba < self.stamps.len() as u64 {
            self.bad.put(lba as usize, true);
        }
    }
}

/// The stamps of so many sectors from there on, 0 past the end.
fn found(stamps: &SectorStamps, lba: u64, count: u16) -> Stamps
    requires { count ≤ 16 }
    ensures { result ≡ found lba count stamps.now }
{
    let mut given = Stamps::new();
    for step in 0..count {
        given.push(stamp_at(stamps, lba, step));
    }
    given
}

/// The stamp of the sector so many further on, 0 past the end.
fn stamp_at(stamps: &SectorStamps, lba: u64, step: u16) -> u64
    ensures { result ≡ slice_index stamps.now (lba + step) }
{
    let at = lba.saturating_add(u64::from(step));
    if at < stamps.len() as u64 {
        stamps.get(at as usize)
    } else {
        0
    }
}

/// A write gives its stamp to each of its sectors.
fn store(stamps: &mut SectorStamps, op: &Op)
    ensures stamps { stamps.new ≡ stored op.now stamps.old }
    ensures size { length stamps.new ≡ length stamps.old }
{
    if let Op::Write { lba, count, stamp } = *op {
        write(stamps, lba, count, stamp);
    }
}

/// So many sectors from there on get this stamp.
#[tactic(auto, using(crate::proofs::Written::written_more, crate::proofs::Written::written_past, crate::proofs::Written::written_none))]
fn write(stamps: &mut SectorStamps, lba: u64, count: u16, stamp: u64)
    ensures stamps { stamps.new ≡ written lba count stamp stamps.old }
    ensures size { length stamps.new ≡ length stamps.old }
{
    for step in 0..count {
        let at = lba.saturating_add(u64::from(step)) as usize;
        if at < stamps.len() {
            stamps.put(at, stamp);
        }
    }
}

/// A write makes each of its sectors good.
fn heal(bad: &mut Marks, op: &Op)
    ensures marks { bad.new ≡ healed op.now bad.old }
    ensures size { length bad.new ≡ length bad.old }
{
    if let Op::Write { lba, count, .. } = *op {
        mend(bad, lba, count);
    }
}

/// So many sectors from there on are good.
#[tactic(auto, using(crate::proofs::Written::written_more, crate::proofs::Written::written_past, crate::proofs::Written::written_none))]
fn mend(bad: &mut Marks, lba: u64, count: u16)
    ensures marks { bad.new ≡ written lba count false bad.old }
    ensures size { length bad.new ≡ length bad.old }
{
    for step in 0..count {
        let at = lba.saturating_add(u64::from(step)) as usize;
        if at < bad.len() {
            bad.put(at, false);
        }
    }
}
