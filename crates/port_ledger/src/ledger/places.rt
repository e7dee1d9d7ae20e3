ghost use Rattle.std.specs.Prelude.{◌≡◌, ◌==◌, ◌+◌, ◌<◌, ◌^◌, false, None, option_map, option_and_then, slice_index, slice_index_or};
ghost use Rattle.std.specs.List.{list_any};
ghost use Rattle.std.specs.Option.{option_copied, option_map_or};
ghost use Rattle.eh_reval.specs.Probes.{no_probes};
ghost use Rattle.link_model.specs.LinkView.{IsGeneration};
ghost use Rattle.port_past.specs.Attachment.{attached};
ghost use Rattle.port_past.specs.Causes.{tferr};
ghost use Rattle.port_past.specs.Doubt.{dubious};
ghost use Rattle.port_past.specs.Drives.{drive_at, plugged_drive};
ghost use Rattle.port_past.specs.Hot.{probes, was_hot};
ghost use Rattle.port_past.specs.IdentAnswers.{is_ident_answered};
ghost use Rattle.port_past.specs.Identified.{identified_by, generation_at, speed_at};
ghost use Rattle.port_past.specs.Identities.{identity_at, sectors_at, depth_at};
ghost use Rattle.port_past.specs.Links.{links, link_at, linked_at, plugged_at};
ghost use Rattle.port_past.specs.Logs.{logs};
ghost use Rattle.port_past.specs.Lowerings.{lowerings, ncq_ended};
ghost use Rattle.port_past.specs.Modes.{udmas, ncq_on};
ghost use Rattle.port_past.specs.PlaceTold.{place_told, ident_lates};
ghost use Rattle.port_past.specs.declared.place_told.PlaceTold.TheVariants.{NotBegun};
ghost use Rattle.port_past.specs.Noted.{tferr_noted};
ghost use Rattle.port_past.specs.Rings.{no_entries, rings};
ghost use Rattle.port_past.specs.Tasks.{actions};
ghost use Rattle.port_ledger.specs.DriveParts.{drive_of};
ghost use Rattle.port_ledger.specs.LedgerView.{past};
ghost use Rattle.port_past.specs.Heads.{identity_of};

use super::Ledger;
use crate::links;
use ata_base::{DriveNo, LinkAction, Place};
use ata_script::DriveHead;
use drive_model::{Drive, LogTold};
use eh_autopsy::FailedIssue;
use eh_reval::ProbeTimes;
use eh_ring::Ring;
use port_past::{IdentityTold, PlaceTold};

// What is asked of a place.
impl Ledger {
    /// Whether a device is attached.
    pub fn is_attached(&self, place: Place) -> bool
        ensures { result ≡ slice_index_or (attached (past self.now)) place false }
    {
        self.attachments.attached[place.get() as usize]
    }

    /// The failed issue that set TFERR, None exactly where TFERR doesn't stand.
    pub fn tferr(&self, place: Place) -> Option<FailedIssue>
        ensures { result ≡ slice_index_or (tferr (past self.now)) place None }
    {
        self.causes.tferr[place.get() as usize]
    }

    /// The failed issue that is noted.
    pub fn tferr_noted(&self, place: Place) -> Option<FailedIssue>
        ensures { result ≡ slice_index_or (tferr_noted (past self.now)) place None }
    {
        self.eh.noted[place.get() as usize]
    }

    /// The error ring, lent.
    pub fn ring(&self, place: Place) -> &Ring
        ensures { result.now ≡ slice_index_or (rings (past self.now)) place no_entries }
    {
        self.eh.rings.get(place)
    }

    /// What recovery told last.
    pub fn place_told(&self, place: Place) -> PlaceTold
        ensures { result ≡ slice_index_or (place_told (past self.now)) place NotBegun }
    {
        self.eh.recovery.places[place.get() as usize]
    }

    /// How often the identity was late in this recovery.
    pub fn ident_lates(&self, place: Place) -> u64
        ensures value { result ≡ slice_index (ident_lates (past self.now)) place }
        ensures room { result + self.now.room < 2 ^ 64 }
    {
        self.eh.recovery.ident_lates[place.get() as usize]
    }

    /// Whether a hotplug was told in this recovery.
    pub fn was_hot(&self, place: Place) -> bool
        ensures { result ≡ slice_index_or (was_hot (past self.now)) place false }
    {
        self.eh.recovery.was_hot[place.get() as usize]
    }

    /// What this recovery does, as its action told.
    pub fn action(&self, place: Place) -> Option<LinkAction>
        ensures { result ≡ slice_index_or (actions (past self.now)) place None }
    {
        self.eh.recovery.actions[place.get() as usize]
    }

    /// What the log told in this recovery.
    pub fn log(&self, place: Place) -> Option<LogTold>
        ensures { result ≡ slice_index_or (logs (past self.now)) place None }
    {
        self.eh.recovery.logs[place.get() as usize]
    }

    /// The times of the last two hotplugs.
    pub fn probes(&self, place: Place) -> ProbeTimes
        ensures { result ≡ slice_index_or (probes (past self.now)) place no_probes }
    {
        self.eh.probes[place.get() as usize]
    }

    /// The UDMA mode.
    pub fn udma(&self, place: Place) -> u8
        ensures { result ≡ slice_index (udmas (past self.now)) place }
    {
        self.modes.udmas[place.get() as usize]
    }

    /// Whether NCQ is on.
    pub fn is_ncq_on(&self, place: Place) -> bool
        ensures { result ≡ slice_index_or (ncq_on (past self.now)) place false }
    {
        self.modes.ncq_on[place.get() as usize]
    }

    /// Whether the device is dubious.
    pub fn is_dubious(&self, place: Place) -> bool
        ensures { result ≡ slice_index_or (dubious (past self.now)) place false }
    {
        self.modes.dubious[place.get() as usize]
    }

    /// How often the mode was lowered since the device was attached.
    pub fn lowerings(&self, place: Place) -> u64
        ensures value { result ≡ slice_index (lowerings (past self.now)) place }
        ensures room { result + self.now.room < 2 ^ 64 }
    {
        self.modes.lowerings[place.get() as usize]
    }

    /// Whether NCQ was ended since the device was attached.
    pub fn is_ncq_ended(&self, place: Place) -> bool
        ensures { result ≡ slice_index_or (ncq_ended (past self.now)) place false }
    {
        self.modes.ncq_ended[place.get() as usize]
    }

    /// What the last identity told, lent.
    pub fn identity(&self, place: Place) -> &Option<IdentityTold>
        ensures { result.now ≡ identity_at (past self.now) place }
    {
        self.eh.identities.get(place)
    }

    /// How many sectors the device has; 0 where none was identified.
    pub fn sectors(&self, place: Place) -> u64
        ensures { result ≡ sectors_at (past self.now) place }
    {
        match self.eh.identities.get(place) {
            Some(identity) => identity.sectors,
            None => 0,
        }
    }

    /// The depth of the device's queue, 0 without NCQ.
    pub fn depth(&self, place: Place) -> u8
        ensures { result ≡ depth_at (past self.now) place }
    {
        match self.eh.identities.get(place) {
            Some(identity) => identity.depth,
            None => 0,
        }
    }

    /// The number of the drive that gave the last identity.
    pub fn identified_by(&self, place: Place) -> Option<DriveNo>
        ensures { result ≡ slice_index_or (identified_by self.now.head (past self.now)) place None }
    {
        self.eh.identified_by[place.get() as usize]
    }

    /// Whether the drive would answer the last asking for its identity.
    pub fn is_ident_answered(&self, place: Place) -> bool
        ensures { result ≡ slice_index_or (is_ident_answered self.now.head (past self.now)) place false }
    {
        self.eh.ident_answered[place.get() as usize]
    }

    /// The generation of the device, 0 where none was identified.
    pub fn generation(&self, place: Place) -> u8
        ensures { result ≡ generation_at self.now.head (past self.now) place }
    {
        generation_of(self.head.drives.items(), self.identified_by(place))
    }

    /// The present speed: the lesser of the limit and the generation of the device.
    pub fn speed(&self, place: Place) -> u8
        ensures { result ≡ speed_at self.now.head (past self.now) place }
    {
        self.limit(place).min(self.generation(place))
    }

    /// The drive that is linked, lent.
    pub fn drive(&self, place: Place) -> Option<&Drive>
        ensures { option_map drive_of (option_copied result) ≡ drive_at self.now.head (past self.now) place }
    {
        self.drives.get(links::linked_at(&self.links, place))
    }

    /// The drive that is plugged, lent.
    pub fn plugged_drive(&self, place: Place) -> Option<&Drive>
        ensures { option_map drive_of (option_copied result) ≡ plugged_drive self.now.head (past self.now) place }
    {
        self.drives.get(links::plugged_at(&self.links, place))
    }

    /// Whether a drive is plugged somewhere.
    pub fn is_plugged(&self, drive: DriveNo) -> bool
        ensures { result ≡ list_any (λ link. option_map_or (λ d. d == drive) link.plugged false) (links self.now.head (past self.now)) }
    {
        links::is_plugged(&self.links, drive)
    }

    /// The number of the drive that is plugged.
    pub fn plugged(&self, place: Place) -> Option<DriveNo>
        ensures { result ≡ plugged_at (links self.now.head (past self.now)) place }
    {
        links::plugged_at(&self.links, place)
    }

    /// The number of the drive that is linked.
    pub fn linked(&self, place: Place) -> Option<DriveNo>
        ensures { result ≡ linked_at (links self.now.head (past self.now)) place }
    {
        links::linked_at(&self.links, place)
    }

    /// The SError register (Serial ATA 3.x, SError register).
    pub fn serror(&self, place: Place) -> u32
        ensures { result ≡ (link_at (links self.now.head (past self.now)) place).serror }
    {
        self.links[place.get() as usize].serror()
    }

    /// The speed limit of the link, as the number of a generation, 1 to 3.
    pub fn limit(&self, place: Place) -> u8
        ensures value { result ≡ (link_at (links self.now.head (past self.now)) place).limit }
        ensures range { IsGeneration result }
    {
        self.links[place.get() as usize].limit()
    }
}

/// The generation of the drive of this number, 0 where there is none.
fn generation_of(drives: &[DriveHead], number: Option<DriveNo>) -> u8
    ensures { result ≡ option_map_or (λ i. i.gen_no) (option_and_then (identity_of drives.now) number) 0 }
{
    match number {
        Some(d) if (d.get() as usize) < drives.len() => drives[d.get() as usize].identity.gen_no,
        _ => 0,
    }
}
