ghost use Rattle.std.specs.Prelude.{◌≡◌, ◌+◌, ◌<◌, ◌^◌, ℕ, Bool, List, Option, [], false, IfOk};
ghost use Rattle.ata_trace.specs.Event.Event.{Told};
ghost use Rattle.eh_autopsy.specs.declared.failed_issue.FailedIssue.{FailedIssue as Failed};
ghost use Rattle.eh_reval.specs.Probes.{no_probes};
ghost use Rattle.port_past.specs.ByTag.{under_no_tag};
ghost use Rattle.port_past.specs.Hot.{probes_after, was_hot_after};
ghost use Rattle.port_past.specs.IdentAnswers.{ident_answered_after};
ghost use Rattle.port_past.specs.Identified.{identified_by_after};
ghost use Rattle.port_past.specs.Identities.{identities_after};
ghost use Rattle.port_past.specs.Judged.{judged_after};
ghost use Rattle.port_past.specs.Logs.{logs_after};
ghost use Rattle.port_past.specs.Noted.{tferr_noted_after};
ghost use Rattle.port_past.specs.PlaceTold.{place_told_after, host_told_after, ident_lates_after};
ghost use Rattle.port_past.specs.Places.{everywhere, nowhere};
ghost use Rattle.port_past.specs.Rings.{no_entries, rings_after};
ghost use Rattle.port_past.specs.Tasks.{actions_after, tasks_after};
ghost use Rattle.port_past.specs.declared.place_told.HostTold.TheVariants.{NotBegun as HostNotBegun};
ghost use Rattle.port_past.specs.declared.place_told.PlaceTold.TheVariants.{NotBegun};
ghost use Rattle.port_ledger.specs.Parts.{AreAtMost};

use crate::causes::{Failures, no_failures, note_noted};
use crate::drive_list::DriveList;
use crate::flights::Flights;
use crate::identities::{
    DriveNumbers, Identities, no_drives, note_ident_answered, note_identified_by,
};
use crate::issue_notes::{Judgements, no_judgements, note_judgements};
use crate::links::Links;
use crate::notes::note_tasks;
use crate::probes::{Probes, no_hotplugs, note_probes};
use crate::recovery_told::{RecoveryTold, note_recovery};
use crate::ring_list::RingList;
use crate::task_list::TaskList;
use ata_base::{MOST_PLACES, OutOfMemory};
use ata_trace::Act;
use std::alloc::Global;

/// The parts that only error handling and hotplug change, and no act of a command on its way: what recovery has told, and
/// its tasks; hotplugs; who the drives are; the rings of errors; the failures that are noted, and the judgements.
#[derive(Drop)]
pub struct EhParts {
    pub recovery: RecoveryTold,
    pub tasks: TaskList,
    pub probes: Probes,
    pub identities: Identities,
    pub identified_by: DriveNumbers,
    pub ident_answered: [bool; MOST_PLACES],
    pub rings: RingList,
    pub noted: Failures,
    pub judgements: Judgements,
}

impl EhParts {
    /// Nothing was told.
    pub fn new(alloc: Global) -> Result<EhParts, OutOfMemory>
        ensures places { IfOk result (λ eh. eh.recovery.places ≡ everywhere NotBegun) }
        ensures host { IfOk result (λ eh. eh.recovery.host ≡ HostNotBegun) }
        ensures ident_lates { IfOk result (λ eh. eh.recovery.ident_lates ≡ everywhere 0) }
        ensures was_hot { IfOk result (λ eh. eh.recovery.was_hot ≡ everywhere false) }
        ensures actions { IfOk result (λ eh. eh.recovery.actions ≡ nowhere) }
        ensures logs { IfOk result (λ eh. eh.recovery.logs ≡ nowhere) }
        ensures tasks { IfOk result (λ eh. eh.tasks ≡ []) }
        ensures probes { IfOk result (λ eh. eh.probes ≡ everywhere no_probes) }
        ensures identities { IfOk result (λ eh. eh.identities ≡ nowhere) }
        ensures identified_by { IfOk result (λ eh. eh.identified_by ≡ nowhere) }
        ensures answered { IfOk result (λ eh. eh.ident_answered ≡ everywhere false) }
        ensures rings { IfOk result (λ eh. eh.rings ≡ everywhere no_entries) }
        ensures noted { IfOk result (λ eh. eh.noted ≡ nowhere) }
        ensures judged { IfOk result (λ eh. eh.judgements ≡ under_no_tag) }
    {
        Ok(EhParts {
            recovery: RecoveryTold::new(),
            tasks: TaskList::new(alloc)?,
            probes: no_hotplugs(),
            identities: Identities::new(alloc)?,
            identified_by: no_drives(),
            ident_answered: [false; MOST_PLACES],
            rings: RingList::new(alloc)?,
            noted: no_failures(),
            judgements: no_judgements(),
        })
    }

    /// They after an act, at a time by the clock, where no count was above `most`. The flights, the links, the drives, where
    /// a device is attached and where it is dubious, and whether the port is frozen are those before the act.
    pub fn note(
        &mut self,
        act: &Act,
        flights: &Flights,
        links: &Links,
        drives: &DriveList,
        attached: &[bool; MOST_PLACES],
        dubious: &[bool; MOST_PLACES],
        pmp: bool,
        frozen: bool,
        clock: u64,
        most: u64,
    )
        requires room { most + 1 < 2 ^ 64 }
        requires most { AreAtMost most self.old.recovery.ident_lates }
        ensures places { self.new.recovery.places ≡ place_told_after (Told act.now) self.old.recovery.places }
        ensures host { self.new.recovery.host ≡ host_told_after (Told act.now) self.old.recovery.host }
        ensures ident_lates { self.new.recovery.ident_lates ≡ ident_lates_after (Told act.now) self.old.recovery.ident_lates }
        ensures most { AreAtMost (most + 1) self.new.recovery.ident_lates }
        ensures was_hot { self.new.recovery.was_hot ≡ was_hot_after (Told act.now) self.old.recovery.was_hot }
        ensures actions { self.new.recovery.actions ≡ actions_after (Told act.now) self.old.recovery.actions }
        ensures logs { self.new.recovery.logs ≡ logs_after (Told act.now) self.old.recovery.logs }
        ensures tasks { self.new.tasks ≡ tasks_after pmp (Told act.now) frozen attached.now self.old.recovery.was_hot self.old.recovery.actions self.old.tasks }
        ensures probes { self.new.probes ≡ probes_after (Told act.now) clock self.old.probes }
        ensures identities { self.new.identities ≡ identities_after (Told act.now) self.old.identities }
        ensures identified_by { self.new.identified_by ≡ identified_by_after (Told act.now) links.now self.old.identified_by }
        ensures answered { self.new.ident_answered ≡ ident_answered_after (Told act.now) links.now drives.now.list self.old.ident_answered }
        ensures rings { self.new.rings ≡ rings_after (Told act.now) clock dubious.now self.old.rings }
        ensures noted { (served : Bool) (failing : List (Option Failed)) → self.new.noted ≡ tferr_noted_after (Told act.now) served failing self.old.noted }
        ensures judged { self.new.judgements ≡ judged_after (Told act.now) flights.now self.old.noted self.old.recovery.logs self.old.judgements }
    {
        match act {
            // The acts of a command on its way.
            Act::Accepted { .. }
            | Act::Issued { .. }
            | Act::Done { .. }
            | Act::Raised
            | Act::AnsweredOk { .. } => {}
            _ => {
                // A part that reads another as it was before the act comes before that one.
                note_judgements(
                    &mut self.judgements,
                    act,
                    flights,
                    &self.noted,
                    &self.recovery.logs,
                );
                note_tasks(&mut self.tasks, act, pmp, frozen, attached, &self.recovery);
                note_recovery(&mut self.recovery, act, most);
                note_probes(&mut self.probes, act, clock);
                self.identities.note(act);
                note_identified_by(&mut self.identified_by, act, links);
                note_ident_answered(&mut self.ident_answered, act, links, drives);
                self.rings.note(act, clock, dubious);
                note_noted(&mut self.noted, act);
            }
        }
    }
}
