ghost use Rattle.std.specs.Prelude.{◌≡◌, ℕ, List, ◌<◌, ◌≤◌, ◌+◌, ◌++◌, ◌∷◌, [], length, IfOk};
ghost use Rattle.ata_base.specs.Limits.{most_acts};
ghost use Rattle.ata_trace.specs.Entries.{EntryView, past_of, with_act};
ghost use Rattle.ata_trace.specs.Event.Event.{Entered, Told};
ghost use Rattle.ata_trace.specs.OpenEntries.{entry_last, last_acts, with_acts};

use crate::act::Act;
use crate::before::Before;
use crate::journal::Journal;
use crate::last::Last;
use crate::step::Step;
use crate::who::Who;
use ata_base::{MOST_ACTS, Ms, OutOfMemory};
use std::alloc::Global;
use std::marker::Model;

/// The entry of a port that began last, with its acts, 128 at most. A contract sees it with all entries before it, which no
/// memory holds, and with the room that is left for acts.
#[derive(Drop)]
pub struct OpenEntry {
    before: Before,
    last: Last,
    room: usize,
}

impl Model for OpenEntry {
    ghost use Rattle.std.specs.Prelude.{◌+◌, ◌≤◌, ◌++◌, ◌∷◌, [], length};
    ghost use Rattle.std.specs.Vec.{vec_capacity};
    ghost use Rattle.ata_base.specs.Limits.{most_acts};
    ghost use Rattle.ata_trace.specs.OpenEntries.{entry_last};
    ghost use Rattle.ata_trace.specs.OpenView.{OpenView};

    ghost Value = { OpenView };

    ghost view = { λ o. record { entries = o.before.entries ++ entry_last o.last ∷ []; room = o.room } };

    ghost invariant = { λ o. (length o.last.acts.items + o.room ≤ most_acts) × (most_acts ≤ vec_capacity o.last.acts) };
}

impl OpenEntry {
    /// The first entry of a port, without acts, or `OutOfMemory`.
    pub fn new(
        alloc: Global,
        at: Ms,
        who: Who,
        seq: u64,
        step: Step,
    ) -> Result<OpenEntry, OutOfMemory>
        ensures entries { IfOk result (λ o. o.entries ≡ record { at = at.n; who = who; seq = seq; step = step; acts = [] } ∷ []) }
        ensures room { IfOk result (λ o. o.room ≡ most_acts) }
    {
        let mut acts = Vec::new(alloc);
        acts.reserve(MOST_ACTS)?;
        Ok(OpenEntry {
            before: Before::new(),
            last: Last {
                at,
                who,
                seq,
                step,
                acts,
            },
            room: MOST_ACTS,
        })
    }

    /// Begins an entry without acts: the time before its step, who took it, which of their steps it
    /// is, counted from 0, and the step. It has room for 128 acts. It takes no memory.
    pub fn begin(&mut self, at: Ms, who: Who, seq: u64, step: Step)
        ensures entries { self.new.entries ≡
            self.old.entries ++ record { at = at.n; who = who; seq = seq; step = step; acts = [] } ∷ [] }
        ensures past { past_of self.new.entries ≡ Entered at.n who seq step ∷ past_of self.old.entries }
        ensures some { 0 < length self.new.entries }
        ensures room { self.new.room ≡ most_acts }
    {
        self.before = self.before.then(&self.last);
        self.last.at = at;
        self.last.who = who;
        self.last.seq = seq;
        self.last.step = step;
        self.last.acts.clear();
        self.room = MOST_ACTS;
    }

    /// Appends an act. There has to be room for it. It takes no memory.
    pub fn add(&mut self, act: Act)
        requires { 0 < self.old.room }
        ensures entries { self.new.entries ≡ with_act self.old.entries act }
        ensures past { past_of self.new.entries ≡ Told act ∷ past_of self.old.entries }
        ensures some { 0 < length self.new.entries }
        ensures count { length self.new.entries ≡ length self.old.entries }
        ensures room { self.new.room + 1 ≡ self.old.room }
    {
        self.last.acts.push_reserved(act);
        self.room -= 1;
    }

    /// The acts of the entry, in order.
    pub fn acts(&self) -> &[Act]
        ensures acts { result.now ≡ last_acts self.now.entries }
        ensures few { length result.now ≤ most_acts }
    {
        &self.last.acts
    }

    /// Appends the entry to a journal, which has room for an entry and 128 acts. It takes no memory.
    pub fn keep(&self, journal: &mut Journal)
        requires entry_room { 0 < journal.old.entry_room }
        requires act_room { most_acts ≤ journal.old.act_room }
        ensures entries { (before : List EntryView) (entry : EntryView) → self.now.entries ≡ before ++ entry ∷ []
            → journal.new.entries ≡ journal.old.entries ++ entry ∷ [] }
    {
        let last = &self.last;
        journal.begin(last.at, last.who, last.seq, last.step);
        keep_acts(&last.acts, journal);
    }
}

// Appends acts to the last entry of a journal.
fn keep_acts(acts: &[Act], journal: &mut Journal)
    requires entry { 0 < length journal.old.entries }
    requires room { length acts.now ≤ journal.old.act_room }
    ensures { journal.new.entries ≡ with_acts journal.old.entries acts.now }
{
    for act in acts {
        journal.add(act);
    }
}
