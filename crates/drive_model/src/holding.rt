ghost use Rattle.std.specs.Prelude.{◌≡◌, ℕ, ◌<◌, ◌%◌, ◌+◌, ◌-◌, ◌++◌, ◌∷◌, [], ◌↔◌, not, length, max, filter, slice_get, IfSome, IsTrue, IsBitSet, IfOk, OnOk, OnErr};
ghost use Rattle.ata_base.specs.Limits.{tag_count};
ghost use Rattle.drive_model.specs.Holding.{has_tag, issue_of, without_issue, AllShort, workable, picked_of, is_hung};
ghost use Rattle.drive_model.specs.Sectors.{IsShort};

use crate::assigned::Assigned;
use crate::held::Held;
use crate::queued_error::QueuedError;
use ata_base::{IssueNo, OutOfMemory, TAG_COUNT, mask_of};
use std::alloc::Global;
use std::marker::Model;

/// The issues that a drive holds, each with at most 16 stamps to give; seen as the list in the order of issue, and for
/// how many more there is memory.
#[derive(Drop)]
pub struct Holding {
    list: Vec<Held>,
    spare: usize,
}

impl Model for Holding {
    ghost use Rattle.std.specs.Prelude.{◌+◌, ◌≤◌};
    ghost use Rattle.std.specs.Vec.{vec_len, vec_capacity};
    ghost use Rattle.drive_model.specs.Holding.{HoldingView, AllShort};

    ghost Value = { HoldingView };

    ghost view = { λ h. record { issues = h.list.items; spare = h.spare } };

    ghost invariant = { λ h. (vec_len h.list + h.spare ≤ vec_capacity h.list) × AllShort h.list.items };
}

impl Holding {
    /// No issue, and memory for one for each tag.
    pub fn new(alloc: Global) -> Result<Holding, OutOfMemory>
        ensures { IfOk result (λ h. h ≡ record { issues = []; spare = tag_count }) }
    {
        let list = Vec::with_capacity(alloc, TAG_COUNT)?;
        Ok(Holding {
            list,
            spare: TAG_COUNT,
        })
    }

    /// There is memory for at least so many more.
    pub fn reserve(&mut self, more: usize) -> Result<(), OutOfMemory>
        ensures issues { self.new.issues ≡ self.old.issues }
        ensures ok { OnOk result (self.new.spare ≡ max self.old.spare more) }
        ensures err { OnErr result (self.new.spare ≡ self.old.spare) }
    {
        let spare = self.spare.max(more);
        self.list.reserve(spare)?;
        self.spare = spare;
        Ok(())
    }

    /// Holds one issue more, the last one.
    pub fn push(&mut self, issue: Held)
        requires short { IsShort issue.op }
        requires spare { 0 < self.old.spare }
        ensures issues { self.new.issues ≡ self.old.issues ++ issue ∷ [] }
        ensures spare { self.new.spare + 1 ≡ self.old.spare }
    {
        self.list.push_reserved(issue);
        self.spare -= 1;
    }

    /// Holds an issue of this number no more.
    pub fn remove(&mut self, n: IssueNo)
        ensures issues { self.new.issues ≡ without_issue n.n self.old.issues }
        ensures spare { self.new.spare ≡ self.old.spare + (length self.old.issues - length self.new.issues) }
    {
        let before = self.list.len();
        self.list.retain(|h| h.number.n != n.n);
        self.spare += before - self.list.len();
    }

    /// Holds nothing any more.
    pub fn clear(&mut self)
        ensures issues { self.new.issues ≡ [] }
        ensures spare { self.new.spare ≡ self.old.spare + length self.old.issues }
    {
        self.spare += self.list.len();
        self.list.clear();
    }

    /// The held issue of this number, `None` exactly where there is none.
    pub fn issue(&self, n: IssueNo) -> Option<Held>
        ensures value { result ≡ issue_of n.n self.now.issues }
        ensures short { IfSome result (λ h. IsShort h.op) }
    {
        issue_in(&self.list, n)
    }

    /// The issue that a pick means: of those without a hang the one at this place, counted round; none while an error
    /// stops the drive.
    pub fn picked(&self, pick: u8, stopped: &Option<QueuedError>) -> Option<Held>
        ensures value { result ≡ picked_of pick (workable stopped.now self.now.issues) }
        ensures short { IfSome result (λ h. IsShort h.op) }
    {
        if stopped.is_some() {
            return None;
        }
        let count = count_able(&self.list);
        if count == 0 {
            return None;
        }
        nth_able(&self.list, pick as usize % count)
    }

    /// The tags of the held issues: bit t stands for tag t.
    pub fn tags(&self) -> u32
        ensures { (t : ℕ) → IsBitSet result t ↔ IsTrue (has_tag t self.now.issues) }
    {
        tags_in(&self.list)
    }
}

/// Whether an issue can be worked on: no hang is assigned to it.
fn is_able(h: &Held) -> bool
    ensures { result ≡ not (is_hung h.now.assigned) }
{
    !matches!(h.assigned, Assigned::Hang)
}

/// How many of these issues can be worked on.
fn count_able(list: &[Held]) -> usize
    ensures { result ≡ length (filter (λ h. not (is_hung h.assigned)) list.now) }
{
    list.iter().filter(|h| is_able(h)).count()
}

/// The issue at this place among those that can be worked on.
fn nth_able(list: &[Held], place: usize) -> Option<Held>
    ensures value { result ≡ slice_get (filter (λ h. not (is_hung h.assigned)) list.now) place }
    ensures short { AllShort list.now → IfSome result (λ h. IsShort h.op) }
{
    let mut left = place;
    for h in list {
        if is_able(h) {
            if left == 0 {
                return Some(*h);
            }
            left -= 1;
        }
    }
    None
}

/// The first of these issues that has this number.
fn issue_in(list: &[Held], n: IssueNo) -> Option<Held>
    ensures value { result ≡ issue_of n.n list.now }
    ensures short { AllShort list.now → IfSome result (λ h. IsShort h.op) }
{
    for h in list {
        if h.number.n == n.n {
            return Some(*h);
        }
    }
    None
}

/// The tags of these issues: bit t stands for tag t.
fn tags_in(list: &[Held]) -> u32
    ensures { (t : ℕ) → IsBitSet result t ↔ IsTrue (has_tag t list.now) }
{
    let mut held = [false; TAG_COUNT];
    for h in list {
        held[h.tag.get() as usize] = true;
    }
    mask_of(&held, |tag| *tag)
}
