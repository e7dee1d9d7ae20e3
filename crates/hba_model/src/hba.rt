ghost use Rattle.std.specs.Prelude.{◌≡◌, ℕ, ◌↔◌, true, false, not, None, IsTrue, IsBitSet, replicate, Some};
ghost use Rattle.hba_model.specs.StandingCauses.{has_tferr};
ghost use Rattle.hba_model.specs.Tags.{is_issued_at};

use crate::bits::{with_bit, without_bit, without_bits};
use crate::causes::{Cause, Causes};
use ata_base::{MOST_PLACES, Place, Regs, TAG_COUNT, Tag, mask_of};
use std::marker::Model;

/// The controller of a port: which tags are active, which are done, and at which place each was issued
/// last; the causes that stand, TFERR by place; what failed at each place; and the interrupt line. Bit t
/// of a mask stands for tag t or for place t.
/// A contract sees it as its 32 tags, the causes that stand, what failed at each of the 15 places, and
/// the interrupt line.
#[derive(Debug, Drop)]
pub struct Hba {
    active: u32,
    finished: u32,
    places: [Option<Place>; TAG_COUNT],
    done: bool,
    tferr: u32,
    iferr: bool,
    connect: bool,
    notify: bool,
    failed: [Option<(Tag, Regs)>; MOST_PLACES],
    line: bool,
}

impl Model for Hba {
    ghost use Rattle.hba_model.specs.Bits.{bits_of, tags_of, IsSound};
    ghost use Rattle.hba_model.specs.HbaView.{HbaView};

    ghost Value = { HbaView };

    ghost view = { λ h. record {
      tags = tags_of h.places (bits_of 32 h.active) (bits_of 32 h.finished);
      done = h.done;
      tferr = bits_of 15 h.tferr;
      iferr = h.iferr;
      connect = h.connect;
      notify = h.notify;
      failed = h.failed;
      line = h.line;
    } };

    ghost invariant = { λ h. IsSound h.active h.finished h.tferr h.places h.failed };
}

impl Hba {
    ghost use Rattle.hba_model.specs.Tags.{tag_at, is_active, is_done, active_mask, done_mask, issued, finished};
    ghost use Rattle.hba_model.specs.HbaView.{quiet, failed_at, with_failure};
    ghost use Rattle.hba_model.specs.StandingCauses.{causes_of, with_cause, without_causes};
    ghost use Rattle.hba_model.specs.Clearing.{with_clear_link};

    /// No tag is active or done, no cause stands, nothing has failed, and the line is down.
    pub fn new() -> Hba
        ensures { result ≡ quiet }
    {
        Hba {
            active: 0,
            finished: 0,
            places: [None; TAG_COUNT],
            done: false,
            tferr: 0,
            iferr: false,
            connect: false,
            notify: false,
            failed: [None; MOST_PLACES],
            line: false,
        }
    }

    /// A command is issued under the tag at a place: the tag is active there, and its done bit is cleared.
    pub fn issue(&mut self, tag: Tag, place: Place)
        ensures { self.new ≡ record self.old { tags = issued tag place self.old.tags } }
    {
        self.active = with_bit(self.active, tag.get());
        self.finished = without_bit(self.finished, tag.get());
        self.places[tag.get() as usize] = Some(place);
    }

    /// The command under the tag ended well: the tag isn't active any more, its done bit is set, and the
    /// cause DONE stands.
    pub fn finish(&mut self, tag: Tag)
        ensures { self.new ≡ record self.old { tags = finished tag self.old.tags; done = true } }
    {
        self.active = without_bit(self.active, tag.get());
        self.finished = with_bit(self.finished, tag.get());
        self.done = true;
    }

    /// The command under the tag failed at a place with these registers: they are kept as what failed
    /// there, and TFERR of the place stands. The tag stays as it is.
    pub fn fail(&mut self, tag: Tag, place: Place, regs: Regs)
        ensures { self.new ≡ with_failure tag place regs self.old }
    {
        self.tferr = with_bit(self.tferr, place.get());
        self.failed[place.get() as usize] = Some((tag, regs));
    }

    /// The active tags: bit t stands for tag t.
    pub fn active(&self) -> u32
        ensures value { result ≡ active_mask self.now.tags }
        ensures bits { (t : ℕ) → IsBitSet result t ↔ IsTrue (is_active (tag_at self.now.tags t)) }
    {
        self.active
    }

    /// The tags whose done bits stand: bit t stands for tag t.
    pub fn done(&self) -> u32
        ensures value { result ≡ done_mask self.now.tags }
        ensures bits { (t : ℕ) → IsBitSet result t ↔ IsTrue (is_done (tag_at self.now.tags t)) }
    {
        self.finished
    }

    /// The tag and registers of the last failure at a place, None exactly where there was none since its
    /// link, or all links, were cleared.
    pub fn failed(&self, place: Place) -> Option<(Tag, Regs)>
        ensures { result ≡ failed_at self.now.failed place }
    {
        self.failed[place.get() as usize]
    }

    /// The causes that stand.
    pub fn causes(&self) -> Causes
        ensures value { result ≡ causes_of self.now }
        ensures places { (p : ℕ) → IsBitSet result.tferr p ↔ IsTrue (has_tferr self.now.tferr p) }
    {
        Causes {
            done: self.done,
            tferr: self.tferr as u16,
            iferr: self.iferr,
            connect: self.connect,
            notify: self.notify,
        }
    }

    /// A cause stands from now on.
    pub fn set_cause(&mut self, cause: Cause)
        ensures { self.new ≡ with_cause cause self.old }
    {
        match cause {
            Cause::Done => self.done = true,
            Cause::Tferr { place } => self.tferr = with_bit(self.tferr, place.get()),
            Cause::Iferr => self.iferr = true,
            Cause::Connect => self.connect = true,
            Cause::Notify => self.notify = true,
        }
    }

    /// The causes that stood; none stands afterwards. The done bits stay.
    pub fn take_causes(&mut self) -> Causes
        ensures value { result ≡ causes_of self.old }
        ensures places { (p : ℕ) → IsBitSet result.tferr p ↔ IsTrue (has_tferr self.old.tferr p) }
        ensures taken { self.new ≡ without_causes self.old }
    {
        let causes = self.causes();
        self.done = false;
        self.tferr = 0;
        self.iferr = false;
        self.connect = false;
        self.notify = false;
        causes
    }

    /// Whether the interrupt line is up.
    pub fn line(&self) -> bool
        ensures { result ≡ self.now.line }
    {
        self.line
    }

    /// Raises the interrupt line. The hint, the tag of a stray interrupt, decides nothing. False exactly
    /// where the line is up already.
    pub fn raise(&mut self, hint: Option<Tag>) -> bool
        ensures told { result ≡ not self.old.line }
        ensures up { self.new ≡ record self.old { line = true } }
    {
        let _ = hint;
        let down = !self.line;
        self.line = true;
        down
    }

    /// Lowers the interrupt line. False exactly where the line is down already.
    pub fn lower(&mut self) -> bool
        ensures told { result ≡ self.old.line }
        ensures down { self.new ≡ record self.old { line = false } }
    {
        let up = self.line;
        self.line = false;
        up
    }

    /// Clears the link of a place: the active and done bits of the tags that were issued there, TFERR and
    /// the failure of the place, and IFERR. With None all places: every active and done bit, and TFERR and
    /// the failure of each place; IFERR stays.
    pub fn clear_link(&mut self, place: Option<Place>)
        ensures { self.new ≡ with_clear_link place self.old }
    {
        match place {
            Some(place) => self.clear_place(place),
            None => self.clear_all(),
        }
    }

    /// Clears the link of a place.
    fn clear_place(&mut self, place: Place)
        ensures { self.new ≡ with_clear_link (Some place) self.old }
    {
        let issued_there = mask_of(&self.places, |last| is_issued_at(last, place));
        self.active = without_bits(self.active, issued_there);
        self.finished = without_bits(self.finished, issued_there);
        self.tferr = without_bit(self.tferr, place.get());
        self.iferr = false;
        self.failed[place.get() as usize] = None;
    }

    /// Clears the links of all places.
    fn clear_all(&mut self)
        ensures { self.new ≡ with_clear_link None self.old }
    {
        self.active = 0;
        self.finished = 0;
        self.tferr = 0;
        self.failed = nothing_failed();
    }
}

/// Each place without a failure.
fn nothing_failed() -> [Option<(Tag, Regs)>; MOST_PLACES]
    ensures { result ≡ replicate 15 None }
{
    [None; MOST_PLACES]
}

/// Whether this is where a tag was issued last.
fn is_issued_at(last: &Option<Place>, place: Place) -> bool
    ensures { result ≡ is_issued_at place last.now }
{
    match last {
        Some(last) => last.get() == place.get(),
        None => false,
    }
}
