ghost use Rattle.std.specs.Prelude.{◌≡◌, ℕ, List, true, false, ◌<◌, ◌≤◌, ◌+◌, ◌++◌, ◌==◌, ◌∷◌, [], length, IfOk, IfSome, OnOk, OnErr, option_map};
ghost use Rattle.std.specs.List.{list_any};
ghost use Rattle.ata_trace.specs.Entries.{EntryView, past_of};
ghost use Rattle.ata_trace.specs.OpenEntries.{last_acts};
ghost use Rattle.port_facts.specs.Moments.{AtEach};
ghost use Rattle.port_laws.specs.Ending.{IsEmptyAtEnd};
ghost use Rattle.port_laws.specs.Judgements.{IsRightJudgement};
ghost use Rattle.port_laws.specs.Links.{AreLinksUnmixed, IsOneLink};
ghost use Rattle.port_laws.specs.Once.{AreOnceOrLive};
ghost use Rattle.port_laws.specs.Silent.{IsSilentWhileFrozen};
ghost use Rattle.port_laws.specs.Statuses.{IsRightStatus};
ghost use Rattle.port_laws.specs.Success.{IsDoneWell};
ghost use Rattle.port_laws.specs.Tags.{IsTagFree};
ghost use Rattle.port_before.specs.BeforeDrain.{coming_before_drain, entry_before_drain};
ghost use Rattle.port_before.specs.BeforeSwitching.{entry_before_switching};
ghost use Rattle.port_core.specs.Idle.{is_idle_last};
ghost use Rattle.port_past.specs.Clock.{clock};
ghost use Rattle.port_past.specs.Commands.{commands};
ghost use Rattle.port_past.specs.Live.{live};
ghost use Rattle.port_past.specs.PortState.{is_recovering};
ghost use Rattle.port_past.specs.Settlings.{settle_count};
ghost use Rattle.port_stands.specs.Silence.{IsSilentAfterAnswer};
ghost use Rattle.port_rules.specs.Boot.{boot_entry};
ghost use Rattle.port_rules.specs.Coming.{coming};
ghost use Rattle.port_rules.specs.Legal.{IsLegal, entry_after};
ghost use Rattle.port_rules.specs.Ranges.{IsScriptStep};
ghost use Rattle.port_rules.specs.Settle.{is_idle_act, is_settled};

use crate::quiet::is_quiet;
use crate::ranges::in_range;
use ata_base::{Cmd, CmdId, Ms, OutOfMemory, PortNo};
use ata_script::PortHead;
use ata_trace::{Act, Journal, Step, Who};
use port_ledger::Ledger;
use std::alloc::Global;
use std::marker::Model;

/// A port with its drives, which tells what each step did and keeps no more of it. A contract sees its number, its head, all
/// entries it has told, and the spare: for how many steps it has room, 0 or 1.
#[derive(Drop)]
pub struct Machine {
    number: PortNo,
    ledger: Ledger,
    spare: usize,
}

impl Model for Machine {
    ghost use Rattle.port_core.specs.PortView.{PortView};

    ghost Value = { PortView };

    ghost use Rattle.port_core.specs.Kept.{IsKept};

    ghost view = { λ p. record { number = p.number; head = p.ledger.head; entries = p.ledger.entries; spare = p.spare } };

    ghost invariant = { IsKept };
}

impl Machine {
    /// A port that has booted: it has told the boot entry.
    pub fn start(alloc: Global, number: PortNo, head: &PortHead) -> Result<Machine, OutOfMemory>
        ensures number { IfOk result (λ p. p.number ≡ number) }
        ensures head { IfOk result (λ p. p.head ≡ head.now) }
        ensures entries { IfOk result (λ p. p.entries ≡ boot_entry head.now ∷ []) }
        ensures spare { IfOk result (λ p. p.spare ≡ 0) }
    {
        let ledger = booted(alloc, head.copy(alloc)?)?;
        Ok(Machine {
            number,
            ledger,
            spare: 0,
        })
    }

    /// Makes room for one step. The port stays; after a refusal the room stays too.
    pub fn reserve(&mut self) -> Result<(), OutOfMemory>
        ensures ok { OnOk result (self.new ≡ record self.old { spare = 1 }) }
        ensures err { OnErr result (self.new ≡ self.old) }
    {
        self.ledger.reserve()?;
        self.spare = 1;
        Ok(())
    }

    /// Asks for memory for as many commands as these steps ahead of need. Where it is refused, `reserve` asks for what each step needs.
    pub fn make_room(&mut self, steps: usize)
        ensures { self.new ≡ self.old }
    {
        self.ledger.make_room(steps);
    }

    /// Makes the entry of a step, the `seq`-th of `who`. It always succeeds, and takes no memory.
    pub fn step(&mut self, who: Who, seq: u64, step: &Step)
        requires spare { self.old.spare ≡ 1 }
        ensures number { self.new.number ≡ self.old.number }
        ensures head { self.new.head ≡ self.old.head }
        ensures entries { self.new.entries ≡ self.old.entries ++ entry_after self.old.head (past_of self.old.entries) who seq step.now ∷ [] }
        ensures legal { IsLegal self.new.head self.new.entries }

        // At a port without FIS-based switching, or without drain, the entry is that of the rules before it.
        ensures before_switching { self.old.head.fbs ≡ false → self.new.entries ≡ self.old.entries ++ entry_before_switching self.old.head (past_of self.old.entries) who seq step.now ∷ [] }
        ensures before_drain { self.old.head.drain ≡ false → self.new.entries ≡ self.old.entries ++ entry_before_drain self.old.head (past_of self.old.entries) who seq step.now ∷ [] }

        // The laws of every legal journal.
        ensures once { AtEach AreOnceOrLive (past_of self.new.entries) }
        ensures success { AtEach (IsDoneWell self.new.head) (past_of self.new.entries) }
        ensures statuses { AtEach IsRightStatus (past_of self.new.entries) }
        ensures judgements { AtEach (IsRightJudgement self.new.head) (past_of self.new.entries) }
        ensures ending { AtEach IsEmptyAtEnd (past_of self.new.entries) }
        ensures tags { AtEach IsTagFree (past_of self.new.entries) }
        ensures links { AtEach AreLinksUnmixed (past_of self.new.entries) }
        ensures one_link { self.new.head.pmp ≡ true → self.new.head.fbs ≡ false → AtEach IsOneLink (past_of self.new.entries) }
        ensures silence { AtEach IsSilentWhileFrozen (past_of self.new.entries) }
        ensures after_answer { AtEach IsSilentAfterAnswer (past_of self.new.entries) }

        ensures spare { self.new.spare ≡ 0 }
    {
        self.spare = 0;
        take(&mut self.ledger, who, seq, step);
    }

    /// The journal is legal for the head of the port. It does nothing.
    pub fn stays_legal(&self)
        ensures { IsLegal self.now.head self.now.entries }
    {
        let _ = &self.ledger;
    }

    /// The number of the port.
    pub fn number(&self) -> PortNo
        ensures { result ≡ self.now.number }
    {
        self.number
    }

    /// What the port did at its last step, in order.
    pub fn acts(&self) -> &[Act]
        ensures acts { result.now ≡ last_acts self.now.entries }
        ensures few { length result.now ≤ 128 }
    {
        self.ledger.entry().acts()
    }

    /// Appends the last entry to a journal, which has room for an entry and 128 acts. It takes no memory.
    pub fn keep(&self, journal: &mut Journal)
        requires entry_room { 0 < journal.old.entry_room }
        requires act_room { 128 ≤ journal.old.act_room }
        ensures { (before : List EntryView) (entry : EntryView) → self.now.entries ≡ before ++ entry ∷ []
            → journal.new.entries ≡ journal.old.entries ++ entry ∷ [] }
    {
        self.ledger.entry().keep(journal);
    }

    /// Whether the command of this number is live.
    pub fn is_live(&self, id: CmdId) -> bool
        ensures { result ≡ list_any (λ c. c == id) (live (past_of self.now.entries)) }
    {
        self.ledger.is_live(id)
    }

    /// How many commands are live.
    pub fn live(&self) -> u32
        ensures value { result ≡ length (live (past_of self.now.entries)) }
        ensures most { result ≤ length (commands (past_of self.now.entries)) }
        ensures few { result ≤ 65536 }
    {
        self.ledger.live()
    }

    /// The accepted commands, in the order of acceptance.
    pub fn accepted(&self) -> &[Cmd]
        ensures { result.now ≡ commands (past_of self.now.entries) }
    {
        self.ledger.accepted()
    }

    /// Whether recovery is asked for or runs.
    pub fn is_recovering(&self) -> bool
        ensures { result ≡ is_recovering (past_of self.now.entries) }
    {
        self.ledger.is_recovering()
    }

    /// Whether nothing is left to do: no command is live, and the port isn't recovering.
    #[tactic(auto, using(crate::proofs::Quiets::quiet_is))]
    pub fn is_settled(&self) -> bool
        ensures { result ≡ is_settled (past_of self.now.entries) }
    {
        is_quiet(&self.ledger) && !self.ledger.is_recovering()
    }

    /// Whether the last entry has only `nothing`, `deferred` and `waiting` acts.
    pub fn is_idle_last(&self) -> bool
        ensures { result ≡ is_idle_last self.now.entries }
    {
        self.acts().iter().all(|act| is_idle_act(act))
    }

    /// How many entries of the settling there are.
    pub fn settle_count(&self) -> u64
        ensures { result ≡ settle_count (past_of self.now.entries) }
    {
        self.ledger.settle_count()
    }

    /// The time by the clock, in ms.
    pub fn now(&self) -> Ms
        ensures { result.n ≡ clock (past_of self.now.entries) }
    {
        self.ledger.clock()
    }

    /// The time in ms to which a settling port ticks after an idle round: the least time after the present for which it
    /// waits, at most 1,000,000 ms away; `None` exactly where there is no such time.
    #[tactic(auto, using(crate::proofs::Recoverable::recoverable, crate::proofs::Settles::quiet_early, crate::proofs::Settles::comes_soon))]
    pub fn coming(&self) -> Option<Ms>
        ensures value { option_map (λ time. time.n) result ≡ coming self.now.head (past_of self.now.entries) }
        ensures later { IfSome result (λ time. clock (past_of self.now.entries) < time.n) }
        ensures soon { IfSome result (λ time. time.n ≤ clock (past_of self.now.entries) + 1000000) }
        ensures before_drain { self.now.head.drain ≡ false → option_map (λ time. time.n) result ≡ coming_before_drain self.now.head (past_of self.now.entries) }
    {
        let _ = self.ledger.clock();
        port_steps::coming(&self.ledger)
    }

    /// The head, lent.
    pub fn head(&self) -> &PortHead
        ensures { result.now ≡ self.now.head }
    {
        self.ledger.head()
    }

    /// How many places the port has.
    pub fn places(&self) -> u8
        ensures { result ≡ self.now.head.places }
    {
        self.ledger.head().places
    }
}

/// Whether an act is `nothing`, `deferred` or `waiting`.
fn is_idle_act(act: &Act) -> bool
    ensures { result ≡ is_idle_act act.now }
{
    matches!(
        act,
        Act::Nothing
            | Act::Deferred { .. }
            | Act::WaitingTag { .. }
            | Act::WaitingReset { .. }
            | Act::WaitingIdent { .. }
    )
}

/// The ledger of a port that has booted.
fn booted(alloc: Global, head: PortHead) -> Result<Ledger, OutOfMemory>
    ensures head { IfOk result (λ l. l.head ≡ head) }
    ensures entries { IfOk result (λ l. l.entries ≡ boot_entry head ∷ []) }
    ensures legal { IfOk result (λ l. IsLegal l.head l.entries) }
{
    let mut ledger = Ledger::new(alloc, head)?;
    port_steps::boot(&mut ledger);
    Ok(ledger)
}

/// The ledger takes a step.
fn take(ledger: &mut Ledger, who: Who, seq: u64, step: &Step)
    requires begins { 0 < ledger.old.begins }
    requires legal { IsLegal ledger.old.head ledger.old.entries }
    ensures entries { ledger.new.entries ≡ ledger.old.entries ++ entry_after ledger.old.head (past_of ledger.old.entries) who seq step.now ∷ [] }
    ensures before_switching { ledger.old.head.fbs ≡ false → ledger.new.entries ≡ ledger.old.entries ++ entry_before_switching ledger.old.head (past_of ledger.old.entries) who seq step.now ∷ [] }
    ensures before_drain { ledger.old.head.drain ≡ false → ledger.new.entries ≡ ledger.old.entries ++ entry_before_drain ledger.old.head (past_of ledger.old.entries) who seq step.now ∷ [] }
    ensures legal { IsLegal ledger.new.head ledger.new.entries }
    ensures head { ledger.new.head ≡ ledger.old.head }
{
    in_range(step);
    port_steps::act(ledger, who, seq, step);
}
