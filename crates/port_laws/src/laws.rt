ghost use Rattle.std.specs.Prelude.{◌≡◌, ℕ, true, false, List};
ghost use Rattle.ata_script.specs.declared.port_head.PortHead.{PortHead};
ghost use Rattle.ata_trace.specs.Entries.{EntryView, past_of};
ghost use Rattle.port_rules.specs.Legal.{IsLegal};
ghost use Rattle.port_laws.specs.Ending.{IsEmptyAtEnd};
ghost use Rattle.port_laws.specs.Judgements.{IsRightJudgement};
ghost use Rattle.port_laws.specs.Links.{AreLinksUnmixed, IsOneLink};
ghost use Rattle.port_facts.specs.Moments.{AtEach};
ghost use Rattle.port_laws.specs.Once.{AreOnceOrLive};
ghost use Rattle.port_laws.specs.Silent.{IsSilentWhileFrozen};
ghost use Rattle.port_laws.specs.Statuses.{IsRightStatus};
ghost use Rattle.port_laws.specs.Success.{IsDoneWell};
ghost use Rattle.port_laws.specs.Tags.{IsTagFree};

/// Once or live, at each moment: a command is accepted at most once, and answered once or live if it
/// was accepted; it has at most one issue in flight.
#[tactic(auto, using(crate::proofs::Answered::answered_once))]
pub fn commands_are_answered_once()
    ensures { (head : PortHead) → (journal : List EntryView) → IsLegal head journal → AtEach AreOnceOrLive (past_of journal) }
{}

/// Success is done well: each success names an issue of its command that a drive ended well before,
/// with the registers and the stamps of that end, and that nothing spoilt since it was issued.
#[tactic(auto, using(crate::proofs::Success::successes_are_done_well))]
pub fn successes_are_done_well()
    ensures { (head : PortHead) → (journal : List EntryView) → IsLegal head journal → AtEach (IsDoneWell head) (past_of journal) }
{}

/// Other statuses by the rules: a failure has the kinds that the autopsy told and the registers that
/// it analysed, zeros where there were none, and isn't to be tried again; a retry is allowed, and
/// raises the allowance exactly where there are no kinds; a command without a device is one whose
/// device has left.
#[tactic(auto, using(crate::proofs::Statuses::statuses_are_right))]
pub fn statuses_are_right()
    ensures { (head : PortHead) → (journal : List EntryView) → IsLegal head journal → AtEach IsRightStatus (past_of journal) }
{}

/// The autopsy by the rules: the final kinds of an issue, the verdict and speed action of a recorded
/// error, and a hotplug with its limit are those that the view of their place gives at the moment at
/// which they are told; what is done at a place is what the view asks for from which all was told
/// of it.
#[tactic(auto, using(crate::proofs::Judgements::judgements_are_right))]
pub fn judgements_are_right()
    ensures { (head : PortHead) → (journal : List EntryView) → IsLegal head journal → AtEach (IsRightJudgement head) (past_of journal) }
{}

/// Recovery ends empty: where a recovery ends no issue is in flight.
#[tactic(auto, using(crate::proofs::Ending::recoveries_end_empty))]
pub fn recoveries_end_empty()
    ensures { (head : PortHead) → (journal : List EntryView) → IsLegal head journal → AtEach IsEmptyAtEnd (past_of journal) }
{}

/// No busy tag: each issue takes one of the 32 tags, under which no issue is in flight.
#[tactic(auto, using(crate::proofs::Tags::tags_are_free))]
pub fn issues_take_free_tags()
    ensures { (head : PortHead) → (journal : List EntryView) → IsLegal head journal → AtEach IsTagFree (past_of journal) }
{}

/// Links unmixed: at each moment the issues in flight at one place are all queued, or there is one.
#[tactic(auto, using(crate::proofs::Links::links_are_unmixed))]
pub fn links_stay_unmixed()
    ensures { (head : PortHead) → (journal : List EntryView) → IsLegal head journal → AtEach AreLinksUnmixed (past_of journal) }
{}

/// One link: on a multiplier that doesn't switch by frames all issues in flight are at one place.
#[tactic(auto, using(crate::proofs::Links::links_are_one))]
pub fn links_stay_one()
    ensures { (head : PortHead) → head.pmp ≡ true → head.fbs ≡ false → (journal : List EntryView) → IsLegal head journal → AtEach IsOneLink (past_of journal) }
{}

/// Silent while frozen: nothing is issued while the port is frozen or recovering.
#[tactic(auto, using(crate::proofs::Silent::silent_while_frozen))]
pub fn frozen_ports_issue_nothing()
    ensures { (head : PortHead) → (journal : List EntryView) → IsLegal head journal → AtEach IsSilentWhileFrozen (past_of journal) }
{}
