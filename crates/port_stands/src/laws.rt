ghost use Rattle.std.specs.Prelude.{ℕ, List, ◌++◌};
ghost use Rattle.ata_script.specs.declared.port_head.PortHead.{PortHead};
ghost use Rattle.ata_trace.specs.Entries.{EntryView, grown, past_of};
ghost use Rattle.ata_trace.specs.Event.{Event};
ghost use Rattle.ata_trace.specs.declared.step.Step.{Step};
ghost use Rattle.ata_trace.specs.declared.who.Who.{Who};
ghost use Rattle.port_rules.specs.Legal.{entry_after, IsLegal};
ghost use Rattle.port_rules.specs.Settle.{settling};
ghost use Rattle.port_facts.specs.Moments.{AtEach};
ghost use Rattle.port_stands.specs.All.{AllStands};
ghost use Rattle.port_stands.specs.Claims.{AreClaimed};
ghost use Rattle.port_stands.specs.Counting.{IsLiveCounted};
ghost use Rattle.port_stands.specs.Dated.{AreCurrent};
ghost use Rattle.port_stands.specs.Failing.{FailedFly};
ghost use Rattle.port_stands.specs.OnDrive.{AreOnTheirDrive};
ghost use Rattle.port_stands.specs.Queuing.{HasQueues};
ghost use Rattle.port_stands.specs.Severed.{SeveredAreTold};
ghost use Rattle.port_stands.specs.Silence.{IsSilentAfterAnswer};
ghost use Rattle.port_stands.specs.Stands.{Stands};
ghost use Rattle.port_stands.specs.Timely.{AreShort, IsTimely, longest_wait};

/// What stands of a past stands after the entry of each step.
pub fn it_stays()
    ensures { (head : PortHead) → (past : List Event) (who : Who) (seq : ℕ) (step : Step) → Stands head past → Stands head (grown past (entry_after head past who seq step)) }
{}

/// It stands of the past of each legal journal.
pub fn it_stands()
    ensures { (head : PortHead) → (journal : List EntryView) → IsLegal head journal → Stands head (past_of journal) }
{}

/// All stays over the entry of each step: what stands, what the drives hold, what failed and what recovery has noted, and
/// the devices of what was accepted and flies.
pub fn all_stays()
    ensures { (head : PortHead) → (past : List Event) (who : Who) (seq : ℕ) (step : Step) → AllStands head past → AllStands head (grown past (entry_after head past who seq step)) }
{}

/// All stands of the past of each legal journal, of direct ports and of multipliers.
pub fn all_stands()
    ensures { (head : PortHead) → (journal : List EntryView) → IsLegal head journal → AllStands head (past_of journal) }
{}

/// A standing task file error: where TFERR of a place stands, the issue that set it is in flight there.
pub fn failed_issues_fly()
    ensures { (head : PortHead) → (journal : List EntryView) → IsLegal head journal → FailedFly (past_of journal) }
{}

/// Silent after the answer: no issue ends that was answered, or given back for another try, before.
pub fn answered_issues_are_silent()
    ensures { (head : PortHead) → (journal : List EntryView) → IsLegal head journal → AtEach IsSilentAfterAnswer (past_of journal) }
{}

/// A read's sectors are on the drive that did it: what a drive ends asks for no sector past its last, so the stamps of each
/// success were stored on the drive that did its issue.
pub fn reads_stay_on_their_drive()
    ensures { (head : PortHead) → (journal : List EntryView) → IsLegal head journal → AtEach (AreOnTheirDrive head) (past_of journal) }
{}

/// Until the autopsy of a recovery no command with an issue in flight is gone: its device is the one of its acceptance.
pub fn issues_fly_at_their_device()
    ensures { (head : PortHead) → (journal : List EntryView) → IsLegal head journal → AreCurrent (past_of journal) }
{}

/// A live command waits or is in flight: so many are live as wait in the queues and fly.
pub fn live_commands_wait_or_fly()
    ensures { (head : PortHead) → (journal : List EntryView) → IsLegal head journal → IsLiveCounted (past_of journal) }
{}

/// The clock's bounds: where no submitted command may wait longer than a limit, each issue in flight is due within that
/// limit, and the time since which the port is quiet isn't past the clock.
pub fn deadlines_are_near()
    ensures { (head : PortHead) → (limit : ℕ) (journal : List EntryView) → IsLegal head journal → AreShort limit journal → IsTimely limit (past_of journal) }
{}

/// No command of a script may wait longer than 1,000,000 ms, so in any legal journal each issue in flight is due within that.
pub fn deadlines_are_within_the_longest_wait()
    ensures { (head : PortHead) → (journal : List EntryView) → IsLegal head journal → IsTimely longest_wait (past_of journal) }
{}

/// Where NCQ is on, the device has a queue: its depth is 1 at least.
pub fn queuing_devices_have_queues()
    ensures { (head : PortHead) → (journal : List EntryView) → IsLegal head journal → HasQueues (past_of journal) }
{}

/// A place that has the port to itself: recovery doesn't run, and an issue is in flight there, or a command that isn't gone
/// waits in front.
pub fn exclusive_places_are_claimed()
    ensures { (head : PortHead) → (journal : List EntryView) → IsLegal head journal → AreClaimed (past_of journal) }
{}

/// A place with a device at which no drive is linked: SError tells that its link changed, or the recovery that runs is sure
/// to reset it, or does so.
pub fn severed_places_are_told()
    ensures { (head : PortHead) → (journal : List EntryView) → IsLegal head journal → SeveredAreTold head (past_of journal) }
{}

/// Settling is legal: a legal journal with the entries that settling gives after it is legal, with the ranges of its steps.
pub fn settling_is_legal()
    ensures { (head : PortHead) → (journal : List EntryView) → IsLegal head journal → (rounds : ℕ) → IsLegal head (journal ++ settling head rounds (past_of journal)) }
{}
