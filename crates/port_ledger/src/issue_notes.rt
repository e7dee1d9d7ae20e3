ghost use Rattle.std.specs.Prelude.{◌≡◌, option_map};
ghost use Rattle.ata_trace.specs.Event.Event.{Told};
ghost use Rattle.port_past.specs.ByTag.{under_no_tag};
ghost use Rattle.port_past.specs.Exclusive.{answered_place, but_place, exclusive_after};
ghost use Rattle.port_past.specs.Judged.{analysed, first_there, judged_after, log_registers, noted_registers, with_judgement};
ghost use Rattle.host_tags.specs.Numbers.{flight_of, tag_of};

use crate::answers::answered_issue;
use crate::causes::Failures;
use crate::flights::Flights;
use crate::recovery_told::Logs;
use ata_base::{IssueNo, Kinds, Place, Regs, TAG_COUNT, Tag};
use ata_trace::Act;
use drive_model::LogTold;
use eh_autopsy::FailedIssue;
use host_tags::InFlight;
use port_past::Judgement;

/// What the autopsy made of the issues in flight, by tag.
pub type Judgements = [Option<Judgement>; TAG_COUNT];

/// The exclusive place after an act.
pub fn exclusive_after(act: &Act, flights: &Flights, was: Option<Place>) -> Option<Place>
    ensures { result ≡ exclusive_after (Told act.now) flights.now was }
{
    match act {
        Act::Exclusive { place } => Some(*place),
        Act::Begun => None,
        _ => but_place(answered_place(act, flights), was),
    }
}

/// The place of the issue in flight that an act answers.
fn answered_place(act: &Act, flights: &Flights) -> Option<Place>
    ensures { result ≡ answered_place act.now flights.now }
{
    match answered_issue(act) {
        Some(n) => place_of_issue(flights, IssueNo { n }),
        None => None,
    }
}

/// The place of the issue of this number, where it is in flight.
#[tactic(auto, using(crate::proofs::FlightLemmas::flight_found, crate::proofs::FlightLemmas::flight_fresh))]
fn place_of_issue(flights: &Flights, number: IssueNo) -> Option<Place>
    ensures { result ≡ option_map (λ f. f.place) (flight_of number.n flights.now) }
{
    match flights.tag_of(number) {
        Some(tag) => match flights.at(tag) {
            Some(flight) => Some(flight.place),
            None => None,
        },
        None => None,
    }
}

/// The exclusive place, unless an issue of it is answered.
fn but_place(answered: Option<Place>, was: Option<Place>) -> Option<Place>
    ensures { result ≡ but_place answered was }
{
    match answered {
        Some(place) => match was {
            Some(it) if it.get() == place.get() => None,
            _ => was,
        },
        None => was,
    }
}

/// No issue is judged.
pub fn no_judgements() -> Judgements
    ensures { result ≡ under_no_tag }
{
    [None; TAG_COUNT]
}

/// The judgements after an act.
pub fn note_judgements(
    judgements: &mut Judgements,
    act: &Act,
    flights: &Flights,
    noted: &Failures,
    logs: &Logs,
)
    ensures { judgements.new ≡ judged_after (Told act.now) flights.now noted.now logs.now judgements.old }
{
    match act {
        Act::Begun | Act::Ended => *judgements = no_judgements(),
        Act::Judged { number, kinds } => {
            judge(judgements, *number, *kinds, flights, noted, logs);
        }
        _ => {}
    }
}

/// An issue is judged, where it is in flight.
#[tactic(auto, using(crate::proofs::JudgeLemmas::judged_found, crate::proofs::JudgeLemmas::judged_fresh))]
fn judge(
    judgements: &mut Judgements,
    number: IssueNo,
    kinds: Kinds,
    flights: &Flights,
    noted: &Failures,
    logs: &Logs,
)
    ensures { judgements.new ≡ with_judgement kinds noted.now logs.now (tag_of number.n flights.now) (flight_of number.n flights.now) judgements.old }
{
    if let Some(tag) = flights.tag_of(number) {
        if let Some(flight) = flights.at(tag) {
            let regs = analysed(noted, logs, tag, flight);
            judgements[tag.get() as usize] = Some(Judgement { kinds, regs });
        }
    }
}

/// The registers that are analysed for an issue under a tag: those noted of an unqueued one, those that a log gives of a
/// queued one.
fn analysed(noted: &Failures, logs: &Logs, tag: Tag, flight: &InFlight) -> Option<Regs>
    ensures { result ≡ analysed noted.now logs.now tag flight.now }
{
    let at = flight.place.get() as usize;
    first_there(
        noted_registers(flight, &noted[at]),
        log_registers(tag, flight, &logs[at]),
    )
}

fn first_there(one: Option<Regs>, other: Option<Regs>) -> Option<Regs>
    ensures { result ≡ first_there one other }
{
    match one {
        Some(regs) => Some(regs),
        None => other,
    }
}

/// The registers of a failure that is this unqueued issue's.
fn noted_registers(flight: &InFlight, noted: &Option<FailedIssue>) -> Option<Regs>
    ensures { result ≡ noted_registers flight.now noted.now }
{
    match noted {
        Some(failure) if !flight.queued && failure.number.n == flight.number.n => {
            Some(failure.regs)
        }
        _ => None,
    }
}

/// The registers of a page that names this queued issue by its tag.
fn log_registers(tag: Tag, flight: &InFlight, told: &Option<LogTold>) -> Option<Regs>
    ensures { result ≡ log_registers tag flight.now told.now }
{
    match told {
        Some(LogTold::Page { tag: named, regs }) if flight.queued && named.get() == tag.get() => {
            Some(*regs)
        }
        _ => None,
    }
}
