ghost use Rattle.std.specs.Prelude.{◌≡◌, ◌&&◌, Option, Some, None, if◌then◌else◌};
ghost use Rattle.host_tags.specs.Slots.{flight_at};
ghost use Rattle.port_ledger.specs.LedgerView.{past};
ghost use Rattle.port_rules.specs.Autopsy.{is_io_issue};
ghost use Rattle.port_rules.specs.Blame.{final_kinds, is_hotplugged, is_owned_by, link_kinds, log_kinds, page_told};
ghost use Rattle.port_telling.specs.Walks.{slots_in};
ghost use Rattle.port_recovery.specs.Findings.{owned_by, view_in};

use ata_base::{Kinds, Place, Regs, Tag};
use drive_model::LogTold;
use eh_autopsy::{analyse_serror, blame};
use host_tags::InFlight;
use port_ledger::Ledger;

/// What SError tells of a place: the kinds that it gives, and whether the place is hot.
pub fn link_told(ledger: &Ledger, place: Place) -> (Kinds, bool)
    ensures kinds { result.0.0 ≡ link_kinds (view_in ledger.now place) }
    ensures hot { result.1 ≡ is_hotplugged (view_in ledger.now place) }
{
    analyse_serror(
        ledger.serror(place),
        ledger.is_attached(place),
        ledger.head().pmp,
    )
}

/// The issue under a tag, where it is one of a place that recovery owns.
pub fn owned_at(ledger: &Ledger, place: Place, tag: Tag) -> Option<InFlight>
    ensures { result ≡ owned_by place (flight_at (slots_in ledger.now) tag) }
{
    match ledger.flight(tag) {
        Some(flight) if is_owned_by(flight, place) => Some(*flight),
        _ => None,
    }
}

/// Whether an issue is one of a place that recovery owns.
fn is_owned_by(flight: &InFlight, place: Place) -> bool
    ensures { result ≡ is_owned_by place flight.now }
{
    flight.place.get() == place.get() && flight.owned
}

/// The final kinds of an owned issue of a place under a tag.
pub fn final_kinds(ledger: &Ledger, place: Place, tag: Tag, flight: &InFlight) -> Kinds
    ensures { result.0 ≡ final_kinds (view_in ledger.now place) tag flight.now }
{
    let link = link_told(ledger, place).0;
    let blamed = log_kinds(ledger, place, tag);
    eh_autopsy::final_kinds(flight, link, &ledger.tferr_noted(place), blamed)
}

/// The kinds that the log of a place gives to its owned issue under a tag; where none was read, none.
fn log_kinds(ledger: &Ledger, place: Place, tag: Tag) -> Kinds
    ensures { result.0 ≡ log_kinds (view_in ledger.now place) tag }
{
    match ledger.log(place) {
        Some(told) => blame(ledger.slots(), place, tag, &page_told(&told)),
        None => Kinds::none(),
    }
}

/// The tag and the registers that a log names, where it has a page that names any.
fn page_told(told: &LogTold) -> Option<(Tag, Regs)>
    ensures { result ≡ page_told told.now }
{
    match told {
        LogTold::Page { tag, regs } => Some((*tag, *regs)),
        LogTold::BadPage | LogTold::NoPage => None,
    }
}

/// Whether an issue is of a read, a write or a flush.
pub fn is_io_issue(ledger: &Ledger, place: Place, flight: &InFlight) -> bool
    ensures { result ≡ is_io_issue (view_in ledger.now place) flight.now }
{
    let _ = place;
    match ledger.command(flight.id) {
        Some(cmd) => cmd.op.is_io(),
        None => false,
    }
}
