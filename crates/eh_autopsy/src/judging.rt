ghost use Rattle.std.specs.Prelude.{◌≡◌};
ghost use Rattle.eh_autopsy.specs.Blame.{final_kinds, kinds_of_noted};

use crate::failed_issue::FailedIssue;
use crate::kinds::{analyse_regs, reduce};
use ata_base::Kinds;
use host_tags::InFlight;

/// The final kinds of an owned issue: those with which it was condemned, those of its place's link, those of its
/// registers where it is the failed issue that is noted of the place and no queued one, and those with which the place's
/// error log blames it; of these, the ones that stay.
pub fn final_kinds(
    issue: &InFlight,
    link: Kinds,
    noted: &Option<FailedIssue>,
    blamed: Kinds,
) -> Kinds
    ensures { result.0 ≡ final_kinds issue.now link.0 noted.now blamed.0 }
{
    reduce(
        issue
            .kinds
            .union(link)
            .union(kinds_of_noted(issue, noted).union(blamed)),
    )
}

/// The kinds of the registers of an unqueued issue, where its failure is noted.
fn kinds_of_noted(issue: &InFlight, noted: &Option<FailedIssue>) -> Kinds
    ensures { result.0 ≡ kinds_of_noted issue.now noted.now }
{
    match noted {
        Some(failure) if !issue.queued && failure.number == issue.number => {
            analyse_regs(&failure.regs)
        }
        _ => Kinds::none(),
    }
}
