ghost use Rattle.ata_trace.specs.Ranges.{AreLong, AreStamps, IsCount, IsFrame, IsId, IsIn, IsKinds, IsLong, IsName, IsPlace, IsSmall, IsSpeed, IsTag, IsWhere};

use ata_base::{
    Allowance, CmdId, DriveNo, IssueNo, Kinds, Pick, Place, SpeedAction, Stamps, Tag, Tick, Wait,
};
use ata_trace::DriveName;

/// The number of a command.
#[tactic(auto, using(crate::proofs::NumberRanges::is_in))]
pub(crate) fn id_in_range(id: CmdId)
    ensures { IsId id }
{
    let _ = id.get();
}

/// A place.
#[tactic(auto, using(crate::proofs::NumberRanges::is_in))]
pub(crate) fn place_in_range(place: Place)
    ensures { IsPlace place }
{
    let _ = place.get();
}

/// A tag.
#[tactic(auto, using(crate::proofs::NumberRanges::is_in))]
pub(crate) fn tag_in_range(tag: Tag)
    ensures { IsTag tag }
{
    let _ = tag.get();
}

/// The number of a drive.
#[tactic(auto, using(crate::proofs::NumberRanges::is_in))]
pub(crate) fn drive_in_range(drive: DriveNo)
    ensures { IsTag drive }
{
    let _ = drive.get();
}

/// A pick.
#[tactic(auto, using(crate::proofs::NumberRanges::is_in))]
pub(crate) fn pick_in_range(pick: Pick)
    ensures { IsTag pick }
{
    let _ = pick.get();
}

/// An allowance.
#[tactic(auto, using(crate::proofs::NumberRanges::is_in))]
pub(crate) fn allowance_in_range(allow: Allowance)
    ensures { IsIn 0 100 allow }
{
    let _ = allow.get();
}

/// A wait.
#[tactic(auto, using(crate::proofs::NumberRanges::is_in))]
pub(crate) fn wait_in_range(wait: Wait)
    ensures { IsIn 1 1000000 wait }
{
    let _ = wait.get();
}

/// How long time passes.
#[tactic(auto, using(crate::proofs::NumberRanges::is_in))]
pub(crate) fn tick_in_range(ms: Tick)
    ensures { IsIn 0 1000000 ms }
{
    let _ = ms.get();
}

/// A number of 64 bits.
#[tactic(auto, using(crate::proofs::NumberRanges::is_in))]
pub(crate) fn long_in_range(n: u64)
    ensures { IsLong n }
{}

/// A number of 16 bits.
#[tactic(auto, using(crate::proofs::NumberRanges::is_in))]
pub(crate) fn count_in_range(n: u16)
    ensures { IsCount n }
{}

/// A number of 8 bits.
#[tactic(auto, using(crate::proofs::NumberRanges::is_in))]
pub(crate) fn small_in_range(n: u8)
    ensures { IsSmall n }
{}

/// Kinds of error.
#[tactic(auto, using(crate::proofs::NumberRanges::is_in))]
pub(crate) fn kinds_in_range(kinds: Kinds)
    ensures { IsKinds kinds.0 }
{
    let _ = kinds.mask();
}

/// A frame.
pub(crate) fn frame_in_range(fis: &[u8; 20])
    ensures { IsFrame fis.now }
{
    let _ = fis.as_slice().len();
}

/// The name of a drive.
pub(crate) fn name_in_range<const N: usize>(name: &DriveName<N>)
    ensures { IsName N name.now }
{
    let _ = name.bytes();
}

/// Stamps.
pub(crate) fn stamps_in_range(stamps: &Stamps)
    ensures { AreStamps stamps.now }
{
    are_long(stamps.items());
}

// Numbers of 64 bits.
fn are_long(numbers: &[u64])
    ensures { AreLong numbers.now }
{
    let _ = numbers.len();
}

/// What is done about the speed.
pub(crate) fn speed_in_range(action: SpeedAction)
    ensures { IsSpeed action }
{
    match action {
        SpeedAction::NoChange => {}
        SpeedAction::NcqOff => {}
        SpeedAction::Speed { generation } => small_in_range(generation),
        SpeedAction::Mode { udma } => small_in_range(udma),
    }
}

/// A place or none.
pub(crate) fn where_in_range(place: Option<Place>)
    ensures { IsWhere place }
{
    match place {
        Some(place) => place_in_range(place),
        None => {}
    }
}

/// A command and its issue.
pub(crate) fn issue_in_range(id: CmdId, number: IssueNo)
    ensures id { IsId id }
    ensures number { IsLong number.n }
{
    id_in_range(id);
    long_in_range(number.n);
}

/// Registers.
pub(crate) fn registers_in_range(status: u8, error: u8, lba: u64, count: u16)
    ensures status { IsSmall status }
    ensures error { IsSmall error }
    ensures lba { IsLong lba }
    ensures count { IsCount count }
{
    small_in_range(status);
    small_in_range(error);
    long_in_range(lba);
    count_in_range(count);
}
