ghost use Rattle.std.specs.Prelude.{◌≡◌};
ghost use Rattle.eh_autopsy.specs.Actions.{link_action, wants_reset, is_slower};

use ata_base::{ErrMask, Kinds, LinkAction, SpeedAction};
use bitflags::Flags;

/// What recovery does at a place, by whether the port is frozen, whether the place is hot, all kinds of error of the
/// place, whether a command of input or output failed with kinds, and what is done about the speed. `Reset` where the
/// port is frozen, the place is hot, there is an error of the host's state machine, a timeout, an error of the wire or
/// the system, or the speed or mode is lowered; else `Revalidate` where a command of input or output failed or the kinds
/// are neither none nor exactly that of the drive; else `NoAction`.
pub fn action(
    frozen: bool,
    hot: bool,
    all: Kinds,
    io_error: bool,
    speed: &SpeedAction,
) -> LinkAction
    ensures { result ≡ link_action frozen hot all.0 io_error speed.now }
{
    if frozen || hot || wants_reset(all) || is_slower(speed) {
        LinkAction::Reset
    } else if io_error || !(all == Kinds::none() || all == Kinds::at(ErrMask::DEV)) {
        LinkAction::Revalidate
    } else {
        LinkAction::NoAction
    }
}

fn wants_reset(all: Kinds) -> bool
    ensures { result ≡ wants_reset all.0 }
{
    all.mask().intersects(ErrMask::HSM)
        || all.mask().intersects(ErrMask::TIMEOUT)
        || all.mask().intersects(ErrMask::ATA_BUS)
        || all.mask().intersects(ErrMask::SYSTEM)
}

fn is_slower(speed: &SpeedAction) -> bool
    ensures { result ≡ is_slower speed.now }
{
    match speed {
        SpeedAction::NoChange | SpeedAction::NcqOff => false,
        SpeedAction::Speed { .. } | SpeedAction::Mode { .. } => true,
    }
}
