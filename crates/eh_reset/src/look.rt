ghost use Rattle.std.specs.Prelude.{◌≡◌};
ghost use Rattle.eh_reset.specs.Looks.{reset_look_of};

use ata_base::Ms;

/// What is seen of a reset that is open.
#[derive(Clone, Copy, Debug, PartialEq, Eq)]
pub enum ResetLook {
    /// No drive is linked.
    Gone,
    /// The drive is ready.
    Ready,
    /// The drive isn't ready although the deadline has come.
    Late,
    /// None of these: the reset stays open.
    Open_,
}

/// The first of these that fits an open reset at the time `now`: `Gone` where no drive is linked, `Ready` where the
/// drive's ready time has come, `Late` where the deadline has come, else `Open_`. A time has come where it is at most
/// `now`.
pub fn reset_look(linked: bool, ready: Ms, deadline: Ms, now: Ms) -> ResetLook
    ensures { result ≡ reset_look_of linked ready.n deadline.n now.n }
{
    if !linked {
        ResetLook::Gone
    } else if ready.n <= now.n {
        ResetLook::Ready
    } else if deadline.n <= now.n {
        ResetLook::Late
    } else {
        ResetLook::Open_
    }
}
