ghost use Rattle.std.specs.Prelude.{◌≡◌, ◌+◌, nat_le};
ghost use Rattle.eh_flow.specs.Finish.{allowance_of, finish_of};

use crate::issue_finish::Finish;
use ata_base::{Cmd, Kinds};
use eh_autopsy::worth_retry;

/// What becomes of a command of an owned issue with the final kinds `k`; `gone` says whether its device was detached or
/// disabled since the command was accepted. The first that fits: `NoDev` where it is gone; `Retry` where there are no
/// kinds or it is worth a retry, and the retries so far and this one are at most the allowance; else `Fail`. Where there
/// are no kinds the allowance is raised by one, and the retry says so.
pub fn finish(c: &Cmd, k: Kinds, gone: bool) -> Finish
    ensures { result ≡ finish_of c.now k gone }
{
    let blameless = k == Kinds::none();
    if gone {
        Finish::NoDev
    } else if (blameless || worth_retry(c.op.is_io(), k)) && is_allowed(c, blameless) {
        Finish::Retry { raised: blameless }
    } else {
        Finish::Fail
    }
}

/// Whether one retry more is allowed; a raised allowance is one more than the user's.
fn is_allowed(c: &Cmd, raised: bool) -> bool
    ensures { result ≡ nat_le (c.now.retries + 1) (allowance_of c.now raised) }
{
    if raised {
        c.retries <= c.allow
    } else {
        c.retries < c.allow
    }
}
