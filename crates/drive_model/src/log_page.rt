ghost use Rattle.std.specs.Prelude.{◌≡◌, ◌+◌, ◌<◌, ◌^◌};
ghost use Rattle.ata_log.specs.Page.{log_page};
ghost use Rattle.drive_model.specs.Log.{with_wrong_sum, page_with};

use crate::log_fault::LogFault;
use crate::queued_error::QueuedError;
use ata_lanes::seal;

/// Byte 0: the command that failed wasn't a queued one (ACS-3, NCQ Command Error log).
const NQ: u8 = 0x80;

/// The page that says of a queued error with a fault of the log, `None` where the log can't be read.
pub fn page_with(fault: &Option<LogFault>, e: &QueuedError) -> Option<[u8; 512]>
    requires { e.now.regs.lba < 2 ^ 48 }
    ensures { result ≡ page_with fault.now e.now }
{
    match fault {
        None => Some(ata_log::build(e.tag, &e.regs)),
        Some(LogFault::Fail) => None,
        Some(LogFault::Sum) => Some(wrong_sum(ata_log::build(e.tag, &e.regs))),
        Some(LogFault::NotQueued) => Some(not_queued(e)),
        Some(LogFault::Idle { tag }) => Some(ata_log::build(*tag, &e.regs)),
    }
}

fn wrong_sum(page: [u8; 512]) -> [u8; 512]
    ensures { result ≡ with_wrong_sum page }
{
    let mut wrong = page;
    wrong[511] = page[511].wrapping_add(1);
    wrong
}

fn not_queued(e: &QueuedError) -> [u8; 512]
    requires { e.now.regs.lba < 2 ^ 48 }
    ensures { result ≡ log_page (e.now.tag + 128) e.now.regs }
{
    let mut page = ata_log::build(e.tag, &e.regs);
    page[0] = e.tag.get() + NQ;
    seal(&mut page);
    page
}
