ghost use Rattle.std.specs.Prelude.{◌≡◌};
ghost use Rattle.drive_model.specs.Told.{is_good_end};
ghost use Rattle.drive_model.specs.Work.{registers};
ghost use Rattle.port_past.specs.Answers.{answered_command, answered_issue, issue_told, left_issue};
ghost use Rattle.port_past.specs.Logs.{log_in};

use ata_base::{CmdId, Regs};
use ata_trace::Act;
use drive_model::LogTold;
use port_past::LogOf;

/// The command that an act answers.
pub fn answered_command(act: &Act) -> Option<CmdId>
    ensures { result ≡ answered_command act.now }
{
    match act {
        Act::AnsweredOk { id, .. }
        | Act::AnsweredFailed { id, .. }
        | Act::AnsweredNodev { id, .. } => Some(*id),
        _ => None,
    }
}

/// The issue that an act answers; the answer of a kick is of none.
pub fn answered_issue(act: &Act) -> Option<u64>
    ensures { result ≡ answered_issue act.now }
{
    match act {
        Act::AnsweredOk { number, .. } | Act::AnsweredFailed { number, .. } => Some(number.n),
        Act::AnsweredNodev { number, .. } => issue_told(number.n),
        _ => None,
    }
}

/// The issue of the number that stands in a line: 0 stands for none.
fn issue_told(number: u64) -> Option<u64>
    ensures { result ≡ issue_told number }
{
    if number == 0 { None } else { Some(number) }
}

/// The issue that isn't in flight any more: the one that an act answers or retries.
pub fn left_issue(act: &Act) -> Option<u64>
    ensures { result ≡ left_issue act.now }
{
    match act {
        Act::Retried { number, .. } => Some(number.n),
        _ => answered_issue(act),
    }
}

/// Whether registers tell a good end: status DRDY alone, no error, lba 0 (ACS-3, "Normal outputs").
pub fn is_good_end(status: u8, error: u8, lba: u64) -> bool
    ensures { result ≡ is_good_end status error lba }
{
    status == 0x40 && error == 0 && lba == 0
}

/// The registers of an end; bit 6 of device says LBA.
pub fn registers(status: u8, error: u8, lba: u64, count: u16) -> Regs
    ensures { result ≡ registers status error lba count }
{
    Regs {
        status,
        error,
        lba,
        device: 0x40,
        count,
    }
}

/// The place whose log an act tells of, and what it tells.
pub fn log_in(act: &Act) -> Option<LogOf>
    ensures { result ≡ log_in act.now }
{
    match act {
        Act::Log {
            place,
            tag,
            status,
            error,
            lba,
            count,
        } => Some(LogOf {
            place: *place,
            told: LogTold::Page {
                tag: *tag,
                regs: registers(*status, *error, *lba, *count),
            },
        }),
        Act::LogFailed { place } => Some(LogOf {
            place: *place,
            told: LogTold::NoPage,
        }),
        Act::LogBadSum { place } | Act::LogNotQueued { place } => Some(LogOf {
            place: *place,
            told: LogTold::BadPage,
        }),
        _ => None,
    }
}
