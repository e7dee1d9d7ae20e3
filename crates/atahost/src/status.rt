ghost use Rattle.std.specs.Prelude.{◌≡◌};
ghost use Rattle.atahost.specs.Statuses.{exit_number};

use std::fmt;

/// How a call of the program ended.
#[derive(Clone, Copy, Debug, PartialEq, Eq)]
pub enum Status {
    /// All is printed, and no command is live.
    Done,
    /// The words aren't those of a command.
    Usage,
    /// All is printed, and `k` commands, at least 1, are live.
    Left { k: u32 },
    /// The bytes, read to their end, aren't a script: the line, from 1 on, and the rule of their first
    /// fault.
    BadScript { line: u32, rule: u8 },
    /// More bytes came than a script may have.
    TooLong,
    /// A read failed.
    ReadFault,
    /// A write failed.
    WriteFault,
    /// There is no memory for the script or its journal.
    OutOfMemory,
}

impl Status {
    /// The exit status of the program: 0 for `Done`, and 2 to 8 for the others in their order.
    pub fn number(&self) -> u8
        ensures { result ≡ exit_number self.now }
    {
        match self {
            Status::Done => 0,
            Status::Usage => 2,
            Status::Left { .. } => 3,
            Status::BadScript { .. } => 4,
            Status::TooLong => 5,
            Status::ReadFault => 6,
            Status::WriteFault => 7,
            Status::OutOfMemory => 8,
        }
    }
}

impl fmt::Display for Status {
    fn fmt<W: fmt::Write>(&self, f: &mut fmt::Formatter<W>) -> fmt::Result {
        match self {
            Status::Done => write!(f, "done"),
            Status::Usage => write!(f, "usage"),
            Status::Left { k } => write!(f, "left {k}"),
            Status::BadScript { line, rule } => write!(f, "bad script line {line} rule {rule}"),
            Status::TooLong => write!(f, "too long"),
            Status::ReadFault => write!(f, "read fault"),
            Status::WriteFault => write!(f, "write fault"),
            Status::OutOfMemory => write!(f, "out of memory"),
        }
    }
}
