use ata_base::{IssueNo, Regs};

/// An issue that did not end well, with its registers.
#[derive(Clone, Copy, Debug, PartialEq, Eq)]
pub struct FailedIssue {
    pub number: IssueNo,
    pub regs: Regs,
}
