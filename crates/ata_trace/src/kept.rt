ghost use Rattle.std.specs.Prelude.{◌≡◌, List, IfSome};
ghost use Rattle.ata_trace.specs.Kept.{act_kept, short_kept, plain_kept, issue_kept, answer_kept, wholes};
ghost use Rattle.ata_trace.specs.declared.act.Act.{Act};

use crate::act::Act;
use crate::refusal::Refusal;
use ata_base::{CmdId, Deferral, IssueNo, Ms, Place, Stamps, Tag};

// An act as a journal keeps it: those of a command on its way take 40 bytes. Each other one, and an answer that tells
// stamps, is kept whole beside them, and told by its number there.
#[derive(Clone, Copy, Debug)]
pub(crate) enum Kept {
    Accepted {
        id: CmdId,
    },
    Refused {
        id: CmdId,
        why: Refusal,
    },
    Issued {
        tag: Tag,
        id: CmdId,
        fis: [u8; 20],
        number: IssueNo,
        deadline: Ms,
    },
    Deferred {
        id: CmdId,
        why: Deferral,
    },
    Exclusive {
        place: Place,
    },
    Done {
        status: u8,
        error: u8,
        count: u16,
        number: IssueNo,
        lba: u64,
    },
    Raised,
    Lost,
    AnsweredOk {
        status: u8,
        error: u8,
        count: u16,
        id: CmdId,
        number: IssueNo,
        lba: u64,
    },
    Now {
        at: Ms,
    },
    Nothing,
    Whole {
        number: usize,
    },
}

// The act in short; `None` where it is kept whole.
pub(crate) fn in_short(act: &Act) -> Option<Kept>
    ensures act { IfSome result (λ kept. (whole : List Act) → act_kept whole kept ≡ act.now) }
    ensures apart { IfSome result (λ kept. wholes kept ≡ 0) }
{
    match act {
        Act::Accepted { id } => Some(Kept::Accepted { id: *id }),
        Act::Refused { id, why } => Some(Kept::Refused { id: *id, why: *why }),
        Act::Deferred { id, why } => Some(Kept::Deferred { id: *id, why: *why }),
        Act::Exclusive { place } => Some(Kept::Exclusive { place: *place }),
        Act::Raised => Some(Kept::Raised),
        Act::Lost => Some(Kept::Lost),
        Act::Now { at } => Some(Kept::Now { at: *at }),
        Act::Nothing => Some(Kept::Nothing),
        _ => issue_in_short(act),
    }
}

// The same of the acts that tell of an issue and of registers.
fn issue_in_short(act: &Act) -> Option<Kept>
    ensures act { IfSome result (λ kept. (whole : List Act) → act_kept whole kept ≡ act.now) }
    ensures apart { IfSome result (λ kept. wholes kept ≡ 0) }
{
    match act {
        Act::Issued {
            id,
            number,
            tag,
            deadline,
            fis,
        } => Some(Kept::Issued {
            tag: *tag,
            id: *id,
            fis: *fis,
            number: *number,
            deadline: *deadline,
        }),
        Act::Done {
            number,
            status,
            error,
            lba,
            count,
        } => Some(Kept::Done {
            status: *status,
            error: *error,
            count: *count,
            number: *number,
            lba: *lba,
        }),
        _ => answer_in_short(act),
    }
}

// The same of an answer with success that tells no stamps.
fn answer_in_short(act: &Act) -> Option<Kept>
    ensures act { IfSome result (λ kept. (whole : List Act) → act_kept whole kept ≡ act.now) }
    ensures apart { IfSome result (λ kept. wholes kept ≡ 0) }
{
    match act {
        Act::AnsweredOk {
            id,
            number,
            status,
            error,
            lba,
            count,
            stamps,
        } => {
            if stamps.items().is_empty() {
                Some(Kept::AnsweredOk {
                    status: *status,
                    error: *error,
                    count: *count,
                    id: *id,
                    number: *number,
                    lba: *lba,
                })
            } else {
                None
            }
        }
        _ => None,
    }
}

// The act that is kept in short; of one that is kept whole, nothing.
#[inline(always)]
pub(crate) fn at_length(kept: &Kept) -> Act
    ensures { result ≡ short_kept kept.now }
{
    match kept {
        Kept::Accepted { id } => Act::Accepted { id: *id },
        Kept::Refused { id, why } => Act::Refused { id: *id, why: *why },
        Kept::Deferred { id, why } => Act::Deferred { id: *id, why: *why },
        _ => plain_at_length(kept),
    }
}

// The same of the acts with one number at most.
#[inline(always)]
fn plain_at_length(kept: &Kept) -> Act
    ensures { result ≡ plain_kept kept.now }
{
    match kept {
        Kept::Raised => Act::Raised,
        Kept::Lost => Act::Lost,
        Kept::Now { at } => Act::Now { at: *at },
        Kept::Exclusive { place } => Act::Exclusive { place: *place },
        Kept::Nothing => Act::Nothing,
        _ => issue_at_length(kept),
    }
}

// The same of the acts that tell of an issue and of registers.
#[inline(always)]
fn issue_at_length(kept: &Kept) -> Act
    ensures { result ≡ issue_kept kept.now }
{
    match kept {
        Kept::Issued {
            tag,
            id,
            fis,
            number,
            deadline,
        } => Act::Issued {
            id: *id,
            number: *number,
            tag: *tag,
            deadline: *deadline,
            fis: *fis,
        },
        Kept::Done {
            status,
            error,
            count,
            number,
            lba,
        } => Act::Done {
            number: *number,
            status: *status,
            error: *error,
            lba: *lba,
            count: *count,
        },
        _ => answer_at_length(kept),
    }
}

// The same of an answer with success.
#[inline(always)]
fn answer_at_length(kept: &Kept) -> Act
    ensures { result ≡ answer_kept kept.now }
{
    match kept {
        Kept::AnsweredOk {
            status,
            error,
            count,
            id,
            number,
            lba,
        } => Act::AnsweredOk {
            id: *id,
            number: *number,
            status: *status,
            error: *error,
            lba: *lba,
            count: *count,
            stamps: Stamps::new(),
        },
        _ => Act::Nothing,
    }
}
