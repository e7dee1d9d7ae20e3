ghost use Rattle.std.specs.Prelude.{◌≡◌};

use crate::act_copy::copy_of;
use crate::names::{ModelName, SerialName};
use crate::refusal::Refusal;
use ata_base::{
    CmdId, Deferral, DriveNo, IssueNo, Kinds, LinkAction, Ms, Place, SpeedAction, Stamps, Tag,
};

/// What a port did: one line of its journal. The fields are the words of the line, in order.
///
/// `status` and `error` are registers as the drive gave them, two hexadecimal digits each, and `lba`
/// and `count` in decimal (ACS-3, "Normal outputs" and "Error outputs"). Times are in milliseconds.
/// `number` is that of an issue, counted from 1.
#[derive(Debug, Drop, PartialEq, Eq)]
pub enum Act {
    /// `accepted C`: a submitted command was put into its place's queue.
    Accepted {
        id: CmdId,
    },
    /// `refused C WHY`: a submitted command was refused.
    Refused {
        id: CmdId,
        why: Refusal,
    },
    /// `issued C N T D FIS`: a command left its queue for the drive. `fis` is the Register Host to
    /// Device FIS in 40 hexadecimal digits (Serial ATA 3.x, "Register Host to Device FIS"),
    /// `deadline` the time by which it is due.
    Issued {
        id: CmdId,
        number: IssueNo,
        tag: Tag,
        deadline: Ms,
        fis: [u8; 20],
    },
    /// `deferred C WHY`: the command at the front of the queue stays there.
    Deferred {
        id: CmdId,
        why: Deferral,
    },
    /// `exclusive X`: this place alone may issue now.
    Exclusive {
        place: Place,
    },
    /// `done N S E L R`: the drive ended an issue.
    Done {
        number: IssueNo,
        status: u8,
        error: u8,
        lba: u64,
        count: u16,
    },
    /// `aborted N`: the drive dropped an issue that it held.
    Aborted {
        number: IssueNo,
    },
    /// `raised`: the interrupt line went up.
    Raised,
    /// `lost`: the interrupt line went down unserved.
    Lost,
    /// `answered C N ok S E L R STAMPS`: a command was answered with success. `stamps` holds what a
    /// read found, one decimal stamp a sector, and is empty for every other operation.
    AnsweredOk {
        id: CmdId,
        number: IssueNo,
        status: u8,
        error: u8,
        lba: u64,
        count: u16,
        stamps: Stamps,
    },
    /// `answered C N failed KINDS S E L R`: recovery answered a command with failure.
    AnsweredFailed {
        id: CmdId,
        number: IssueNo,
        kinds: Kinds,
        status: u8,
        error: u8,
        lba: u64,
        count: u16,
    },
    /// `answered C N nodev`: a command was answered without a device. The number is 0 where a kick
    /// answers, which answers no issue.
    AnsweredNodev {
        id: CmdId,
        number: IssueNo,
    },
    /// `expired C N`: the timer told that an issue is due.
    Expired {
        id: CmdId,
        number: IssueNo,
    },
    /// `drained`: the timer told that every issue in flight that recovery doesn't own is due.
    Drained,
    /// `condemned N KINDS`: recovery owns an issue from now on.
    Condemned {
        number: IssueNo,
        kinds: Kinds,
    },
    /// `frozen`: the port issues nothing and serves no interrupt until it is thawed.
    Frozen,
    /// `thawed`: the port was thawed.
    Thawed,
    /// `requested`: recovery was asked for. Nothing is issued until it has ended.
    Requested,
    /// `begun`: recovery began.
    Begun,
    /// `autopsied`: recovery has judged what failed.
    Autopsied,
    /// `ended`: recovery ended.
    Ended,
    /// `log X tag T S E L R`: the error log of the drive at a place named the failed tag.
    Log {
        place: Place,
        tag: Tag,
        status: u8,
        error: u8,
        lba: u64,
        count: u16,
    },
    /// `log X failed`: the error log couldn't be read.
    LogFailed {
        place: Place,
    },
    /// `log X bad-sum`: the error log's bytes don't add up to 0.
    LogBadSum {
        place: Place,
    },
    /// `log X not-queued`: the error log tells of no queued command.
    LogNotQueued {
        place: Place,
    },
    /// `judged N KINDS`: the final kinds of error of an issue.
    Judged {
        number: IssueNo,
        kinds: Kinds,
    },
    /// `recorded X io|other dubious|clean KINDS VERDICT ACTION`: the errors of a place were noted in
    /// its ring: whether a command of input or output failed, whether the link is in doubt, the
    /// kinds, the four words of the verdict, and what is done about the speed.
    Recorded {
        place: Place,
        io: bool,
        dubious: bool,
        kinds: Kinds,
        ncq_off: bool,
        speed_down: bool,
        pio: bool,
        keep: bool,
        action: SpeedAction,
    },
    /// `cleared X`: all entries of the place's ring are old.
    Cleared {
        place: Place,
    },
    /// `hot X G`: a drive was plugged or unplugged at a place; its link may have generation G, 1 to
    /// 3, from now on.
    Hot {
        place: Place,
        generation: u8,
    },
    /// `action X KINDS ACT`: what recovery does at a place.
    Action {
        place: Place,
        kinds: Kinds,
        action: LinkAction,
    },
    /// `reset-begun X T D`: the reset of a place began, or that of the host where there is none; its
    /// try, 1 to 4, and the time until which it waits.
    ResetBegun {
        place: Option<Place>,
        attempt: u8,
        deadline: Ms,
    },
    /// `reset-late X`: a reset, of a place or the host, came to its deadline.
    ResetLate {
        place: Option<Place>,
    },
    /// `reset-failed X`: a reset, of a place or the host, is given up.
    ResetFailed {
        place: Option<Place>,
    },
    /// `reset-ended X gen G`: the reset of a place ended with a link of generation G, 1 to 3.
    ResetEndedGen {
        place: Place,
        generation: u8,
    },
    /// `reset-ended X none`: the reset of a place ended without a link.
    ResetEndedNone {
        place: Place,
    },
    /// `reset-ended host`: the reset of the host ended.
    ResetEndedHost,
    /// `ident-asked X T D`: the drive at a place was asked who it is; the try, 1 to 3, and the time
    /// until which it is waited for.
    IdentAsked {
        place: Place,
        attempt: u8,
        deadline: Ms,
    },
    /// `ident-late X`: the drive didn't tell who it is in time.
    IdentLate {
        place: Place,
    },
    /// `identified X MODEL SERIAL SECTORS DEPTH`: the device at a place was identified: its size in
    /// sectors, and the depth of its queue, 0 to 32, where 0 says that it has no native command
    /// queuing.
    Identified {
        place: Place,
        model: ModelName,
        serial: SerialName,
        sectors: u64,
        depth: u8,
    },
    /// `same X`: it is the device that was attached.
    Same {
        place: Place,
    },
    /// `attached X`: the device at a place may be used from now on.
    Attached {
        place: Place,
    },
    /// `detached X`: the device at a place is gone.
    Detached {
        place: Place,
    },
    /// `disabled X`: the device at a place may not be used any more.
    Disabled {
        place: Place,
    },
    /// `mode X U on|off dubious|clean`: the transfer mode of a place: the Ultra DMA mode, 0 to 6,
    /// whether native command queuing is on, and whether the link is in doubt.
    Mode {
        place: Place,
        udma: u8,
        ncq: bool,
        dubious: bool,
    },
    /// `retried C N yes|no`: a command goes back to the front of its queue, and its allowance was
    /// raised by one or not.
    Retried {
        id: CmdId,
        number: IssueNo,
        allowance_raised: bool,
    },
    /// `waiting tag T`: recovery waits for the issue under a tag.
    WaitingTag {
        tag: Tag,
    },
    /// `waiting reset X`: recovery waits for the reset of a place.
    WaitingReset {
        place: Place,
    },
    /// `waiting ident X`: recovery waits for the drive at a place to tell who it is.
    WaitingIdent {
        place: Place,
    },
    /// `now T`: the time from now on.
    Now {
        at: Ms,
    },
    /// `plugged X D`: a drive was plugged at a place.
    Plugged {
        place: Place,
        drive: DriveNo,
    },
    /// `unplugged X`: the drive at a place was unplugged.
    Unplugged {
        place: Place,
    },
    /// `injected X`: a fault was put into a place.
    Injected {
        place: Place,
    },
    /// `nothing`: there was nothing to do.
    Nothing,
}

impl Act {
    /// The same act once more.
    pub fn copy(&self) -> Act
        ensures { result ≡ self.now }
    {
        copy_of(self)
    }
}
