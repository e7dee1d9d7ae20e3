use ata_base::{
    CmdId, Deferral, DriveNo, ErrMask, IssueNo, Kinds, LinkAction, Ms, Name20, Place, SpeedAction,
    Stamps, Tag,
};
use ata_trace::*;
use bitflags::Flags;
use std::process::Abort;

// What `write of 8 sectors` sends: WRITE DMA EXT of eight sectors from sector 0.
const WRITE: [u8; 20] = [
    0x27, 0x80, 0x35, 0, 0, 0, 0, 0x40, 0, 0, 0, 0, 8, 0, 0, 0, 0, 0, 0, 0,
];

fn id() -> CmdId {
    CmdId::at(65535)
}

fn number() -> IssueNo {
    IssueNo { n: 2 }
}

fn place() -> Place {
    Place::at(14)
}

// The medium and the wire.
fn kinds() -> Kinds {
    Kinds::at(ErrMask::MEDIA.union(ErrMask::ATA_BUS))
}

fn model() -> ModelName {
    ModelName::of(b"ALPHA-9").unwrap()
}

fn serial() -> SerialName {
    SerialName::new(&Name20::new(b"z0").unwrap()).unwrap()
}

fn two_stamps() -> Stamps {
    let mut stamps = Stamps::new();
    stamps.push(7);
    stamps.push(18446744073709551615);
    stamps
}

// Each act is told by its line, and read from it.
fn check_act(rt: &impl Abort, act: Act, line: &str) {
    assert_eq!(rt; act_line(&act).bytes(), line.as_bytes(), "{line}");
    assert_eq!(rt; read_act(line.as_bytes()), Some(act), "{line}");
}

#[test]
fn acts_of_commands(rt: HostRuntime) {
    let rows = [
        (Act::Accepted { id: id() }, "- accepted 65535\n"),
        (
            Act::Refused {
                id: id(),
                why: Refusal::SameId,
            },
            "- refused 65535 same-id\n",
        ),
        (
            Act::Refused {
                id: id(),
                why: Refusal::BadRange,
            },
            "- refused 65535 bad-range\n",
        ),
        (
            Act::Issued {
                id: id(),
                number: number(),
                tag: Tag::at(31),
                deadline: Ms { n: 30000 },
                fis: WRITE,
            },
            "- issued 65535 2 31 30000 2780350000000040000000000800000000000000\n",
        ),
        (
            Act::Deferred {
                id: id(),
                why: Deferral::LinkBusy,
            },
            "- deferred 65535 link-busy\n",
        ),
        (Act::Exclusive { place: place() }, "- exclusive 14\n"),
        (
            Act::Done {
                number: number(),
                status: 0x41,
                error: 0x84,
                lba: 5,
                count: 255,
            },
            "- done 2 41 84 5 255\n",
        ),
        (Act::Aborted { number: number() }, "- aborted 2\n"),
        (Act::Raised, "- raised\n"),
        (Act::Lost, "- lost\n"),
        (
            Act::AnsweredOk {
                id: id(),
                number: number(),
                status: 0x40,
                error: 0x0a,
                lba: 0,
                count: 0,
                stamps: two_stamps(),
            },
            "- answered 65535 2 ok 40 0a 0 0 7 18446744073709551615\n",
        ),
        (
            Act::AnsweredFailed {
                id: id(),
                number: number(),
                kinds: kinds(),
                status: 0x41,
                error: 0x40,
                lba: 9,
                count: 8,
            },
            "- answered 65535 2 failed media+ata-bus 41 40 9 8\n",
        ),
        (
            Act::AnsweredNodev {
                id: id(),
                number: number(),
            },
            "- answered 65535 2 nodev\n",
        ),
        (
            Act::Expired {
                id: id(),
                number: number(),
            },
            "- expired 65535 2\n",
        ),
        (Act::Drained, "- drained\n"),
        (
            Act::Retried {
                id: id(),
                number: number(),
                allowance_raised: false,
            },
            "- retried 65535 2 no\n",
        ),
    ];
    for (act, line) in rows {
        check_act(&rt, act, line);
    }
}

#[test]
fn acts_of_recovery(rt: HostRuntime) {
    let rows = [
        (
            Act::Condemned {
                number: number(),
                kinds: Kinds::none(),
            },
            "- condemned 2 none\n",
        ),
        (Act::Frozen, "- frozen\n"),
        (Act::Thawed, "- thawed\n"),
        (Act::Requested, "- requested\n"),
        (Act::Begun, "- begun\n"),
        (Act::Autopsied, "- autopsied\n"),
        (Act::Ended, "- ended\n"),
        (
            Act::Log {
                place: place(),
                tag: Tag::at(3),
                status: 0x41,
                error: 0x10,
                lba: 281474976710655,
                count: 65535,
            },
            "- log 14 tag 3 41 10 281474976710655 65535\n",
        ),
        (Act::LogFailed { place: place() }, "- log 14 failed\n"),
        (Act::LogBadSum { place: place() }, "- log 14 bad-sum\n"),
        (
            Act::LogNotQueued { place: place() },
            "- log 14 not-queued\n",
        ),
        (
            Act::Judged {
                number: number(),
                kinds: kinds(),
            },
            "- judged 2 media+ata-bus\n",
        ),
        (
            Act::Recorded {
                place: place(),
                io: true,
                dubious: false,
                kinds: kinds(),
                ncq_off: true,
                speed_down: false,
                pio: true,
                keep: false,
                action: SpeedAction::Speed { generation: 1 },
            },
            "- recorded 14 io clean media+ata-bus ncq-off+pio speed 1\n",
        ),
        (
            Act::Recorded {
                place: place(),
                io: false,
                dubious: true,
                kinds: Kinds::none(),
                ncq_off: false,
                speed_down: false,
                pio: false,
                keep: false,
                action: SpeedAction::NoChange,
            },
            "- recorded 14 other dubious none none none\n",
        ),
        (Act::Cleared { place: place() }, "- cleared 14\n"),
        (
            Act::Hot {
                place: place(),
                generation: 3,
            },
            "- hot 14 3\n",
        ),
        (
            Act::Action {
                place: place(),
                kinds: kinds(),
                action: LinkAction::Revalidate,
            },
            "- action 14 media+ata-bus revalidate\n",
        ),
    ];
    for (act, line) in rows {
        check_act(&rt, act, line);
    }
}

#[test]
fn acts_of_devices(rt: HostRuntime) {
    let rows = [
        (
            Act::ResetBegun {
                place: None,
                attempt: 1,
                deadline: Ms { n: 10000 },
            },
            "- reset-begun host 1 10000\n",
        ),
        (
            Act::ResetLate {
                place: Some(place()),
            },
            "- reset-late 14\n",
        ),
        (
            Act::ResetFailed {
                place: Some(place()),
            },
            "- reset-failed 14\n",
        ),
        (
            Act::ResetEndedGen {
                place: place(),
                generation: 2,
            },
            "- reset-ended 14 gen 2\n",
        ),
        (
            Act::ResetEndedNone { place: place() },
            "- reset-ended 14 none\n",
        ),
        (Act::ResetEndedHost, "- reset-ended host\n"),
        (
            Act::IdentAsked {
                place: place(),
                attempt: 3,
                deadline: Ms { n: 30000 },
            },
            "- ident-asked 14 3 30000\n",
        ),
        (Act::IdentLate { place: place() }, "- ident-late 14\n"),
        (
            Act::Identified {
                place: place(),
                model: model(),
                serial: serial(),
                sectors: 4096,
                depth: 32,
            },
            "- identified 14 ALPHA-9 z0 4096 32\n",
        ),
        (Act::Same { place: place() }, "- same 14\n"),
        (Act::Attached { place: place() }, "- attached 14\n"),
        (Act::Detached { place: place() }, "- detached 14\n"),
        (Act::Disabled { place: place() }, "- disabled 14\n"),
        (
            Act::Mode {
                place: place(),
                udma: 6,
                ncq: false,
                dubious: true,
            },
            "- mode 14 6 off dubious\n",
        ),
        (Act::WaitingTag { tag: Tag::at(0) }, "- waiting tag 0\n"),
        (Act::WaitingReset { place: place() }, "- waiting reset 14\n"),
        (Act::WaitingIdent { place: place() }, "- waiting ident 14\n"),
        (Act::Now { at: Ms { n: 1000 } }, "- now 1000\n"),
        (
            Act::Plugged {
                place: place(),
                drive: DriveNo::at(31),
            },
            "- plugged 14 31\n",
        ),
        (Act::Unplugged { place: place() }, "- unplugged 14\n"),
        (Act::Injected { place: place() }, "- injected 14\n"),
        (Act::Nothing, "- nothing\n"),
    ];
    for (act, line) in rows {
        check_act(&rt, act, line);
    }
}
