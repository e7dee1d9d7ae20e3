use ata_base::{Op, Regs, Tag};
use ata_tf::*;
use std::test::Fail;

#[test]
fn commands_as_frames(rt: HostRuntime) -> Result<(), Fail> {
    let read = Op::Read { lba: 256, count: 8 };
    let write = Op::Write {
        lba: 0,
        count: 8,
        stamp: 7,
    };
    let far = Op::Verify {
        lba: 0x0605_0403_0201,
        count: 0x0f10,
    };
    let short = Op::Read { lba: 0, count: 1 };
    let rows = [
        (
            "queued read",
            to_h2d(&of_op(&read, Tag::new(3)), 0),
            [
                0x27, 0x80, 0x60, 8, 0, 1, 0, 0x40, 0, 0, 0, 0, 0x18, 0, 0, 0, 0, 0, 0, 0,
            ],
        ),
        (
            "read behind port 1",
            to_h2d(&of_op(&short, Tag::new(0)), 1),
            [
                0x27, 0x81, 0x60, 1, 0, 0, 0, 0x40, 0, 0, 0, 0, 0, 0, 0, 0, 0, 0, 0, 0,
            ],
        ),
        (
            "read",
            to_h2d(&of_op(&read, None), 0),
            [
                0x27, 0x80, 0x25, 0, 0, 1, 0, 0x40, 0, 0, 0, 0, 8, 0, 0, 0, 0, 0, 0, 0,
            ],
        ),
        (
            "queued write",
            to_h2d(&of_op(&write, Tag::new(31)), 0),
            [
                0x27, 0x80, 0x61, 8, 0, 0, 0, 0x40, 0, 0, 0, 0, 0xf8, 0, 0, 0, 0, 0, 0, 0,
            ],
        ),
        (
            "write",
            to_h2d(&of_op(&write, None), 0),
            [
                0x27, 0x80, 0x35, 0, 0, 0, 0, 0x40, 0, 0, 0, 0, 8, 0, 0, 0, 0, 0, 0, 0,
            ],
        ),
        (
            "verify",
            to_h2d(&of_op(&far, None), 14),
            [
                0x27, 0x8e, 0x42, 0, 1, 2, 3, 0x40, 4, 5, 6, 0, 0x10, 0x0f, 0, 0, 0, 0, 0, 0,
            ],
        ),
        (
            "flush",
            to_h2d(&of_op(&Op::Flush, None), 0),
            [
                0x27, 0x80, 0xea, 0, 0, 0, 0, 0x40, 0, 0, 0, 0, 0, 0, 0, 0, 0, 0, 0, 0,
            ],
        ),
        (
            "power",
            to_h2d(&of_op(&Op::Power, None), 0),
            [
                0x27, 0x80, 0xe5, 0, 0, 0, 0, 0x40, 0, 0, 0, 0, 0, 0, 0, 0, 0, 0, 0, 0,
            ],
        ),
    ];
    for (name, frame, want) in rows {
        assert_eq!(rt; frame, want, "{name}");
    }
    Ok(())
}

#[test]
fn frames_read_back(rt: HostRuntime) {
    let read = Op::Read { lba: 256, count: 8 };
    let t = of_op(&read, Tag::new(3));
    assert!(rt; to_op(&t, 7) == Some((read, Tag::new(3))));
    let mut frame = to_h2d(&t, 2);
    assert!(rt; from_h2d(&frame) == Some((t, 2)));
    frame[0] = 0x28;
    assert!(rt; from_h2d(&frame).is_none());

    let r = Regs {
        status: 0x41,
        error: 0x40,
        lba: 100,
        device: 0x40,
        count: 0,
    };
    let mut frame = to_d2h(&r, 1);
    assert_eq!(rt;
        frame,
        [
            0x34, 0x41, 0x41, 0x40, 100, 0, 0, 0x40, 0, 0, 0, 0, 0, 0, 0, 0, 0, 0, 0, 0
        ]
    );
    assert!(rt; from_d2h(&frame) == Some((r, 1)));
    frame[11] = 1;
    assert!(rt; from_d2h(&frame).is_none());

    let mut frame = to_sdb(0x40, 0, 0, 8);
    assert_eq!(rt; frame, [0xa1, 0x40, 0x40, 0, 8, 0, 0, 0]);
    assert!(rt; from_sdb(&frame) == Some((0x40, 0, 0, 8)));
    frame[2] = 0x48;
    assert!(rt; from_sdb(&frame).is_none());
}
