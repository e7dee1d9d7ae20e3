ghost use Rattle.std.specs.Prelude.{◌≡◌, false};

use ata_base::{CmdId, ErrMask, IssueNo, Kinds, Ms, Place, Tag};
use host_tags::*;

fn flight(n: u64) -> InFlight
    ensures { result.owned ≡ false }
{
    InFlight {
        id: CmdId::at(1),
        number: IssueNo { n },
        place: Place::at(0),
        queued: true,
        deadline: Ms { n: 30_000 },
        expired: false,
        owned: false,
        kinds: Kinds::none(),
    }
}

/// 32 issues get the tags 0 to 31 in turn, and one more gets none.
#[test]
fn tags_in_turn(rt: HostRuntime) {
    let mut slots = Slots::new();
    for want in 0..32u8 {
        let tag = slots.claim(32, flight(u64::from(want)));
        assert!(rt; tag == Tag::new(want), "tag {want}");
    }
    assert!(rt; slots.claim(32, flight(33)).is_none());
    assert_eq!(rt; slots.busy(), 0xffff_ffff);
}

/// Of two issues one is condemned and the other comes to its end, and its tag is given out again.
#[test]
fn two_issues_to_their_ends(rt: HostRuntime) {
    let (first, second) = (Tag::at(0), Tag::at(1));
    let mut slots = Slots::new();
    slots.put(first, flight(1));
    slots.put(second, flight(2));
    assert!(rt; slots.claim(2, flight(3)).is_none());
    slots.expire_mark(second);
    slots.condemn(first, Kinds::at(ErrMask::MEDIA));
    assert_eq!(rt; (slots.busy(), slots.owned()), (3, 1));
    let condemned = slots.get(first).unwrap();
    assert!(rt; condemned.owned && condemned.kinds.mask() == ErrMask::MEDIA);
    let gone = slots.release(second);
    assert!(rt; gone.expired && gone.number == IssueNo { n: 2 });
    assert_eq!(rt; (slots.busy(), slots.owned()), (1, 1));
    assert!(rt; slots.claim(2, flight(4)) == Some(second));
}
