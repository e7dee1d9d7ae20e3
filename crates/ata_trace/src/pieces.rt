ghost use Rattle.std.specs.Prelude.{◌≡◌, ◌≤◌, ◌+◌, ◌*◌, ◌++◌, ◌∷◌, [], decimal, length, map};
ghost use Rattle.ata_trace.specs.Text.{joined};
ghost use Rattle.ata_trace.specs.Words.{byte_word, either_word, where_word, plus_if, or_none, kinds_word, verdict_word, refusal_word, deferral_word, action_word, speed_words};

use crate::line::Line;
use crate::refusal::Refusal;
use ata_base::{CmdId, Deferral, ErrMask, IssueNo, Kinds, LinkAction, Place, SpeedAction};
use bitflags::Flags;

/// Appends a name and the number of a command.
pub(crate) fn put_id(line: &mut Line, name: &[u8], id: CmdId)
    requires { length line.old + length name.now ≤ 300 }
    ensures text { line.new ≡ joined line.old (name.now ∷ decimal id ∷ []) }
    ensures len { length line.new ≤ length line.old + length name.now + 22 }
{
    line.word(name);
    line.number(id.get() as u64);
}

/// Appends a name and a number.
pub(crate) fn put_number(line: &mut Line, name: &[u8], n: u64)
    requires { length line.old + length name.now ≤ 300 }
    ensures text { line.new ≡ joined line.old (name.now ∷ decimal n ∷ []) }
    ensures len { length line.new ≤ length line.old + length name.now + 22 }
{
    line.word(name);
    line.number(n);
}

/// Appends a name, the number of a command and that of an issue.
pub(crate) fn put_issue(line: &mut Line, name: &[u8], id: CmdId, number: IssueNo)
    requires { length line.old + length name.now ≤ 300 }
    ensures text { line.new ≡ joined line.old (name.now ∷ decimal id ∷ decimal number.n ∷ []) }
    ensures len { length line.new ≤ length line.old + length name.now + 43 }
{
    put_id(line, name, id);
    line.number(number.n);
}

/// Appends a name and a place.
pub(crate) fn put_place(line: &mut Line, name: &[u8], place: Place)
    requires { length line.old + length name.now ≤ 300 }
    ensures text { line.new ≡ joined line.old (name.now ∷ decimal place ∷ []) }
    ensures len { length line.new ≤ length line.old + length name.now + 22 }
{
    line.word(name);
    line.number(place.get() as u64);
}

/// Appends a name, a place and a number.
pub(crate) fn put_place_number(line: &mut Line, name: &[u8], place: Place, n: u64)
    requires { length line.old + length name.now ≤ 300 }
    ensures text { line.new ≡ joined line.old (name.now ∷ decimal place ∷ decimal n ∷ []) }
    ensures len { length line.new ≤ length line.old + length name.now + 43 }
{
    put_place(line, name, place);
    line.number(n);
}

/// Appends a name, a place and a word.
pub(crate) fn put_place_word(line: &mut Line, name: &[u8], place: Place, word: &[u8])
    requires { length line.old + length name.now + length word.now ≤ 300 }
    ensures text { line.new ≡ joined line.old (name.now ∷ decimal place ∷ word.now ∷ []) }
    ensures len { length line.new ≤ length line.old + length name.now + length word.now + 23 }
{
    put_place(line, name, place);
    line.word(word);
}

/// Appends a name and a place or the host.
pub(crate) fn put_where(line: &mut Line, name: &[u8], place: Option<Place>)
    requires { length line.old + length name.now ≤ 300 }
    ensures text { line.new ≡ joined line.old (name.now ∷ where_word place ∷ []) }
    ensures len { length line.new ≤ length line.old + length name.now + 22 }
{
    line.word(name);
    match place {
        None => line.word(b"host"),
        Some(place) => line.number(place.get() as u64),
    }
}

/// Appends the registers that a drive gave.
pub(crate) fn put_registers(line: &mut Line, status: u8, error: u8, lba: u64, count: u16)
    requires { length line.old ≤ 300 }
    ensures text { line.new ≡
        joined line.old (byte_word status ∷ byte_word error ∷ decimal lba ∷ decimal count ∷ []) }
    ensures len { length line.new ≤ length line.old + 48 }
{
    line.hex(status);
    line.hex(error);
    line.number(lba);
    line.number(count as u64);
}

/// Appends numbers in decimal.
pub(crate) fn put_numbers(line: &mut Line, numbers: &[u64])
    requires { length line.old + 21 * length numbers.now ≤ 512 }
    ensures text { line.new ≡ joined line.old (map decimal numbers.now) }
    ensures len { length line.new ≤ length line.old + 21 * length numbers.now }
{
    for number in numbers {
        line.number(*number);
    }
}

/// Appends the kinds of error of a set.
pub(crate) fn put_kinds(line: &mut Line, kinds: Kinds)
    requires { length line.old ≤ 300 }
    ensures text { line.new ≡ line.old ++ 32 ∷ kinds_word kinds.0 }
    ensures len { length line.new ≤ length line.old + 90 }
{
    let mask = kinds.mask();
    let mut text = Line::new();
    plus_if(&mut text, mask.intersects(ErrMask::DEV), b"dev");
    plus_if(&mut text, mask.intersects(ErrMask::HSM), b"hsm");
    plus_if(&mut text, mask.intersects(ErrMask::TIMEOUT), b"timeout");
    plus_if(&mut text, mask.intersects(ErrMask::MEDIA), b"media");
    plus_if(&mut text, mask.intersects(ErrMask::ATA_BUS), b"ata-bus");
    plus_if(&mut text, mask.intersects(ErrMask::HOST_BUS), b"host-bus");
    plus_if(&mut text, mask.intersects(ErrMask::SYSTEM), b"system");
    plus_if(&mut text, mask.intersects(ErrMask::INVALID), b"invalid");
    plus_if(&mut text, mask.intersects(ErrMask::OTHER), b"other");
    plus_if(&mut text, mask.intersects(ErrMask::NODEV), b"nodev");
    plus_if(&mut text, mask.intersects(ErrMask::NCQ), b"ncq");
    put_or_none(line, &text);
}

/// Appends what a ring says.
pub(crate) fn put_verdict(line: &mut Line, ncq_off: bool, speed_down: bool, pio: bool, keep: bool)
    requires { length line.old ≤ 400 }
    ensures text { line.new ≡ line.old ++ 32 ∷ verdict_word ncq_off speed_down pio keep }
    ensures len { length line.new ≤ length line.old + 40 }
{
    let mut text = Line::new();
    plus_if(&mut text, ncq_off, b"ncq-off");
    plus_if(&mut text, speed_down, b"speed-down");
    plus_if(&mut text, pio, b"pio");
    plus_if(&mut text, keep, b"keep");
    put_or_none(line, &text);
}

// Appends a name to a text, behind a `+` unless it is the first, where it is chosen.
fn plus_if(text: &mut Line, chosen: bool, name: &[u8])
    requires { length text.old + length name.now + 1 ≤ 512 }
    ensures text { text.new ≡ plus_if chosen name.now text.old }
    ensures len { length text.new ≤ length text.old + length name.now + 1 }
{
    if chosen {
        if !text.bytes().is_empty() {
            text.text(b"+");
        }
        text.text(name);
    }
}

// Appends a text as a word, or `none` where it is empty.
fn put_or_none(line: &mut Line, text: &Line)
    requires { length line.old + length text.now + 5 ≤ 512 }
    ensures text { line.new ≡ line.old ++ 32 ∷ or_none text.now }
    ensures len { length line.new ≤ length line.old + length text.now + 5 }
{
    if text.bytes().is_empty() {
        line.word(b"none");
    } else {
        line.word(text.bytes());
    }
}

/// Appends what is done about the speed.
pub(crate) fn put_speed(line: &mut Line, action: &SpeedAction)
    requires { length line.old ≤ 290 }
    ensures text { line.new ≡ joined line.old (speed_words action.now) }
    ensures len { length line.new ≤ length line.old + 30 }
{
    match action {
        SpeedAction::NoChange => line.word(b"none"),
        SpeedAction::NcqOff => line.word(b"ncq-off"),
        SpeedAction::Speed { generation } => put_number(line, b"speed", *generation as u64),
        SpeedAction::Mode { udma } => put_number(line, b"mode", *udma as u64),
    }
}

/// One of two words.
pub(crate) fn either(chosen: bool, one: &'static [u8], other: &'static [u8]) -> &'static [u8]
    requires { (length one.now ≤ 10) × (length other.now ≤ 10) }
    ensures value { result.now ≡ either_word one.now other.now chosen }
    ensures short { length result.now ≤ 10 }
{
    if chosen { one } else { other }
}

/// What recovery does at a place.
pub(crate) fn action_word(action: LinkAction) -> &'static [u8]
    ensures value { result.now ≡ action_word action }
    ensures short { length result.now ≤ 10 }
{
    match action {
        LinkAction::NoAction => b"none",
        LinkAction::Revalidate => b"revalidate",
        LinkAction::Reset => b"reset",
    }
}

/// Why a command was refused.
pub(crate) fn refusal_word(why: Refusal) -> &'static [u8]
    ensures value { result.now ≡ refusal_word why }
    ensures short { length result.now ≤ 9 }
{
    match why {
        Refusal::SameId => b"same-id",
        Refusal::NoDevice => b"no-device",
        Refusal::BadCount => b"bad-count",
        Refusal::BadRange => b"bad-range",
    }
}

/// Why a command wasn't issued.
pub(crate) fn deferral_word(why: Deferral) -> &'static [u8]
    ensures value { result.now ≡ deferral_word why }
    ensures short { length result.now ≤ 10 }
{
    match why {
        Deferral::Frozen => b"frozen",
        Deferral::Recovering => b"recovering",
        Deferral::LinkBusy => b"link-busy",
        Deferral::PortBusy => b"port-busy",
        Deferral::NoTag => b"no-tag",
    }
}
