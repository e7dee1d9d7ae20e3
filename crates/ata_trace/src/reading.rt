ghost use Rattle.std.specs.Prelude.{◌≡◌, ◌≤◌};
ghost use Rattle.std.specs.Str.{bytes_eq};
ghost use Rattle.ata_base.specs.Kinds.{AllKnown};
ghost use Rattle.ata_trace.specs.Parts.{parts_of, first, later};
ghost use Rattle.ata_trace.specs.Reading.{with_digit, value_from, within, number_in, any_in, where_in, byte_in, frame_in, is_name, name_in, kind_if, after_name, kinds_in, who_in, refusal_in, deferral_in, action_in, speed_in, stamps_in};

use crate::names::DriveName;
use crate::parts::{Parts, Words, same};
use crate::refusal::Refusal;
use crate::who::Who;
use ata_base::{
    ActorNo, CmdId, Deferral, DriveNo, ErrMask, IssueNo, Kinds, LinkAction, Ms, Place, SpeedAction,
    Stamps, Tag,
};

// What the next word may tell. Each of these takes a word and gives what it means, where it is the
// word of such a thing, and any other where it isn't: who reads a line writes it again and compares.

/// The number with these digits, where it is one of 64 bits; any number else.
pub fn value(word: &[u8]) -> u64
    ensures { result ≡ value_from 0 word.now }
{
    let mut n: u64 = 0;
    for digit in word {
        n = with_digit(n, *digit);
    }
    n
}

// The number with one digit more.
fn with_digit(n: u64, digit: u8) -> u64
    ensures { result ≡ with_digit n digit }
{
    n.wrapping_mul(10).wrapping_add((digit % 16) as u64)
}

/// Takes a number of this range.
pub(crate) fn number(words: &mut Words<'_>, least: u64, most: u64) -> u64
    requires { least ≤ most }
    ensures value { result ≡ number_in least most (first words.old) }
    ensures low { least ≤ result }
    ensures high { result ≤ most }
    ensures rest { words.new ≡ later words.old }
{
    let n = value(words.next());
    if least <= n && n <= most { n } else { least }
}

/// Takes any number.
pub(crate) fn long(words: &mut Words<'_>) -> u64
    ensures value { result ≡ any_in (first words.old) }
    ensures rest { words.new ≡ later words.old }
{
    number(words, 0, u64::MAX)
}

/// Takes a number of 8 bits.
pub(crate) fn small(words: &mut Words<'_>) -> u8
    ensures value { result ≡ number_in 0 255 (first words.old) }
    ensures rest { words.new ≡ later words.old }
{
    number(words, 0, 255) as u8
}

/// Takes a count register.
pub(crate) fn count(words: &mut Words<'_>) -> u16
    ensures value { result ≡ number_in 0 65535 (first words.old) }
    ensures rest { words.new ≡ later words.old }
{
    number(words, 0, 65535) as u16
}

/// Takes the number of a command.
pub(crate) fn id(words: &mut Words<'_>) -> CmdId
    ensures value { result ≡ number_in 1 65535 (first words.old) }
    ensures rest { words.new ≡ later words.old }
{
    CmdId::at(number(words, 1, 65535) as u16)
}

/// Takes the number of an issue.
pub(crate) fn issue(words: &mut Words<'_>) -> IssueNo
    ensures value { result ≡ record { n = any_in (first words.old) } }
    ensures rest { words.new ≡ later words.old }
{
    IssueNo { n: long(words) }
}

/// Takes a time.
pub(crate) fn time(words: &mut Words<'_>) -> Ms
    ensures value { result ≡ record { n = any_in (first words.old) } }
    ensures rest { words.new ≡ later words.old }
{
    Ms { n: long(words) }
}

/// Takes a tag.
pub(crate) fn tag(words: &mut Words<'_>) -> Tag
    ensures value { result ≡ number_in 0 31 (first words.old) }
    ensures rest { words.new ≡ later words.old }
{
    Tag::at(number(words, 0, 31) as u8)
}

/// Takes the number of a drive.
pub(crate) fn drive(words: &mut Words<'_>) -> DriveNo
    ensures value { result ≡ number_in 0 31 (first words.old) }
    ensures rest { words.new ≡ later words.old }
{
    DriveNo::at(number(words, 0, 31) as u8)
}

/// Takes a place.
pub(crate) fn place(words: &mut Words<'_>) -> Place
    ensures value { result ≡ number_in 0 14 (first words.old) }
    ensures rest { words.new ≡ later words.old }
{
    Place::at(number(words, 0, 14) as u8)
}

/// Takes a place or `host`.
pub(crate) fn place_or_host(words: &mut Words<'_>) -> Option<Place>
    ensures value { result ≡ where_in (first words.old) }
    ensures rest { words.new ≡ later words.old }
{
    if words.take(b"host") {
        None
    } else {
        Some(place(words))
    }
}

/// Takes two hexadecimal digits.
pub(crate) fn byte(words: &mut Words<'_>) -> u8
    ensures value { result ≡ byte_in (first words.old) }
    ensures rest { words.new ≡ later words.old }
{
    let mut byte = [0u8; 1];
    match hex::decode_to_slice(words.next(), &mut byte) {
        Ok(()) => byte[0],
        Err(_) => 0,
    }
}

/// Takes a frame of 40 hexadecimal digits.
pub(crate) fn frame(words: &mut Words<'_>) -> [u8; 20]
    ensures value { result ≡ frame_in (first words.old) }
    ensures rest { words.new ≡ later words.old }
{
    let mut bytes = [0u8; 20];
    match hex::decode_to_slice(words.next(), &mut bytes) {
        Ok(()) => bytes,
        Err(_) => [0u8; 20],
    }
}

/// Takes the name of a drive.
pub(crate) fn name<const N: usize>(words: &mut Words<'_>) -> DriveName<N>
    requires { 1 ≤ N }
    ensures value { result ≡ name_in N (first words.old) }
    ensures rest { words.new ≡ later words.old }
{
    match DriveName::of(words.next()) {
        Some(name) => name,
        None => DriveName::dash(),
    }
}

/// Takes a word, and says whether it is this one.
pub(crate) fn is(words: &mut Words<'_>, expected: &[u8]) -> bool
    ensures value { result ≡ bytes_eq (first words.old) expected.now }
    ensures rest { words.new ≡ later words.old }
{
    same(words.next(), expected)
}

/// Takes kinds of error.
#[tactic(auto, unfolding(crate::specs::Reading::kinds_in))]
pub(crate) fn kinds(words: &mut Words<'_>) -> Kinds
    ensures value { result ≡ record { 0 = kinds_in (first words.old) } }
    ensures rest { words.new ≡ later words.old }
{
    let mut parts = Parts::<43>::new(words.next());
    let mut kinds = Kinds::none();
    kinds = kinds.union(kind_if(&mut parts, b"dev", ErrMask::DEV));
    kinds = kinds.union(kind_if(&mut parts, b"hsm", ErrMask::HSM));
    kinds = kinds.union(kind_if(&mut parts, b"timeout", ErrMask::TIMEOUT));
    kinds = kinds.union(kind_if(&mut parts, b"media", ErrMask::MEDIA));
    kinds = kinds.union(kind_if(&mut parts, b"ata-bus", ErrMask::ATA_BUS));
    kinds = kinds.union(kind_if(&mut parts, b"host-bus", ErrMask::HOST_BUS));
    kinds = kinds.union(kind_if(&mut parts, b"system", ErrMask::SYSTEM));
    kinds = kinds.union(kind_if(&mut parts, b"invalid", ErrMask::INVALID));
    kinds = kinds.union(kind_if(&mut parts, b"other", ErrMask::OTHER));
    kinds = kinds.union(kind_if(&mut parts, b"nodev", ErrMask::NODEV));
    kinds.union(kind_if(&mut parts, b"ncq", ErrMask::NCQ))
}

// The kind, if the next part is its name, which is then taken; else none.
fn kind_if(parts: &mut Parts<'_, 43>, name: &[u8], kind: ErrMask) -> Kinds
    requires { AllKnown kind.0 }
    ensures value { result.0 ≡ kind_if parts.old name.now kind.0 }
    ensures rest { parts.new ≡ after_name parts.old name.now }
{
    if parts.take(name) {
        Kinds::at(kind)
    } else {
        Kinds::none()
    }
}

/// Takes who took a step.
pub(crate) fn who(words: &mut Words<'_>) -> Who
    ensures value { result ≡ who_in (first words.old) }
    ensures rest { words.new ≡ later words.old }
{
    if words.take(b"boot") {
        Who::Boot
    } else if words.take(b"settle") {
        Who::Settle
    } else {
        Who::Actor(ActorNo::at(number(words, 0, 31) as u8))
    }
}

/// Takes why a command was refused.
pub(crate) fn refusal(words: &mut Words<'_>) -> Refusal
    ensures value { result ≡ refusal_in (first words.old) }
    ensures rest { words.new ≡ later words.old }
{
    let word = words.next();
    if same(word, b"same-id") {
        Refusal::SameId
    } else if same(word, b"no-device") {
        Refusal::NoDevice
    } else if same(word, b"bad-count") {
        Refusal::BadCount
    } else {
        Refusal::BadRange
    }
}

/// Takes why a command wasn't issued.
pub(crate) fn deferral(words: &mut Words<'_>) -> Deferral
    ensures value { result ≡ deferral_in (first words.old) }
    ensures rest { words.new ≡ later words.old }
{
    let word = words.next();
    if same(word, b"frozen") {
        Deferral::Frozen
    } else if same(word, b"recovering") {
        Deferral::Recovering
    } else if same(word, b"link-busy") {
        Deferral::LinkBusy
    } else if same(word, b"port-busy") {
        Deferral::PortBusy
    } else {
        Deferral::NoTag
    }
}

/// Takes what recovery does at a place.
pub(crate) fn link_action(words: &mut Words<'_>) -> LinkAction
    ensures value { result ≡ action_in (first words.old) }
    ensures rest { words.new ≡ later words.old }
{
    let word = words.next();
    if same(word, b"none") {
        LinkAction::NoAction
    } else if same(word, b"revalidate") {
        LinkAction::Revalidate
    } else {
        LinkAction::Reset
    }
}

/// Takes what is done about the speed, one word or two.
pub(crate) fn speed(words: &mut Words<'_>) -> SpeedAction
    ensures { result ≡ speed_in words.old }
{
    let word = words.next();
    if same(word, b"none") {
        SpeedAction::NoChange
    } else if same(word, b"ncq-off") {
        SpeedAction::NcqOff
    } else if same(word, b"speed") {
        SpeedAction::Speed {
            generation: small(words),
        }
    } else {
        SpeedAction::Mode { udma: small(words) }
    }
}

/// Takes at most 16 stamps.
pub(crate) fn stamps(words: &mut Words<'_>) -> Stamps
    ensures { result ≡ stamps_in 16 words.old }
{
    let mut stamps = Stamps::new();
    for taken in 0..16usize {
        match words.pop() {
            Some(word) => stamps.push(value(word)),
            None => return stamps,
        }
    }
    stamps
}
