ghost use Rattle.std.specs.Prelude.{◌≡◌, ◌<◌, ◌≤◌, ◌^◌, ◌∷◌, [], List, ℕ, IfSome, MatchOption, decimal, drop, length, true, false};
ghost use Rattle.std.specs.Option.{option_map_or};
ghost use Rattle.std.specs.Str.{bytes_eq};
ghost use Rattle.memchr.specs.Find.{IsFirstByte, is_byte};
ghost use Rattle.ata_trace.specs.Parts.{parts_of, first, later, none_left, without_end};
ghost use Rattle.ata_trace.specs.Reading.{after_name};

use crate::number::leading_number;
use memchr::memchr;
use std::marker::Model;

/// The parts of a text between the bytes `CUT`, as far as they were not taken yet. A contract sees
/// the list of them.
#[derive(Drop)]
pub struct Parts<'a, const CUT: u8> {
    rest: Option<&'a [u8]>,
}

/// The words of a line.
pub type Words<'a> = Parts<'a, 32>;

impl<'a, const CUT: u8> Model for Parts<'a, CUT> {
    ghost use Rattle.std.specs.Prelude.{List, ℕ, []};
    ghost use Rattle.std.specs.Option.{option_map_or};
    ghost use Rattle.ata_trace.specs.Parts.{parts_of};

    ghost Value = { List (List ℕ) };

    ghost view = { λ p. option_map_or (λ text. parts_of CUT text.now) p.rest [] };
}

impl<'a, const CUT: u8> Parts<'a, CUT> {
    /// All parts of this text.
    pub fn new(text: &'a [u8]) -> Self
        ensures { result ≡ parts_of CUT text.now }
    {
        Parts { rest: Some(text) }
    }

    /// Takes the first part; an empty one where none is left.
    pub fn next(&mut self) -> &'a [u8]
        ensures value { result.now ≡ first self.old }
        ensures rest { self.new ≡ later self.old }
    {
        let text = match self.rest {
            Some(text) => text,
            None => return b"",
        };
        let (part, rest) = cut_at(text, CUT);
        self.rest = rest;
        part
    }

    /// The first part, which stays; an empty one where none is left.
    pub fn peek(&self) -> &'a [u8]
        ensures { result.now ≡ first self.now }
    {
        match self.rest {
            Some(text) => cut_at(text, CUT).0,
            None => b"",
        }
    }

    /// Takes the first part if it is this one, and says whether it was.
    pub fn take(&mut self, name: &[u8]) -> bool
        ensures value { result ≡ bytes_eq (first self.old) name.now }
        ensures rest { self.new ≡ after_name self.old name.now }
    {
        let text = match self.rest {
            Some(text) => text,
            None => return name.is_empty(),
        };
        match behind(text, name, CUT) {
            Some(rest) => {
                self.rest = rest;
                true
            }
            None => false,
        }
    }

    /// Takes the first part where it is a decimal number, without sign and leading zeros, that is
    /// read in one pass; none is taken where it isn't, and also before some numbers of 20 digits.
    pub fn short_number(&mut self) -> Option<u64>
        requires { CUT < 48 }
        ensures { MatchOption result (self.new ≡ self.old) (λ n. (n < 2 ^ 64) × (self.old ≡ decimal n ∷ self.new)) }
    {
        let text = match self.rest {
            Some(text) => text,
            None => return None,
        };
        match digit_alone(text, CUT) {
            Some((digit, rest)) => {
                self.rest = rest;
                Some(u64::from(digit))
            }
            None => self.longer_number(),
        }
    }

    // The same of a number with any digits.
    #[inline(never)]
    fn longer_number(&mut self) -> Option<u64>
        requires { CUT < 48 }
        ensures { MatchOption result (self.new ≡ self.old) (λ n. (n < 2 ^ 64) × (self.old ≡ decimal n ∷ self.new)) }
    {
        let text = match self.rest {
            Some(text) => text,
            None => return None,
        };
        let (n, at) = match leading_number(text) {
            Some(found) => found,
            None => return None,
        };
        if at == text.len() {
            self.rest = None;
            return Some(n);
        }
        if text[at] != CUT {
            return None;
        }
        self.rest = Some(&text[at + 1..]);
        Some(n)
    }

    /// Whether no part is left.
    #[tactic(auto, using(crate::proofs::PartLemmas::some_part))]
    pub fn is_over(&self) -> bool
        ensures { result ≡ none_left self.now }
    {
        self.rest.is_none()
    }

    /// Takes the first part; `None` where none is left.
    pub fn pop(&mut self) -> Option<&'a [u8]>
        ensures { MatchOption result (self.old ≡ []) (λ part. self.old ≡ part.now ∷ self.new) }
    {
        let text = match self.rest {
            Some(text) => text,
            None => return None,
        };
        let (part, rest) = cut_at(text, CUT);
        self.rest = rest;
        Some(part)
    }
}

/// Whether two texts are the same.
pub fn same(a: &[u8], b: &[u8]) -> bool
    ensures { result ≡ bytes_eq a.now b.now }
{
    a == b
}

/// A line without its last byte.
pub fn without_end(line: &[u8]) -> &[u8]
    ensures { result.now ≡ without_end line.now }
{
    match line.len() {
        0 => line,
        len => &line[..len - 1],
    }
}

// The part before the first byte of this value, and what follows that byte, if it is there.
fn cut_at(text: &[u8], cut: u8) -> (&[u8], Option<&[u8]>)
    ensures { parts_of cut text.now
        ≡ result.0.now ∷ option_map_or (λ rest. parts_of cut rest.now) result.1 [] }
{
    match place_of(text, cut) {
        Some(at) => (&text[..at], Some(&text[at + 1..])),
        None => (text, None),
    }
}

// The digit that is the first part of a text, and what follows it, if a cut stands there; `None` where
// the first part isn't one digit.
#[tactic(auto, using(crate::proofs::NumberLemmas::digit_ends, crate::proofs::NumberLemmas::digit_cut))]
fn digit_alone(text: &[u8], cut: u8) -> Option<(u8, Option<&[u8]>)>
    requires { cut < 48 }
    ensures { IfSome result (λ found. parts_of cut text.now
        ≡ decimal found.0 ∷ option_map_or (λ rest. parts_of cut rest.now) found.1 []) }
{
    if text.is_empty() || text[0] < b'0' || text[0] > b'9' {
        return None;
    }
    let digit = text[0] - b'0';
    if text.len() == 1 {
        return Some((digit, None));
    }
    if text[1] != cut {
        return None;
    }
    Some((digit, Some(&text[2..])))
}

// What stands behind the first part of a text, if a cut stands there, where that part is this name.
#[tactic(auto, using(crate::proofs::PartLemmas::both_end, crate::proofs::PartLemmas::cut_follows, crate::proofs::PartLemmas::more_follows))]
fn behind<'a>(text: &'a [u8], name: &[u8], cut: u8) -> Option<Option<&'a [u8]>>
    ensures { MatchOption result (bytes_eq (first (parts_of cut text.now)) name.now ≡ false)
        (λ rest. (bytes_eq (first (parts_of cut text.now)) name.now ≡ true)
        × (later (parts_of cut text.now) ≡ option_map_or (λ rest. parts_of cut rest.now) rest [])) }
{
    let end = common(text, name, cut);
    if end < name.len() {
        return None;
    }
    if end == text.len() {
        return Some(None);
    }
    if text[end] != cut {
        return None;
    }
    Some(Some(&text[end + 1..]))
}

// How many bytes stand at the beginning of both texts, up to the first cut.
fn common(text: &[u8], name: &[u8], cut: u8) -> usize
    ensures within { (result ≤ length text.now) × (result ≤ length name.now) }
    ensures part { bytes_eq (first (parts_of cut text.now)) name.now
        ≡ bytes_eq (first (parts_of cut (drop result text.now))) (drop result name.now) }
    ensures rest { later (parts_of cut text.now) ≡ later (parts_of cut (drop result text.now)) }
    ensures ended { result < length name.now
        → bytes_eq (first (parts_of cut (drop result text.now))) (drop result name.now) ≡ false }
{
    let mut at = 0;
    while at < name.len() && at < text.len() && text[at] == name[at] && text[at] != cut {
        at += 1;
    }
    at
}

// The place of the first byte of this value.
fn place_of(text: &[u8], byte: u8) -> Option<usize>
    ensures value { IsFirstByte (is_byte byte) text.now result }
    ensures within { IfSome result (λ at. at < length text.now) }
{
    if byte == b'\n' {
        memchr(byte, text)
    } else {
        near_place_of(text, byte)
    }
}

// The same, quicker where the byte is near.
fn near_place_of(text: &[u8], byte: u8) -> Option<usize>
    ensures value { IsFirstByte (is_byte byte) text.now result }
    ensures within { IfSome result (λ at. at < length text.now) }
{
    let mut at = 0;
    while at < text.len() {
        if text[at] == byte {
            return Some(at);
        }
        at += 1;
    }
    None
}
