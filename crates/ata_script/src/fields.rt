ghost use Rattle.std.specs.Prelude.{◌≡◌, ◌≤◌, ◌<◌, ◌^◌, ◌&&◌, ◌||◌, true, nat_le, codes, decimal, length, if◌then◌else◌};
ghost use Rattle.std.specs.Str.{bytes_eq};
ghost use Rattle.ata_trace.specs.Names.{IsDriveName};
ghost use Rattle.ata_trace.specs.Parts.{words_of, first, none_left};
ghost use Rattle.ata_trace.specs.Reading.{value_from, within, number_in, is_name, name_in};
ghost use Rattle.ata_script.specs.Fields.{all_printed, is_word, is_number};
ghost use Rattle.ata_script.specs.Fields.Field.{Small, Number, NumberOr, Name as Named};
ghost use Rattle.ata_script.specs.Taking.{State, start, taken, place_in, verdict, with_choice};

use ata_base::{Name, Place};
use ata_trace::{DriveName, Words, same, value};
use itoa::Buffer;
use std::marker::Model;

/// The words of a line, taken one by one, and whether they broke a rule so far. A contract sees the
/// words left and, of each rule, whether it is kept.
#[derive(Drop)]
pub(crate) struct Fields<'a> {
    words: Words<'a>,
    form: bool,
    numbers: bool,
    names: bool,
}

impl<'a> Model for Fields<'a> {
    ghost use Rattle.ata_script.specs.Taking.{State};

    ghost Value = { State };

    ghost view = { λ f. record { rest = f.words; form = f.form; numbers = f.numbers; names = f.names } };
}

impl<'a> Fields<'a> {
    /// The words of this line.
    pub(crate) fn new(line: &'a [u8]) -> Self
        ensures { result ≡ start (words_of line.now) }
    {
        Fields {
            words: Words::new(line),
            form: true,
            numbers: true,
            names: true,
        }
    }

    /// The next word, which stays; an empty one where none is left.
    pub(crate) fn peek(&self) -> &'a [u8]
        ensures { result.now ≡ first self.now.rest }
    {
        self.words.peek()
    }

    /// Whether no word is left.
    pub(crate) fn is_over(&self) -> bool
        ensures { result ≡ none_left self.now.rest }
    {
        self.words.is_over()
    }

    /// Takes the next word if it is this small one, and says whether it was.
    #[inline(always)]
    #[tactic(auto, using(crate::proofs::SmallWords::took))]
    pub(crate) fn take(&mut self, small: &[u8]) -> bool
        requires { is_word small.now ≡ true }
        ensures value { result ≡ bytes_eq (first self.old.rest) small.now }
        ensures state { self.new ≡ (if bytes_eq (first self.old.rest) small.now then taken (Small small.now) self.old else self.old) }
    {
        self.words.take(small)
    }

    /// Takes a small word of a form.
    pub(crate) fn small(&mut self, small: &[u8])
        ensures { self.new ≡ taken (Small small.now) self.old }
    {
        let word = self.words.next();
        let fits = same(word, small) & is_word(word);
        self.form = self.form & fits;
    }

    /// Takes one of several small words of a form, of which it is known whether it is one.
    pub(crate) fn choice(&mut self, found: bool)
        ensures { self.new ≡ with_choice found self.old }
    {
        let word = self.words.next();
        let fits = found & is_word(word);
        self.form = self.form & fits;
    }

    /// Takes a number of this range; the least of them where the word is none.
    #[inline(always)]
    pub(crate) fn number(&mut self, least: u64, most: u64) -> u64
        requires { least ≤ most }
        ensures value { result ≡ number_in least most (first self.old.rest) }
        ensures low { least ≤ result }
        ensures high { result ≤ most }
        ensures state { self.new ≡ taken (Number least most) self.old }
    {
        match self.words.short_number() {
            Some(n) => {
                self.numbers = self.numbers & is_within(n, least, most);
                within(n, least, most)
            }
            None => self.long_number(least, most),
        }
    }

    // The same of any word.
    #[inline(never)]
    fn long_number(&mut self, least: u64, most: u64) -> u64
        requires { least ≤ most }
        ensures value { result ≡ number_in least most (first self.old.rest) }
        ensures low { least ≤ result }
        ensures high { result ≤ most }
        ensures state { self.new ≡ taken (Number least most) self.old }
    {
        let word = self.words.next();
        let n = value(word);
        self.form = self.form & is_word(word);
        let within = least <= n && n <= most;
        let right = within && is_decimal(n, word);
        self.numbers = self.numbers & right;
        if within { n } else { least }
    }

    /// Takes a place, or `-` where there is none.
    pub(crate) fn place_or_none(&mut self) -> Option<Place>
        ensures value { result ≡ place_in (first self.old.rest) }
        ensures state { self.new ≡ taken (NumberOr (codes "-") 0 14) self.old }
    {
        let word = self.words.peek();
        if same(word, b"-") {
            self.words.next();
            self.form = self.form & is_word(word);
            None
        } else {
            Some(Place::at(self.number(0, 14) as u8))
        }
    }

    /// Takes a name; the name `-` where the word is none.
    pub(crate) fn name<const N: usize>(&mut self) -> Name<N>
        requires { 1 ≤ N }
        ensures value { result ≡ name_in N (first self.old.rest) }
        ensures allowed { IsDriveName result }
        ensures state { self.new ≡ taken (Named N) self.old }
    {
        let word = self.words.next();
        self.form = self.form & is_word(word);
        let (name, right) = name_of(word);
        self.names = self.names & right;
        name
    }

    /// The least rule that was broken, at the end of the line.
    pub(crate) fn verdict(&mut self) -> Option<u8>
        ensures { result ≡ verdict self.old }
    {
        let over = self.words.pop().is_none();
        if !(self.form & over) {
            Some(3)
        } else if !self.numbers {
            Some(4)
        } else if !self.names {
            Some(5)
        } else {
            None
        }
    }
}

// The name of these bytes, and whether it is one; the name `-` where it isn't.
fn name_of<const N: usize>(word: &[u8]) -> (Name<N>, bool)
    requires { 1 ≤ N }
    ensures value { result.0 ≡ name_in N word.now }
    ensures allowed { IsDriveName result.0 }
    ensures right { result.1 ≡ (is_name word.now && nat_le (length word.now) N) }
{
    match DriveName::of(word) {
        Some(name) => (text_of(&name), true),
        None => (text_of(&DriveName::dash()), false),
    }
}

// The text of a drive's name.
fn text_of<const N: usize>(name: &DriveName<N>) -> Name<N>
    ensures value { result ≡ name.now }
    ensures allowed { IsDriveName result }
{
    match Name::new(name.bytes()) {
        Some(text) => text,
        None => unreachable!(),
    }
}

// Whether a number is in the range.
fn is_within(n: u64, least: u64, most: u64) -> bool
    ensures { result ≡ (nat_le least n && nat_le n most) }
{
    least <= n && n <= most
}

// The number, where it is in the range, and else the least of it.
fn within(n: u64, least: u64, most: u64) -> u64
    requires { least ≤ most }
    ensures value { result ≡ within least most n }
    ensures low { least ≤ result }
    ensures high { result ≤ most }
{
    if least <= n && n <= most { n } else { least }
}

// Whether the number of a word is written so: decimal, without sign and leading zeros.
fn is_decimal(n: u64, word: &[u8]) -> bool
    requires { n ≡ value_from 0 word.now }
    ensures { result ≡ bytes_eq (decimal n) word.now }
{
    let mut buffer = Buffer::new();
    same(buffer.format(n).as_bytes(), word)
}

// Whether it is a word: not empty, and each byte in 21h to 7Eh.
fn is_word(word: &[u8]) -> bool
    ensures { result ≡ is_word word.now }
{
    !word.is_empty() && all_printed(word)
}

// Whether each byte is in 21h to 7Eh.
fn all_printed(word: &[u8]) -> bool
    ensures { result ≡ all_printed word.now }
{
    for byte in word {
        if !(33 <= *byte && *byte <= 126) {
            return false;
        }
    }
    true
}
