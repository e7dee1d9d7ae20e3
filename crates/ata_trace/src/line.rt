ghost use Rattle.std.specs.Prelude.{◌≡◌, ◌<◌, ◌≤◌, ◌+◌, ◌++◌, ◌∷◌, [], codes, decimal, length, slice_index};
ghost use Rattle.hex.specs.Hex.{encode_lower, lower_digits};
ghost use Rattle.ata_trace.specs.Words.{byte_word};

use itoa::write_digits;
use std::marker::Model;

/// A line of text in the making: at most 512 bytes, and no memory. A contract sees it as the list of
/// its bytes.
///
/// The words of a line stand one space apart: `text` begins it, `word`, `number`, `hex` and `frame`
/// append a space and a word each, and `end` appends the line feed. Each of them needs room for what
/// it appends.
///
/// Its bytes are the first `len` of `bytes`; what stands behind them is of no meaning.
#[derive(Debug, Drop)]
pub struct Line {
    bytes: [u8; 512],
    len: usize,
}

impl Model for Line {
    ghost use Rattle.std.specs.Prelude.{◌≡◌, ◌≤◌, List, ℕ, length, take};

    ghost Value = { List ℕ };

    ghost view = { λ line. take line.len line.bytes };

    ghost invariant = { λ line. (line.len ≤ 512) × (length line.bytes ≡ 512) };
}

impl Line {
    /// A line without any text.
    pub fn new() -> Self
        ensures { result ≡ [] }
    {
        Line {
            bytes: [0; 512],
            len: 0,
        }
    }

    /// Its bytes, at most 512.
    pub fn bytes(&self) -> &[u8]
        ensures value { result.now ≡ self.now }
        ensures short { length self.now ≤ 512 }
    {
        &self.bytes[..self.len]
    }

    /// Takes all text out.
    pub fn clear(&mut self)
        ensures { self.new ≡ [] }
    {
        self.len = 0;
    }

    /// Appends these bytes as they are.
    pub fn text(&mut self, piece: &[u8])
        requires { length self.old + length piece.now ≤ 512 }
        ensures text { self.new ≡ self.old ++ piece.now }
        ensures len { length self.new ≡ length self.old + length piece.now }
    {
        let start = self.len;
        let end = start + piece.len();
        self.bytes[start..end].copy_from_slice(piece);
        self.len = end;
    }

    /// Appends a space and this word.
    pub fn word(&mut self, word: &[u8])
        requires { length self.old + length word.now + 1 ≤ 512 }
        ensures text { self.new ≡ self.old ++ 32 ∷ word.now }
        ensures len { length self.new ≡ length self.old + length word.now + 1 }
    {
        self.text(b" ");
        self.text(word);
    }

    /// Appends a space and the number's decimal digits, at most 20.
    pub fn number(&mut self, n: u64)
        requires { length self.old + 21 ≤ 512 }
        ensures text { self.new ≡ self.old ++ 32 ∷ decimal n }
        ensures len { length self.new ≤ length self.old + 21 }
    {
        if n < 10 {
            self.text(&[b' ', b'0' + n as u8]);
        } else {
            self.digits(n);
        }
    }

    // The same of any number, in place.
    fn digits(&mut self, n: u64)
        requires { length self.old + 21 ≤ 512 }
        ensures text { self.new ≡ self.old ++ 32 ∷ decimal n }
        ensures len { length self.new ≤ length self.old + 21 }
    {
        self.text(b" ");
        let end = self.len + digit_count(n);
        let _start = write_digits(n, &mut self.bytes, end);
        self.len = end;
    }

    /// Appends a space and the byte as two lower-case hexadecimal digits.
    #[tactic(auto, unfolding(hex::specs::Hex::encode_with))]
    pub fn hex(&mut self, byte: u8)
        requires { length self.old + 3 ≤ 512 }
        ensures text { self.new ≡ self.old ++ 32 ∷ byte_word byte }
        ensures len { length self.new ≡ length self.old + 3 }
    {
        self.text(&[b' ', hex_digit(byte / 16), hex_digit(byte % 16)]);
    }

    /// Appends a space and the 20 bytes of a frame as 40 lower-case hexadecimal digits.
    pub fn frame(&mut self, bytes: &[u8; 20])
        requires { length self.old + 41 ≤ 512 }
        ensures text { self.new ≡ self.old ++ 32 ∷ encode_lower bytes.now }
        ensures len { length self.new ≡ length self.old + 41 }
    {
        let mut digits = [0u8; 40];
        match hex::encode_to_slice(*bytes, &mut digits) {
            Ok(()) => self.word(&digits),
            Err(_) => unreachable!(),
        }
    }

    /// Appends the line feed that ends it.
    pub fn end(&mut self)
        requires { length self.old + 1 ≤ 512 }
        ensures text { self.new ≡ self.old ++ codes "\n" }
        ensures len { length self.new ≡ length self.old + 1 }
    {
        self.text(b"\n");
    }
}

// A lower-case hexadecimal digit.
fn hex_digit(n: u8) -> u8
    requires { n < 16 }
    ensures { result ≡ slice_index lower_digits n }
{
    b"0123456789abcdef"[n as usize]
}

// How many decimal digits a number has.
fn digit_count(n: u64) -> usize
    ensures value { result ≡ length (decimal n) }
    ensures most { result ≤ 20 }
{
    let mut left = n;
    let mut count = 0;
    while left >= 10_000 {
        left /= 10_000;
        count += 4;
    }
    count + short_count(left)
}

// How many decimal digits a number below 10,000 has.
fn short_count(n: u64) -> usize
    requires { n < 10000 }
    ensures value { result ≡ length (decimal n) }
    ensures most { result ≤ 4 }
{
    if n < 10 {
        1
    } else if n < 100 {
        2
    } else if n < 1000 {
        3
    } else {
        4
    }
}
