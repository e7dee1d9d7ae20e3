ghost use Rattle.std.specs.Prelude.{◌≡◌, ◌+◌, ◌-◌, ◌*◌, ◌%◌, ◌≤◌, [], ◌++◌, length};
ghost use Rattle.byteorder.specs.Endian.{little_bytes};
ghost use Rattle.ata_ident.specs.Build.{blank_words, with_integrity};
ghost use Rattle.ata_ident.specs.Text.{text_bytes};

use crate::text::swap_pairs;
use arrayvec::ArrayVec;
use ata_base::Name;
use ata_lanes::seal;
use byteorder::{ByteOrder, LittleEndian};
use std::marker::Model;

// The low byte of word 255 where the high byte is a check sum (ACS-3, integrity word).
pub const SIGNATURE: u8 = 0xa5;

/// A page that is written word by word from its front, seen as the bytes so far.
#[derive(Drop)]
pub struct Writer {
    bytes: ArrayVec<u8, 512>,
}

impl Model for Writer {
    ghost use Rattle.std.specs.Prelude.{List, ℕ};

    ghost Value = { List ℕ };

    ghost view = { λ w. w.bytes.items };

    ghost inverse = { λ bytes. record { bytes = record { items = bytes } } };
}

impl Writer {
    pub fn new() -> Self
        ensures { result ≡ [] }
    {
        Writer {
            bytes: ArrayVec::new(),
        }
    }

    /// So many words that are 0.
    pub fn blank(&mut self, words: usize)
        requires { length self.old + 2 * words ≤ 512 }
        ensures value { self.new ≡ self.old ++ blank_words words }
        ensures len { length self.new ≡ length self.old + 2 * words }
    {
        self.put(&[0; 512][..2 * words]);
    }

    /// One word, its low byte first.
    pub fn word(&mut self, word: u16)
        requires { length self.old + 2 ≤ 512 }
        ensures value { self.new ≡ self.old ++ little_bytes 2 word }
        ensures len { length self.new ≡ length self.old + 2 }
    {
        let mut bytes = [0; 2];
        LittleEndian::write_u16(&mut bytes, word);
        self.put(&bytes);
    }

    /// Four words, the lowest first.
    pub fn four_words(&mut self, number: u64)
        requires { length self.old + 8 ≤ 512 }
        ensures value { self.new ≡ self.old ++ little_bytes 8 number }
        ensures len { length self.new ≡ length self.old + 8 }
    {
        let mut bytes = [0; 8];
        LittleEndian::write_u64(&mut bytes, number);
        self.put(&bytes);
    }

    /// A text in a field of `N` characters, with spaces behind it.
    pub fn text<const N: usize>(&mut self, text: &Name<N>)
        requires { length self.old + N ≤ 512 }
        ensures value { self.new ≡ self.old ++ text_bytes N text.now }
        ensures len { length self.new ≡ length self.old + N }
        ensures short { length text.now ≤ N }
    {
        let bytes = text.bytes();
        let mut field = [b' '; N];
        field[..bytes.len()].copy_from_slice(bytes);
        swap_pairs(&mut field);
        self.put(&field);
    }

    /// The whole page: the 255 words so far and the integrity word.
    pub fn finish(self) -> [u8; 512]
        requires { length self ≡ 510 }
        ensures { result ≡ with_integrity self }
    {
        let mut page = [0; 512];
        page[..510].copy_from_slice(self.bytes.as_slice());
        page[510] = SIGNATURE;
        seal(&mut page);
        page
    }

    fn put(&mut self, piece: &[u8])
        requires { length self.old + length piece.now ≤ 512 }
        ensures value { self.new ≡ self.old ++ piece.now }
        ensures len { length self.new ≡ length self.old + length piece.now }
    {
        match self.bytes.try_extend_from_slice(piece) {
            Ok(()) => (),
            Err(_) => unreachable!(),
        }
    }
}
