ghost use Rattle.std.specs.Prelude.{◌≡◌, Some, None, decimal, map};
ghost use Rattle.std.specs.Str.{bytes_eq};
ghost use Rattle.std.specs.String.{string_bytes};
ghost use Rattle.atahost.specs.Words.{asked_by, gen_of, number_of, rounds_of};

use ata_trace::{same, value};
use itoa::Buffer;

/// The rounds of settling where the words name no number.
const USUAL_ROUNDS: u32 = 200_000;

/// The most rounds that words may name.
const MOST_ROUNDS: u32 = 1_000_000;

/// The greatest number of a generated script; the least is 1.
const MOST_GENERATED: u32 = 20_000;

/// What the words after the program's name ask for.
#[derive(Clone, Copy, Debug, PartialEq, Eq)]
pub enum Command {
    /// `replay`, or `replay --rounds R`: replays a script, and settles each port in at most so many
    /// rounds, 0 to 1,000,000; 200,000 where the words name no number.
    Replay { rounds: u32 },
    /// `run`, or `run --rounds R`: runs the actors of a script on threads, and settles as `replay` does.
    Run { rounds: u32 },
    /// `gen N`, or `gen N --rounds R`: replays the script of a number, 1 to 20,000, as `replay` does, and tells what its
    /// journals come to.
    Gen { n: u32, rounds: u32 },
}

/// The command that words ask for; `None` exactly where they ask for none.
pub fn command_of(words: &[String]) -> Option<Command>
    ensures { result ≡ asked_by words.now }
{
    let (word, rest) = words.split_first()?;
    if same(word.as_bytes(), b"replay") {
        Some(Command::Replay {
            rounds: rounds_of(rest)?,
        })
    } else if same(word.as_bytes(), b"run") {
        Some(Command::Run {
            rounds: rounds_of(rest)?,
        })
    } else if same(word.as_bytes(), b"gen") {
        gen_of(rest)
    } else {
        None
    }
}

// `gen` by the words behind it.
fn gen_of(words: &[String]) -> Option<Command>
    ensures { result ≡ gen_of (map string_bytes words.now) }
{
    let (number, rest) = words.split_first()?;
    Some(Command::Gen {
        n: number_of(number.as_bytes(), 1, MOST_GENERATED)?,
        rounds: rounds_of(rest)?,
    })
}

// The rounds by the words behind those of a command.
fn rounds_of(words: &[String]) -> Option<u32>
    ensures { result ≡ rounds_of (map string_bytes words.now) }
{
    match words {
        [] => Some(USUAL_ROUNDS),
        [flag, number] if same(flag.as_bytes(), b"--rounds") => {
            number_of(number.as_bytes(), 0, MOST_ROUNDS)
        }
        _ => None,
    }
}

// The number that a word is, where it is in this range.
fn number_of(word: &[u8], least: u32, most: u32) -> Option<u32>
    ensures { result ≡ number_of least most word.now }
{
    let n = value(word);
    if u64::from(least) <= n && n <= u64::from(most) && is_decimal(n, word) {
        Some(n as u32)
    } else {
        None
    }
}

// Whether the number of a word is written so.
fn is_decimal(n: u64, word: &[u8]) -> bool
    ensures { result ≡ bytes_eq (decimal n) word.now }
{
    let mut buffer = Buffer::new();
    same(buffer.format(n).as_bytes(), word)
}
