ghost use Rattle.std.specs.Prelude.{◌≡◌, ◌↔◌, ℕ, None, Some};
ghost use Rattle.atahost.specs.Completeness.{EndsCalmly, HasCalmScript, HasScript, IsWhole, Stays};
ghost use Rattle.atahost.specs.Generated.{Generates};
ghost use Rattle.atahost.specs.Headline.{Replays};
ghost use Rattle.atahost.specs.Journals.{AreJournalsOf};
ghost use Rattle.atahost.specs.Words.{asked_by};
ghost use Rattle.atahost.specs.Woven.{AreWovenOf};

use crate::command::{Command, command_of};
use crate::generated::gen_all;
use crate::replay::replay_all;
use crate::running::run_all;
use crate::status::Status;
use ata_io::{Sink, Source};
use port_threads::Gate;
use std::alloc::Global;
use std::sync::Wait;
use std::thread::Threads;

/// All that the program does, given the words after its name. `Usage` exactly where they ask for no
/// command; then nothing is read or written. Every other status is that of the command: of `replay_all`,
/// `run_all` or `gen_all`, with the rounds that the words name, or 200,000 where they name none. `gen` reads
/// nothing. `gate` is called before and after each step of an actor of `run`, and no clause depends on it. A run
/// waits for turns, so nothing is said of when the call returns.
pub fn atahost<R: Threads + Wait + Sync, S: Source, K: Sink, G: Gate + Sync>(
    rt: &R,
    alloc: Global,
    words: &[String],
    source: &mut S,
    sink: &mut K,
    gate: &G,
) -> Status
    ensures usage { result ≡ Status.Usage ↔ asked_by words.now ≡ None }
    ensures nothing_read { result ≡ Status.Usage → source.new ≡ source.old }
    ensures nothing_written { result ≡ Status.Usage → sink.new ≡ sink.old }
    ensures replays { (rounds : ℕ) → asked_by words.now ≡ Some (Command.Replay rounds)
        → Replays (AreJournalsOf rounds) S.left S.fault_count K.written K.fault_count source.old source.new sink.old sink.new result }
    ensures runs { (rounds : ℕ) → asked_by words.now ≡ Some (Command.Run rounds)
        → Replays (AreWovenOf rounds) S.left S.fault_count K.written K.fault_count source.old source.new sink.old sink.new result }
    ensures generates { (n rounds : ℕ) → asked_by words.now ≡ Some (Command.Gen n rounds)
        → Generates rounds n K.written K.fault_count sink.old sink.new result }
    ensures gen_reads_nothing { (n rounds : ℕ) → asked_by words.now ≡ Some (Command.Gen n rounds) → source.new ≡ source.old }
    ensures complete { (result ≡ Status.Usage → ⊥) → HasScript (S.left source.old)
        → Stays (S.fault_count source.old) (S.fault_count source.new) → Stays (K.fault_count sink.old) (K.fault_count sink.new)
        → IsWhole result }
    ensures gen_complete { (n rounds : ℕ) → asked_by words.now ≡ Some (Command.Gen n rounds)
        → Stays (K.fault_count sink.old) (K.fault_count sink.new) → IsWhole result }
    ensures calm { (rounds : ℕ) → asked_by words.now ≡ Some (Command.Replay rounds)
        → (calm : HasCalmScript rounds (S.left source.old)) → EndsCalmly calm result }
{
    match command_of(words) {
        Some(Command::Replay { rounds }) => replay_all(alloc, source, sink, rounds),
        Some(Command::Run { rounds }) => run_all(rt, alloc, source, sink, rounds, gate),
        Some(Command::Gen { n, rounds }) => gen_all(rt, alloc, n, rounds, sink),
        None => Status::Usage,
    }
}
