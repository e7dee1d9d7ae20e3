ghost use Rattle.std.specs.Prelude.{◌≡◌, ℕ, List, Option, IfOk, IfErr, OnOk};
ghost use Rattle.std.specs.Io.KnownBytes.{Appends, IsAtEnd};
ghost use Rattle.atahost.specs.Completeness.{EndsCalmly, HasCalmScript, HasScript, IsWhole, Stays};
ghost use Rattle.atahost.specs.Headline.{Replays};
ghost use Rattle.atahost.specs.Journals.{AreJournalsOf};
ghost use Rattle.atahost.specs.Printing.{Prints};
ghost use Rattle.atahost.specs.Refusals.{Refuses, WasRead};
ghost use Rattle.atahost.specs.Statuses.{read_faults_after, write_faults_after};
ghost use Rattle.port_core.specs.Hosts.{journals_in, lives_of};
ghost use Rattle.port_core.specs.Text.{texts_of};
ghost use Rattle.port_core.specs.Told.{AreInRange};

use crate::laws::calm_scripts_end_calmly;
use crate::status::Status;
use ata_io::{ReadError, Sink, Source, read_all};
use ata_script::{Script, ScriptError, read};
use host_core::replay;
use port_core::{Host, put_host};
use std::alloc::Global;

/// The most bytes that a script may have.
const MOST_BYTES: usize = 4_194_304;

/// Replays the script that `source` gives, settles each port with at most `rounds` rounds, and writes the
/// journals of the ports to `sink`, in their order. `Done` and `Left` come where all was read and printed,
/// `Left` exactly where commands are live after settling; `BadScript` where the bytes, read to their end,
/// aren't a script, with the line and rule of their first fault; `TooLong` exactly where more than
/// 4,194,304 bytes came before a read failed or memory was wanted; `ReadFault` and `WriteFault` where a
/// read or a write failed, and no failed one is passed over. Want of memory comes before the first line
/// is written, or not at all. Where the bytes are a script and nothing fails, all is printed or memory is
/// wanted; where moreover no step of the script disturbs a port, and there are as many rounds as commands
/// accepted at a port, none is live and each is answered `ok`.
pub fn replay_all<S: Source, K: Sink>(
    alloc: Global,
    source: &mut S,
    sink: &mut K,
    rounds: u32,
) -> Status
    ensures replays { Replays (AreJournalsOf rounds) S.left S.fault_count K.written K.fault_count source.old source.new sink.old sink.new result }
    ensures no_usage { result ≡ Status.Usage → ⊥ }
    ensures complete { HasScript (S.left source.old) → Stays (S.fault_count source.old) (S.fault_count source.new)
        → Stays (K.fault_count sink.old) (K.fault_count sink.new) → IsWhole result }
    ensures calm { (calm : HasCalmScript rounds (S.left source.old)) → EndsCalmly calm result }
{
    calm_scripts_end_calmly();
    play(alloc, source, sink, rounds)
}

// Reads, replays and prints.
fn play<S: Source, K: Sink>(alloc: Global, source: &mut S, sink: &mut K, rounds: u32) -> Status
    ensures replays { Replays (AreJournalsOf rounds) S.left S.fault_count K.written K.fault_count source.old source.new sink.old sink.new result }
    ensures no_usage { result ≡ Status.Usage → ⊥ }
{
    let script = match read_script(alloc, source) {
        Ok(script) => script,
        Err(status) => return status,
    };
    match replay(alloc, &script, rounds) {
        Ok(host) => print(&host, sink),
        Err(_) => Status::OutOfMemory,
    }
}

// Reads the script, to the end of the source.
pub(crate) fn read_script<S: Source>(alloc: Global, source: &mut S) -> Result<Script, Status>
    ensures script { IfOk result (λ script. WasRead (S.left source.old) script) }
    ensures all_read { OnOk result (IsAtEnd (S.left source.new)) }
    ensures faultless { OnOk result (S.fault_count source.new ≡ S.fault_count source.old) }
    ensures refused { IfErr result (Refuses (S.left source.old) (S.left source.new)) }
    ensures faults { IfErr result (λ status.
        S.fault_count source.new ≡ read_faults_after status (S.fault_count source.old)) }
{
    let bytes = match read_all(alloc, source, MOST_BYTES) {
        Ok(bytes) => bytes,
        Err(ReadError::Fault) => return Err(Status::ReadFault),
        Err(ReadError::TooLong) => return Err(Status::TooLong),
        Err(ReadError::Memory) => return Err(Status::OutOfMemory),
    };
    match read(alloc, &bytes) {
        Ok(script) => Ok(script),
        Err(ScriptError::Fault { line, rule }) => Err(Status::BadScript { line, rule }),
        Err(ScriptError::Memory) => Err(Status::OutOfMemory),
    }
}

// Prints the ports, and tells how many of their commands are live.
pub(crate) fn print<K: Sink>(host: &Host, sink: &mut K) -> Status
    ensures printed { Prints (K.written sink.old) (K.written sink.new)
        (texts_of (journals_in host.now)) (lives_of (journals_in host.now)) result }
    ensures faults { K.fault_count sink.new ≡ write_faults_after result (K.fault_count sink.old) }
    ensures ranges { AreInRange (journals_in host.now) }
{
    if put_host(host, sink).is_err() {
        return Status::WriteFault;
    }
    printed(host)
}

// How a printing ends that wrote its whole text.
pub(crate) fn printed(host: &Host) -> Status
    ensures printed { (before after : Option (List ℕ)) → (text : List ℕ) → Appends before after text
        → Prints before after text (lives_of (journals_in host.now)) result }
    ensures faults { (count : ℕ) → write_faults_after result count ≡ count }
{
    printed_with(host.live())
}

// The same, where so many commands are live.
pub(crate) fn printed_with(live: u32) -> Status
    ensures printed { (before after : Option (List ℕ)) → (text : List ℕ) → Appends before after text
        → Prints before after text live result }
    ensures faults { (count : ℕ) → write_faults_after result count ≡ count }
{
    match live {
        0 => Status::Done,
        k => Status::Left { k },
    }
}
