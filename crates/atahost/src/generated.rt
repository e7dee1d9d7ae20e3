ghost use Rattle.std.specs.Prelude.{◌≡◌, ◌≤◌};
ghost use Rattle.atahost.specs.Completeness.{IsWhole, Stays};
ghost use Rattle.atahost.specs.Generated.{Generates};
ghost use Rattle.atahost.specs.Printing.{Prints};
ghost use Rattle.atahost.specs.Statuses.{write_faults_after};
ghost use Rattle.host_summary.specs.Summary.{summary_text};

use crate::replay::printed_with;
use crate::status::Status;
use ata_gen::script_of;
use ata_io::Sink;
use host_summary::{Summary, put_summary, sum_up};
use std::alloc::Global;
use std::thread::Threads;

/// Replays the script of a number, 1 to 20,000, settles each port with at most `rounds` rounds, and writes what its
/// journals come to, twelve lines `name value`, to `sink`. The ports are played at once, each on a thread of its own where one
/// can be made. `Done` and `Left` come where all was printed, `Left` exactly
/// where commands are live after settling; `WriteFault` where a write failed, and no failed one is passed over; `OutOfMemory`
/// before the first line is written; no other status comes.
pub fn gen_all<R: Threads + Sync, K: Sink>(
    rt: &R,
    alloc: Global,
    n: u32,
    rounds: u32,
    sink: &mut K,
) -> Status
    requires least { 1 ≤ n }
    requires most { n ≤ 20000 }
    ensures generates { Generates rounds n K.written K.fault_count sink.old sink.new result }
    ensures complete { Stays (K.fault_count sink.old) (K.fault_count sink.new) → IsWhole result }
{
    let script = match script_of(alloc, n) {
        Ok(script) => script,
        Err(_) => return Status::OutOfMemory,
    };
    match sum_up(rt, alloc, &script, rounds) {
        Ok(summary) => print(&summary, sink),
        Err(_) => Status::OutOfMemory,
    }
}

// Prints a summary, and tells how many commands are live.
fn print<K: Sink>(summary: &Summary, sink: &mut K) -> Status
    requires { summary.now.live ≤ 524288 }
    ensures printed { Prints (K.written sink.old) (K.written sink.new) (summary_text summary.now) summary.now.live result }
    ensures faults { K.fault_count sink.new ≡ write_faults_after result (K.fault_count sink.old) }
{
    if put_summary(summary, sink).is_err() {
        return Status::WriteFault;
    }
    printed_with(summary.live as u32)
}
