ghost use Rattle.std.specs.Prelude.{[], ◌≡◌, ◌+◌, ◌≤◌, ◌++◌, length};
ghost use Rattle.ata_io.specs.Writing.{Writes};
ghost use Rattle.host_summary.specs.Summary.{count_line, summary_text};

use crate::summary::Summary;
use ata_io::{Sink, WriteFault, put_all};
use ata_trace::Line;

/// Appends the text of a summary to the sink, twelve lines `name value`, and no write failed; or `WriteFault` at the first
/// write that failed, and a first part of the text was appended. It takes no memory. The text is one piece, of at most 336
/// bytes.
pub fn put_summary<K: Sink>(summary: &Summary, sink: &mut K) -> Result<(), WriteFault>
    ensures { Writes K.written K.fault_count sink.old sink.new result (summary_text summary.now) }
{
    let mut text = Line::new();
    add_counts(summary, &mut text);
    put_all(sink, text.bytes())
}

/// The twelve lines, in order.
#[tactic(auto, using(crate::proofs::Twelve::twelve_lines))]
fn add_counts(summary: &Summary, text: &mut Line)
    requires { text.old ≡ [] }
    ensures { text.new ≡ summary_text summary.now }
{
    add_count(text, b"commands", summary.commands);
    add_count(text, b"accepted", summary.accepted);
    add_count(text, b"refused", summary.refused);
    add_count(text, b"issued", summary.issued);
    add_count(text, b"ok", summary.ok);
    add_count(text, b"failed", summary.failed);
    add_count(text, b"nodev", summary.nodev);
    add_count(text, b"retried", summary.retried);
    add_count(text, b"runs", summary.runs);
    add_count(text, b"recorded", summary.recorded);
    add_count(text, b"entries", summary.entries);
    add_count(text, b"live", summary.live);
}

/// The line of a number: its name, and it.
fn add_count(text: &mut Line, name: &[u8], count: u64)
    requires { length text.old + length name.now + 22 ≤ 512 }
    ensures text { text.new ≡ text.old ++ count_line (name.now, count) }
    ensures len { length text.new ≤ length text.old + length name.now + 22 }
{
    text.text(name);
    text.number(count);
    text.end();
}
