ghost use Rattle.std.specs.Prelude.{◌≡◌, ◌≤◌, length};
ghost use Rattle.std.specs.List.{flat_map};
ghost use Rattle.ata_io.specs.Writing.{Writes};
ghost use Rattle.ata_trace.specs.Lent.{entry_lent};
ghost use Rattle.ata_trace.specs.Text.{act_line, head_line};
ghost use Rattle.port_core.specs.Text.{port_line, entry_text, live_line, live_text, end_line, counts_text, rest_text, port_text, text_of, texts_of};
ghost use Rattle.port_core.specs.Hosts.{journals_in};
ghost use Rattle.port_core.specs.Told.{AreInRange, IsTold, told_of};
ghost use Rattle.port_past.specs.Commands.{commands};
ghost use Rattle.port_past.specs.Live.{live};
ghost use Rattle.ata_trace.specs.Entries.{past_of};

use crate::host::Host;
use crate::journal_ranges::{port_in_range, ports_in_range};
use crate::port::Port;
use ata_base::{Cmd, CmdId};
use ata_io::{Sink, WriteFault, put_all};
use ata_trace::{Acts, Entry, Journal, Line, set_head_line};

/// Appends the text of a port to the sink, and no write failed; or `WriteFault` at the first write that
/// failed, and a prefix of the text was appended. All that the text tells is in the ranges of its types, so that it is the
/// text of no other journal. It takes no memory. Each line is one piece: a clause speaks of the bytes alone, so that is
/// tested and not proved.
pub fn put_port<K: Sink>(port: &Port, sink: &mut K) -> Result<(), WriteFault>
    ensures written { Writes K.written K.fault_count sink.old sink.new result
        (port_text port.now.number port.now.entries) }
    ensures ranges { IsTold (told_of port.now) }
{
    port_in_range(port);
    put_text(port, sink)
}

/// Appends the texts of all ports of a host in the order of their numbers, as `put_port` does each.
pub fn put_host<K: Sink>(host: &Host, sink: &mut K) -> Result<(), WriteFault>
    ensures written { Writes K.written K.fault_count sink.old sink.new result (texts_of (journals_in host.now)) }
    ensures ranges { AreInRange (journals_in host.now) }
{
    ports_in_range(host.ports());
    put_ports(host.ports(), sink)
}

/// The texts of ports, one after the other.
fn put_ports<K: Sink>(ports: &[Port], sink: &mut K) -> Result<(), WriteFault>
    ensures { Writes K.written K.fault_count sink.old sink.new result (flat_map text_of ports.now) }
{
    for port in ports {
        match put_text(port, sink) {
            Ok(()) => {}
            Err(_) => return Err(WriteFault),
        }
    }
    Ok(())
}

/// The text of a port.
fn put_text<K: Sink>(port: &Port, sink: &mut K) -> Result<(), WriteFault>
    ensures { Writes K.written K.fault_count sink.old sink.new result
        (port_text port.now.number port.now.entries) }
{
    match put_first(port, sink) {
        Ok(()) => put_rest(port, sink),
        Err(_) => Err(WriteFault),
    }
}

/// All but the first line: the entries, the live commands and the counts.
fn put_rest<K: Sink>(port: &Port, sink: &mut K) -> Result<(), WriteFault>
    ensures { Writes K.written K.fault_count sink.old sink.new result
        (rest_text port.now.number port.now.entries) }
{
    let mut line = Line::new();
    match put_entries(port.journal(), &mut line, sink) {
        Ok(()) => put_counts(port, sink),
        Err(_) => Err(WriteFault),
    }
}

/// The live commands and the counts.
fn put_counts<K: Sink>(port: &Port, sink: &mut K) -> Result<(), WriteFault>
    ensures { Writes K.written K.fault_count sink.old sink.new result
        (counts_text port.now.number port.now.entries) }
{
    match put_lives(port, port.accepted(), sink) {
        Ok(()) => put_last(port, sink),
        Err(_) => Err(WriteFault),
    }
}

/// The first line.
fn put_first<K: Sink>(port: &Port, sink: &mut K) -> Result<(), WriteFault>
    ensures { Writes K.written K.fault_count sink.old sink.new result (port_line port.now.number) }
{
    put_line(&port_line(port.number().get()), sink)
}

/// The last line.
fn put_last<K: Sink>(port: &Port, sink: &mut K) -> Result<(), WriteFault>
    ensures { Writes K.written K.fault_count sink.old sink.new result
        (end_line port.now.number
        (length (commands (past_of port.now.entries))) (length (live (past_of port.now.entries)))) }
{
    put_line(
        &end_line(port.number().get(), port.accepted().len(), port.live()),
        sink,
    )
}

/// A line.
fn put_line<K: Sink>(line: &Line, sink: &mut K) -> Result<(), WriteFault>
    ensures { Writes K.written K.fault_count sink.old sink.new result line.now }
{
    put_all(sink, line.bytes())
}

/// The entries of a journal. Each line is made in `line`.
fn put_entries<K: Sink>(journal: &Journal, line: &mut Line, sink: &mut K) -> Result<(), WriteFault>
    ensures { Writes K.written K.fault_count sink.old sink.new result
        (flat_map entry_text journal.now.entries) }
{
    for i in 0..journal.len() {
        match journal.entry(i) {
            Some(entry) => match put_entry(&entry, line, sink) {
                Ok(()) => {}
                Err(_) => return Err(WriteFault),
            },
            None => unreachable!(),
        }
    }
    Ok(())
}

/// An entry: its head, and a line for each act.
fn put_entry<K: Sink>(entry: &Entry<'_>, line: &mut Line, sink: &mut K) -> Result<(), WriteFault>
    ensures { Writes K.written K.fault_count sink.old sink.new result
        (entry_text (entry_lent entry.now)) }
{
    match put_head(entry, line, sink) {
        Ok(()) => put_acts(&entry.acts, line, sink),
        Err(_) => Err(WriteFault),
    }
}

/// The line of an entry's head.
fn put_head<K: Sink>(entry: &Entry<'_>, line: &mut Line, sink: &mut K) -> Result<(), WriteFault>
    ensures { Writes K.written K.fault_count sink.old sink.new result
        (head_line entry.now.at.n entry.now.who entry.now.seq entry.now.step) }
{
    set_head_line(line, entry.at, entry.who, entry.seq, &entry.step);
    put_line(line, sink)
}

/// A line for each act.
fn put_acts<K: Sink>(acts: &Acts<'_>, line: &mut Line, sink: &mut K) -> Result<(), WriteFault>
    ensures { Writes K.written K.fault_count sink.old sink.new result (flat_map act_line acts.now) }
{
    for i in 0..acts.len() {
        acts.set_line(i, line);
        match put_line(line, sink) {
            Ok(()) => {}
            Err(_) => return Err(WriteFault),
        }
    }
    Ok(())
}

/// A line for each of these commands that is live.
fn put_lives<K: Sink>(port: &Port, accepted: &[Cmd], sink: &mut K) -> Result<(), WriteFault>
    ensures { Writes K.written K.fault_count sink.old sink.new result
        (flat_map (live_text (live (past_of port.now.entries))) accepted.now) }
{
    for command in accepted {
        match put_live(port, command, sink) {
            Ok(()) => {}
            Err(_) => return Err(WriteFault),
        }
    }
    Ok(())
}

/// A line for a command, where it is live.
fn put_live<K: Sink>(port: &Port, command: &Cmd, sink: &mut K) -> Result<(), WriteFault>
    ensures { Writes K.written K.fault_count sink.old sink.new result
        (live_text (live (past_of port.now.entries)) command.now) }
{
    if port.is_live(command.id) {
        put_line(&live_line(command.id), sink)
    } else {
        Ok(())
    }
}

/// The line that a port's text begins with.
fn port_line(number: u8) -> Line
    ensures { result ≡ port_line number }
{
    let mut line = Line::new();
    line.text(b"port");
    line.number(u64::from(number));
    line.end();
    line
}

/// The line that a port's text ends with.
fn end_line(number: u8, accepted: usize, live: u32) -> Line
    requires { live ≤ accepted }
    ensures { result ≡ end_line number accepted live }
{
    let mut line = Line::new();
    line.text(b"end");
    line.number(u64::from(number));
    line.number(accepted as u64);
    line.number(accepted as u64 - u64::from(live));
    line.number(u64::from(live));
    line.end();
    line
}

/// The line of a live command.
fn live_line(id: CmdId) -> Line
    ensures { result ≡ live_line id }
{
    let mut line = Line::new();
    line.text(b"live");
    line.number(u64::from(id.get()));
    line.end();
    line
}
