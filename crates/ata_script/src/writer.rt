ghost use Rattle.std.specs.Prelude.{◌≡◌, ◌≤◌, ◌+◌, ◌++◌, ◌∷◌, [], codes, decimal, length, map, IfOk, OnOk};
ghost use Rattle.ata_trace.specs.Text.{joined, step_words};
ghost use Rattle.ata_script.specs.Heads.{drive_said, port_said};
ghost use Rattle.ata_script.specs.Items.{place_word, link_words, word_if};
ghost use Rattle.ata_script.specs.Items.Item.{Taken};
ghost use Rattle.ata_script.specs.ScriptText.{version_line, item_text, items_text, drive_item_of, drive_items, port_item_of, port_items, step_items, script_text};

use crate::drive_head::DriveHead;
use crate::port_head::PortHead;
use crate::script::Script;
use ata_base::{ActorNo, OutOfMemory, Place, PortNo};
use ata_trace::{Line, Step, put_step};
use itoa::Buffer;
use std::alloc::Global;

/// The text of a script, without comments and empty lines: line 1, each port's line followed by those
/// of its drives, and the steps in order. `OutOfMemory` where there is no room for it.
pub fn write(alloc: Global, script: &Script) -> Result<Vec<u8>, OutOfMemory>
    ensures { IfOk result (λ text. text.items ≡ script_text script.now) }
{
    let mut text = Vec::new(alloc);
    let mut line = Line::new();
    line.text(first_line(script.version));
    line.end();
    text.extend_from_slice(line.bytes())?;
    put_ports(&mut text, &mut line, script.head.items())?;
    put_steps(&mut text, &mut line, script.steps.items())?;
    Ok(text)
}

// The first line, without its line feed.
fn first_line(version: u8) -> &'static [u8]
    ensures value { result.now ≡ version_line version }
    ensures short { length result.now ≤ 9 }
{
    if version == 2 {
        b"atahost 2"
    } else {
        b"atahost 1"
    }
}

// Appends the lines of ports, each followed by those of its drives.
fn put_ports(text: &mut Vec<u8>, line: &mut Line, ports: &[PortHead]) -> Result<(), OutOfMemory>
    ensures { OnOk result (text.new.items ≡ text.old.items ++ items_text (port_items 0 (map port_said ports.now))) }
{
    let mut number: u64 = 0;
    for port in ports {
        set_port_line(line, number, port);
        text.extend_from_slice(line.bytes())?;
        put_drives(text, line, number, port.drives.items())?;
        number += 1;
    }
    Ok(())
}

// Appends the lines of a port's drives.
fn put_drives(
    text: &mut Vec<u8>,
    line: &mut Line,
    port: u64,
    drives: &[DriveHead],
) -> Result<(), OutOfMemory>
    ensures { OnOk result (text.new.items ≡ text.old.items ++ items_text (drive_items port 0 (map drive_said drives.now))) }
{
    let mut number: u64 = 0;
    for drive in drives {
        set_drive_line(line, port, number, drive);
        text.extend_from_slice(line.bytes())?;
        number += 1;
    }
    Ok(())
}

// Appends the lines of steps.
fn put_steps(
    text: &mut Vec<u8>,
    line: &mut Line,
    steps: &[(ActorNo, PortNo, Step)],
) -> Result<(), OutOfMemory>
    ensures { OnOk result (text.new.items ≡ text.old.items ++ items_text (step_items steps.now)) }
{
    for step in steps {
        set_step_line(line, step.0, step.1, &step.2);
        text.extend_from_slice(line.bytes())?;
    }
    Ok(())
}

// Makes the line that of a port.
#[tactic(auto, using(ata_trace::proofs::Words::joined_append))]
fn set_port_line(line: &mut Line, number: u64, port: &PortHead)
    ensures { line.new ≡ item_text (port_item_of number (port_said port.now)) ++ codes "\n" }
{
    line.clear();
    line.text(b"port");
    line.number(number);
    put_link(line, port.places, port.pmp);
    put_if(line, port.fbs, b"fbs");
    put_if(line, port.drain, b"drain");
    line.end();
}

// Appends how a port is linked.
fn put_link(line: &mut Line, places: u8, pmp: bool)
    requires { length line.old ≤ 100 }
    ensures text { line.new ≡ joined line.old (link_words places pmp) }
    ensures len { length line.new ≤ length line.old + 30 }
{
    if pmp {
        line.word(b"pmp");
        line.number(places as u64);
    } else {
        line.word(b"direct");
    }
}

// Appends a word where it is so.
fn put_if(line: &mut Line, so: bool, word: &[u8])
    requires { length line.old + length word.now ≤ 300 }
    ensures text { line.new ≡ joined line.old (word_if so word.now) }
    ensures len { length line.new ≤ length line.old + length word.now + 1 }
{
    if so {
        line.word(word);
    }
}

// Makes the line that of a drive.
fn set_drive_line(line: &mut Line, port: u64, number: u64, drive: &DriveHead)
    ensures { line.new ≡ item_text (drive_item_of port number (drive_said drive.now)) ++ codes "\n" }
{
    line.clear();
    line.text(b"drive");
    line.number(port);
    line.number(number);
    put_place(line, drive.place);
    line.word(drive.identity.model.bytes());
    line.word(drive.identity.serial.bytes());
    line.number(drive.identity.sectors);
    line.number(drive.identity.depth as u64);
    line.number(drive.identity.gen_no as u64);
    line.number(drive.ready.n);
    line.end();
}

// Appends a place, or `-` where there is none.
fn put_place(line: &mut Line, place: Option<Place>)
    requires { length line.old ≤ 100 }
    ensures text { line.new ≡ line.old ++ 32 ∷ place_word place }
    ensures len { length line.new ≤ length line.old + 21 }
{
    match place {
        Some(place) => line.number(place.get() as u64),
        None => line.word(b"-"),
    }
}

// Makes the line that of a step.
fn set_step_line(line: &mut Line, actor: ActorNo, port: PortNo, step: &Step)
    ensures { line.new ≡ item_text (Taken actor port step.now) ++ codes "\n" }
{
    let mut buffer = Buffer::new();
    line.clear();
    line.text(buffer.format(actor.get() as u64).as_bytes());
    line.number(port.get() as u64);
    put_step(line, step);
    line.end();
}
