ghost use Rattle.std.specs.Prelude.{◌≡◌, ◌<◌, ◌≤◌, ◌++◌, ◌∷◌, [], OnOk};
ghost use Rattle.ata_trace.specs.ScriptRanges.{IsScriptFault, IsScriptOp};
ghost use Rattle.ata_trace.specs.declared.step.Step.TheVariants.{Inject};
ghost use Rattle.ata_gen.specs.Generated.{count_drawn, faults_drawn, interrupt_at, lines_drawn, op_drawn, place_drawn, port_drawn, sector_drawn, served_drawn, step_each};

use ata_base::{ActorNo, Allowance, CmdId, Fault, Op, OutOfMemory, Pick, Place, PortNo, Wait};
use ata_script::Steps;
use ata_trace::{ScriptFault, ScriptOp, Step};

/// Appends the `i`-th lines, drawn from a number below 2^15.
pub fn push_lines(steps: &mut Steps, drawn: u64, i: u16) -> Result<(), OutOfMemory>
    requires small { drawn < 32768 }
    requires least { 1 ≤ i }
    ensures { OnOk result (steps.new ≡ steps.old ++ lines_drawn drawn i) }
{
    push_faults(steps, drawn, i)?;
    push_served(steps, drawn, i)
}

/// Appends the faults of the `i`-th lines.
fn push_faults(steps: &mut Steps, drawn: u64, i: u16) -> Result<(), OutOfMemory>
    requires small { drawn < 32768 }
    ensures { OnOk result (steps.new ≡ steps.old ++ faults_drawn drawn i) }
{
    let lba = sector(drawn);
    let (first, second) = ((50, Fault::Icrc { k: 1 }), (70, Fault::Media { lba }));
    push_each(steps, drawn, i, first)?;
    push_each(steps, drawn, i, second)
}

/// Appends a fault where `i` is a multiple of its number.
fn push_each(steps: &mut Steps, drawn: u64, i: u16, fault: (u16, Fault)) -> Result<(), OutOfMemory>
    requires every { 1 ≤ fault.0 }
    requires fault { IsScriptFault fault.1 }
    ensures { OnOk result (steps.new ≡ steps.old ++ step_each fault.0 i (1, port_drawn drawn, Inject (place_drawn drawn) fault.1)) }
{
    if i % fault.0 == 0 {
        push_fault(steps, drawn, fault.1)
    } else {
        Ok(())
    }
}

/// Appends a fault at the place that is drawn.
fn push_fault(steps: &mut Steps, drawn: u64, fault: Fault) -> Result<(), OutOfMemory>
    requires fault { IsScriptFault fault }
    ensures { OnOk result (steps.new ≡ steps.old ++ (1, port_drawn drawn, Inject (place_drawn drawn) fault) ∷ []) }
{
    let place = place(drawn);
    let fault = ScriptFault::at(fault);
    steps.push((ActorNo::at(1), port(drawn), Step::Inject { place, fault }))
}

/// Appends the command of the `i`-th lines, and the steps that serve it.
fn push_served(steps: &mut Steps, drawn: u64, i: u16) -> Result<(), OutOfMemory>
    requires small { drawn < 32768 }
    requires least { 1 ≤ i }
    ensures { OnOk result (steps.new ≡ steps.old ++ served_drawn drawn i) }
{
    let place = place(drawn);
    let port = port(drawn);
    let submit = Step::Submit {
        id: CmdId::at(i),
        place,
        op: op(drawn, i),
        allow: Allowance::at(5),
        wait: Wait::at(30000),
    };
    let pick = Pick::at(0);
    steps.push((ActorNo::at(0), port, submit))?;
    steps.push((ActorNo::at(0), port, Step::Kick { place }))?;
    steps.push((ActorNo::at(0), port, Step::Work { place, pick }))?;
    steps.push((ActorNo::at(2), port, interrupt(i)))?;
    steps.push((ActorNo::at(3), port, Step::Recover))
}

/// The interrupt of the `i`-th lines: each hundredth is lost.
fn interrupt(i: u16) -> Step
    ensures { result ≡ interrupt_at i }
{
    if i % 100 == 0 { Step::Drop } else { Step::Irq }
}

/// The port that is drawn.
fn port(drawn: u64) -> PortNo
    ensures { result ≡ port_drawn drawn }
{
    PortNo::at((drawn % 2) as u8)
}

/// The place that is drawn.
fn place(drawn: u64) -> Place
    ensures { result ≡ place_drawn drawn }
{
    if drawn % 2 == 0 {
        Place::at(0)
    } else {
        Place::at((drawn / 2 % 3) as u8)
    }
}

/// The first sector that is drawn.
fn sector(drawn: u64) -> u64
    requires { drawn < 32768 }
    ensures value { result ≡ sector_drawn drawn }
    ensures small { result < 65520 }
{
    2 * drawn % 65520
}

/// The operation of the `i`-th lines: of eight four read, three write the stamp `i`, and one flushes.
fn op(drawn: u64, i: u16) -> ScriptOp
    requires { drawn < 32768 }
    ensures { result ≡ op_drawn drawn i }
{
    let lba = sector(drawn);
    let count = 1 + (drawn % 16) as u16;
    let stamp = u64::from(i);
    ScriptOp::at(match drawn / 8 % 8 {
        0..=3 => Op::Read { lba, count },
        4..=6 => Op::Write { lba, count, stamp },
        _ => Op::Flush,
    })
}
