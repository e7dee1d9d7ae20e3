ghost use Rattle.std.specs.Prelude.{◌≡◌, ◌≤◌, ◌<◌, ◌^◌, IfOk};
ghost use Rattle.ata_script.specs.Scripts.{script_said};
ghost use Rattle.ata_gen.specs.Generated.{next_number, script_made, steps_made};

use crate::lines::push_lines;
use crate::ports::ports;
use ata_base::OutOfMemory;
use ata_script::{Script, Steps};
use std::alloc::Global;

/// The script of a number, 1 to 20,000: its two ports, and for each i up to the number a command on its way, with a fault
/// now and then. It has 5 to 7 steps for each i.
pub fn script_of(alloc: Global, n: u32) -> Result<Script, OutOfMemory>
    requires least { 1 ≤ n }
    requires most { n ≤ 20000 }
    ensures { IfOk result (λ script. script_said script ≡ script_made n) }
{
    let head = ports(alloc)?;
    let steps = steps_of(alloc, n)?;
    Ok(Script {
        version: 1,
        head,
        steps,
    })
}

/// The steps of the script of a number.
#[tactic(auto, using(crate::proofs::StepsMade::made_none, crate::proofs::StepsMade::made_more))]
fn steps_of(alloc: Global, n: u32) -> Result<Steps, OutOfMemory>
    requires least { 1 ≤ n }
    requires most { n ≤ 20000 }
    ensures { IfOk result (λ steps. steps ≡ steps_made n) }
{
    let mut steps = Steps::new(alloc);
    let mut number = u64::from(n);
    for done in 0..n as u16 {
        number = next_number(number);
        push_lines(&mut steps, number / 65536, done + 1)?;
    }
    Ok(steps)
}

/// The next number of the linear congruence.
fn next_number(number: u64) -> u64
    requires { number < 2 ^ 31 }
    ensures value { result ≡ next_number number }
    ensures small { result < 2 ^ 31 }
{
    (number * 1_103_515_245 + 12345) % 2_147_483_648
}
