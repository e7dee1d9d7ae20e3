ghost use Rattle.std.specs.Prelude.{◌≡◌, ◌<◌, ◌≤◌, ◌+◌, ◌++◌, ◌∷◌, length};
ghost use Rattle.ata_trace.specs.Text.{act_line, head_line};
ghost use Rattle.ata_trace.specs.Words.{who_word};

use crate::act::Act;
use crate::act_text::put_act;
use crate::line::Line;
use crate::step::Step;
use crate::step_text::put_step;
use crate::who::Who;
use ata_base::Ms;

/// The line of an act, with its line feed.
pub fn act_line(act: &Act) -> Line
    ensures value { result ≡ act_line act.now }
    ensures short { length result < 512 }
{
    let mut line = Line::new();
    set_act_line(&mut line, act);
    line
}

/// Makes the line that of an act.
pub fn set_act_line(line: &mut Line, act: &Act)
    ensures value { line.new ≡ act_line act.now }
    ensures short { length line.new < 512 }
{
    line.clear();
    line.text(b"-");
    put_act(line, act);
    line.end();
}

/// The line that an entry begins with, with its line feed: the time before the step, who took it,
/// which of their steps it is, counted from 0, and the step.
pub fn head_line(at: Ms, who: Who, seq: u64, step: &Step) -> Line
    ensures value { result ≡ head_line at.n who seq step.now }
    ensures short { length result < 512 }
{
    let mut line = Line::new();
    set_head_line(&mut line, at, who, seq, step);
    line
}

/// Makes the line that which an entry begins with.
pub fn set_head_line(line: &mut Line, at: Ms, who: Who, seq: u64, step: &Step)
    ensures value { line.new ≡ head_line at.n who seq step.now }
    ensures short { length line.new < 512 }
{
    line.clear();
    line.text(b"at");
    line.number(at.n);
    put_who(line, who);
    line.number(seq);
    put_step(line, step);
    line.end();
}

// Appends who took a step.
fn put_who(line: &mut Line, who: Who)
    requires { length line.old + 21 ≤ 512 }
    ensures text { line.new ≡ line.old ++ 32 ∷ who_word who }
    ensures len { length line.new ≤ length line.old + 21 }
{
    match who {
        Who::Actor(actor) => line.number(actor.get() as u64),
        Who::Boot => line.word(b"boot"),
        Who::Settle => line.word(b"settle"),
    }
}
