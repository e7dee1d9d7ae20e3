ghost use Rattle.std.specs.Prelude.{◌≡◌, ◌↔◌, ◌<◌, length, IsSome, slice_get, slice_index_or};
ghost use Rattle.ata_trace.specs.Kept.{act_kept};
ghost use Rattle.ata_trace.specs.Text.{act_line};
ghost use Rattle.ata_trace.specs.declared.act.Act.{Act};

use crate::act::Act;
use crate::kept::{Kept, at_length};
use crate::line::Line;
use crate::text::set_act_line;
use std::marker::Model;

/// The acts of an entry, in order, lent by its journal. A contract sees them as a list.
#[derive(Debug, Drop)]
pub struct Acts<'a> {
    pub(crate) kept: &'a [Kept],
    pub(crate) whole: &'a [Act],
}

impl<'a> Model for Acts<'a> {
    ghost use Rattle.std.specs.Prelude.{List};
    ghost use Rattle.ata_trace.specs.Kept.{acts_kept};
    ghost use Rattle.ata_trace.specs.declared.act.Act.{Act};

    ghost Value = { List Act };

    ghost view = { λ acts. acts_kept acts.whole.now acts.kept.now };
}

impl<'a> Acts<'a> {
    /// How many there are.
    #[inline(always)]
    pub fn len(&self) -> usize
        ensures { result ≡ length self.now }
    {
        self.kept.len()
    }

    /// The act at `i`, counted from 0; `None` exactly past the end.
    #[inline(always)]
    pub fn get(&self, i: usize) -> Option<LentAct<'a>>
        ensures found { IsSome result ↔ (i < length self.now) }
        ensures value { result ≡ slice_get self.now i }
    {
        match self.kept.get(i) {
            Some(kept) => Some(lend(kept, self.whole)),
            None => None,
        }
    }

    /// Makes the line that of the act at `i`, counted from 0, as `set_act_line` does. There has to be one.
    pub fn set_line(&self, i: usize, line: &mut Line)
        requires { i < length self.now }
        ensures { (act : Act) → line.new ≡ act_line (slice_index_or self.now i act) }
    {
        match self.kept.get(i) {
            Some(kept) => set_kept_line(line, kept, self.whole),
            None => unreachable!(),
        }
    }
}

// Makes the line that of an act that is kept.
fn set_kept_line(line: &mut Line, kept: &Kept, whole: &[Act])
    ensures { line.new ≡ act_line (act_kept whole.now kept.now) }
{
    match kept {
        Kept::Whole { number } => match whole.get(*number) {
            Some(act) => set_act_line(line, act),
            None => set_act_line(line, &Act::Nothing),
        },
        _ => set_act_line(line, &at_length(kept)),
    }
}

// The act, which is made or lent.
#[inline(always)]
fn lend<'a>(kept: &Kept, whole: &'a [Act]) -> LentAct<'a>
    ensures { result ≡ act_kept whole.now kept.now }
{
    match kept {
        Kept::Whole { number } => match whole.get(*number) {
            Some(act) => LentAct {
                act: Lent::Whole(act),
            },
            None => LentAct {
                act: Lent::Made(Act::Nothing),
            },
        },
        _ => LentAct {
            act: Lent::Made(at_length(kept)),
        },
    }
}

/// An act of a journal. A contract sees it as the act.
#[derive(Debug, Drop)]
pub struct LentAct<'a> {
    act: Lent<'a>,
}

// An act that the journal keeps whole, or one that was made of what it keeps.
#[derive(Debug, Drop)]
enum Lent<'a> {
    Made(Act),
    Whole(&'a Act),
}

impl<'a> Model for LentAct<'a> {
    ghost use Rattle.ata_trace.specs.LentActs.{act_lent};
    ghost use Rattle.ata_trace.specs.declared.act.Act.{Act};

    ghost Value = { Act };

    ghost view = { λ lent. act_lent lent.act };
}

impl<'a> LentAct<'a> {
    /// The act.
    #[inline(always)]
    pub fn get(&self) -> &Act
        ensures { result.now ≡ self.now }
    {
        match &self.act {
            Lent::Made(act) => act,
            Lent::Whole(act) => act,
        }
    }
}
