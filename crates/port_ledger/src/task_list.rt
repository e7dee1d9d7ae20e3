ghost use Rattle.std.specs.Prelude.{◌≡◌, ◌<◌, ◌≤◌, ◌+◌, ◌++◌, ◌∷◌, [], length, IfOk, if◌then◌else◌};
ghost use Rattle.port_past.specs.Tasks.{action_tasks, reset_tasks, tasks_made, with_action};
ghost use Rattle.port_past.specs.declared.task.Task.TheVariants.{Reset as ResetOf};

use ata_base::{LinkAction, MOST_PLACES, OutOfMemory, Place};
use port_past::Task;
use std::alloc::Global;
use std::marker::Model;

/// How many tasks a recovery has at most: one for the host, and one for each place.
const MOST_TASKS: usize = 16;

/// The tasks of a recovery, in order.
#[derive(Drop)]
pub struct TaskList {
    list: Vec<Task>,
}

impl Model for TaskList {
    ghost use Rattle.std.specs.Prelude.{◌≤◌, List};
    ghost use Rattle.std.specs.Vec.{vec_capacity};
    ghost use Rattle.port_past.specs.declared.task.Task.{Task};

    ghost Value = { List Task };

    ghost view = { λ t. t.list.items };

    ghost invariant = { λ t. 16 ≤ vec_capacity t.list };
}

impl TaskList {
    /// No tasks.
    pub fn new(alloc: Global) -> Result<TaskList, OutOfMemory>
        ensures { IfOk result (λ t. t ≡ []) }
    {
        Ok(TaskList {
            list: Vec::with_capacity(alloc, MOST_TASKS)?,
        })
    }

    /// The tasks, lent.
    pub fn items(&self) -> &[Task]
        ensures { result.now ≡ self.now }
    {
        &self.list
    }

    /// Each recovery begins without tasks.
    pub fn clear(&mut self)
        ensures { self.new ≡ [] }
    {
        self.list.clear();
    }

    /// The tasks that an autopsy makes, by whether the port is a frozen multiplier, and by place whether a device is
    /// attached, whether the place is hot, and what is to be done.
    pub fn make(
        &mut self,
        pmp_frozen: bool,
        attached: &[bool; MOST_PLACES],
        was_hot: &[bool; MOST_PLACES],
        actions: &[Option<LinkAction>; MOST_PLACES],
    )
        ensures { self.new ≡ tasks_made pmp_frozen attached.now was_hot.now actions.now }
    {
        self.list.clear();
        if pmp_frozen {
            self.list.push_reserved(Task::Host);
            self.reset_all(attached, was_hot);
        } else {
            self.act_all(actions);
        }
    }

    /// A reset of each attached or hot place, in order, after what is there.
    #[tactic(auto, using(crate::proofs::TaskLemmas::reset_step, crate::proofs::TaskLemmas::reset_end))]
    fn reset_all(&mut self, attached: &[bool; MOST_PLACES], was_hot: &[bool; MOST_PLACES])
        requires { length self.old ≤ 1 }
        ensures { self.new ≡ self.old ++ reset_tasks 0 attached.now was_hot.now }
    {
        for at in 0..MOST_PLACES as u8 {
            let wanted = attached[at as usize] || was_hot[at as usize];
            self.reset_if(wanted, Place::at(at));
        }
    }

    fn reset_if(&mut self, wanted: bool, place: Place)
        requires { length self.old < 16 }
        ensures list { self.new ≡ self.old ++ (if wanted then ResetOf place ∷ [] else []) }
        ensures few { length self.new ≤ length self.old + 1 }
    {
        if wanted {
            self.list.push_reserved(Task::Reset { place });
        }
    }

    /// The task of each place whose action says reset or revalidate, in order, after what is there.
    #[tactic(auto, using(crate::proofs::TaskLemmas::action_step, crate::proofs::TaskLemmas::action_end))]
    fn act_all(&mut self, actions: &[Option<LinkAction>; MOST_PLACES])
        requires { length self.old ≤ 1 }
        ensures { self.new ≡ self.old ++ action_tasks 0 actions.now }
    {
        for at in 0..MOST_PLACES as u8 {
            self.act_at(Place::at(at), actions[at as usize]);
        }
    }

    fn act_at(&mut self, place: Place, action: Option<LinkAction>)
        requires { length self.old < 16 }
        ensures list { self.new ≡ self.old ++ with_action place action [] }
        ensures few { length self.new ≤ length self.old + 1 }
    {
        match action {
            Some(LinkAction::Reset) => self.list.push_reserved(Task::Reset { place }),
            Some(LinkAction::Revalidate) => self.list.push_reserved(Task::Revalidate { place }),
            _ => {}
        }
    }
}
