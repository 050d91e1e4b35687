// What a descriptor vector keeps beside its memory.
ghost use Rattle.std.specs.Prelude.{◌≡◌};
ghost use Rattle.descriptor_vector.specs.Calls.{settled};

use descriptor_steps::{Moved, Plans, Stage};
use vector::{Task, Threads};

#[derive(Drop)]
pub struct Table {
    pub threads: Threads<Stage>,
    pub plans: Plans,
}

impl Table {
    // The thread's task moves on, and its plan is put down, if there is one to install.
    pub(crate) fn settle(&mut self, thread: usize, task: Task<Stage>, moved: Moved)
        ensures { self.new ≡ settled self.old thread task.number task.op moved }
    {
        if let Some(plan) = moved.plan {
            self.plans.put(task.number, plan);
        }
        self.threads.settle(thread, moved.next.row(task));
    }
}
