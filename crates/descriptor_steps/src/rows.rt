// What a thread has open after its step, and what the step tells.
ghost use Rattle.std.specs.Prelude.{◌≡◌};
ghost use Rattle.descriptor_steps.specs.Machine.{row_after, ended};
ghost use Rattle.descriptor_steps.specs.Steps.{tells};

use crate::stage::{Moved, Next, Stage};
use vector::{Ended, Stepped, Task};

impl Next {
    // The task of a thread that has moved, if it is not over.
    pub fn row(self, task: Task<Stage>) -> Option<Task<Stage>>
        ensures { result ≡ row_after task.number task.op self }
    {
        match self {
            Next::Goto(stage) => Some(Task { stage, ..task }),
            Next::End(_) => None,
        }
    }

    // The end of the operation with a number, if it is one.
    fn end(self, number: u16) -> Option<Ended<u32>>
        ensures { result ≡ ended number self }
    {
        match self {
            Next::Goto(_) => None,
            Next::End(answer) => Some(Ended {
                number: u32::from(number),
                answer,
            }),
        }
    }
}

impl Moved {
    // What the step tells.
    pub fn stepped(self, number: u16) -> Stepped<u32>
        ensures { result ≡ tells number self }
    {
        Stepped {
            effect: self.served.map(u32::from),
            end: self.next.end(number),
        }
    }
}
