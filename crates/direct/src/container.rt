// That it is a container: its promises, and what its calls do to its fields.
ghost use Rattle.direct.specs.Shows.{shown};
ghost use Rattle.direct.specs.Fields.{Prepares, Admits, Performs};
ghost use Rattle.direct.specs.Steps;

use crate::Direct;
use crate::plain::perform;
use refusal::Refusal;
use vector::{Container, Ended, Op, Stepped, Task};

// How many numbers it gives.
const NUMBERS: u16 = 400;

impl Container for Direct {
    ghost shows = { λ d. shown d.threads d.values.items };

    ghost setting = { λ d capacity threads r d'. Prepares d capacity threads r d' };

    ghost beginning = { λ d thread op r d'. Admits d thread op r d' };

    ghost stepping = { λ d thread r d'. Performs d thread r d' };

    ghost lawful = { λ d. Steps.lawful d.threads d.values.items d.few d.eight d.bare };

    fn set_up(&mut self, capacity: usize, threads: usize) -> Result<(), Refusal> {
        // What is not set up has no values.
        self.threads.set_up(capacity, threads, 0, 0, true)
    }

    fn begin(&mut self, thread: usize, op: Op<u32>) -> Result<u32, Refusal> {
        let number = self.threads.grant(thread, NUMBERS, op)?;
        let stage = ();
        self.threads.begin(thread, Task { number, op, stage });
        Ok(u32::from(number))
    }

    fn step(&mut self, thread: usize) -> Result<Stepped<u32>, Refusal> {
        let task = self.threads.open(thread)?;
        let capacity = usize::from(self.threads.capacity);
        let answer = perform(&mut self.values, capacity, task.op);
        self.threads.settle(thread, None);
        let number = u32::from(task.number);
        let effect = Some(number);
        let end = Some(Ended { number, answer });
        Ok(Stepped { effect, end })
    }

    fn bound(&self) -> usize {
        8
    }

    fn numbers(&self) -> u32 {
        u32::from(NUMBERS)
    }

    fn words_needed(&self, capacity: usize) -> usize {
        0
    }
}
