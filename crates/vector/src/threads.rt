// The threads of a container, as it keeps them beside its memory: what every container has of them, whatever its stages are.
ghost use Rattle.std.specs.Prelude.{◌≡◌, suc, is_some, Some};
ghost use Rattle.vector.specs.Refusals.{Judged, set_up_rows, begin_rows, step_rows};
ghost use Rattle.vector.specs.Threads.{idle_threads, task_of, begun_by, with_row};

use crate::{Op, may_begin, may_set_up, may_step};
use refusal::Refusal;

// An open operation: its number, and the stage that comes next.
#[derive(Clone, Copy)]
pub struct Task<S> {
    pub number: u16,
    pub op: Op<u32>,
    pub stage: S,
}

// Before set-up the capacity is 0, which every table reads so, and there are no threads. The struct is plain, an array with a count
// beside it, no ArrayVec and no ghost field, so that a definition can say what it is after a call.
#[derive(Drop)]
pub struct Threads<S> {
    pub capacity: u16,
    pub count: usize,
    // What each thread has open; thread 1 comes first.
    pub rows: [Option<Task<S>>; 8],
    // How many numbers were given.
    pub given: u16,
}

impl<S: Copy> Threads<S> {
    // So many idle threads, and no number given.
    pub fn new(capacity: u16, count: usize) -> Threads<S>
        ensures { result ≡ idle_threads capacity count }
    {
        Threads {
            capacity,
            count,
            rows: [None; 8],
            given: 0,
        }
    }

    // A set-up over a memory of so many words, of which so many are needed, and all of which are 0 or not. By numbers, since a container
    // may have no memory.
    pub fn set_up(
        &mut self,
        capacity: usize,
        count: usize,
        words: usize,
        needed: usize,
        zeros: bool,
    ) -> Result<(), Refusal>
        ensures { Judged (set_up_rows self.old.capacity capacity count words needed zeros) result (self.new ≡ self.old) (λ _. self.new ≡ idle_threads capacity count) }
    {
        let set = usize::from(self.capacity);
        may_set_up(set, capacity, count, words, needed, zeros)?;
        *self = Threads::new(capacity as u16, count);
        Ok(())
    }

    // What a thread has open. Who is none of the eight has nothing.
    pub fn task(&self, thread: usize) -> Option<Task<S>>
        ensures { result ≡ task_of self.now.rows thread }
    {
        *self.rows.get(thread.checked_sub(1)?)?
    }

    // The number that a begin is granted, of so many that there are.
    pub fn grant(&self, thread: usize, numbers: u16, op: Op<u32>) -> Result<u16, Refusal>
        ensures { Judged (begin_rows self.now.count thread (is_some (task_of self.now.rows thread)) numbers self.now.given self.now.capacity op) result (Unit {0}) (λ n. n ≡ suc self.now.given) }
    {
        let busy = self.task(thread).is_some();
        let capacity = usize::from(self.capacity);
        may_begin(
            self.count,
            thread,
            busy,
            u32::from(numbers),
            u32::from(self.given),
            capacity,
            op,
        )?;
        Ok(self.given + 1)
    }

    // A thread begins a task, whose number is the last one given then. No one call with `grant`: the first stage is found between them,
    // of an operation that is granted.
    pub fn begin(&mut self, thread: usize, task: Task<S>)
        ensures { self.new ≡ begun_by self.old thread task }
    {
        self.given = task.number;
        self.settle(thread, Some(task));
    }

    // What a thread has open, for a step of it.
    pub fn open(&self, thread: usize) -> Result<Task<S>, Refusal>
        ensures { Judged (step_rows self.now.count thread (is_some (task_of self.now.rows thread))) result (Unit {0}) (λ task. task_of self.now.rows thread ≡ Some task) }
    {
        // Taken out of its row first: as a result made of the row after the test, it cost each step a tenth more.
        let Some(task) = self.task(thread) else {
            // One of the two refusals: who is a thread has nothing open.
            may_step(self.count, thread, false)?;
            return Err(Refusal::NothingOpen);
        };
        may_step(self.count, thread, true)?;
        Ok(task)
    }

    // What a thread has open is another task then, or none. Nothing hangs on who is no thread: 0 counts as 1 here, and beyond the eighth
    // nothing is settled; no call that is granted names them.
    pub fn settle(&mut self, thread: usize, row: Option<Task<S>>)
        ensures { self.new ≡ with_row self.old thread row }
    {
        let place = thread.saturating_sub(1);
        if place < self.rows.len() {
            self.rows[place] = row;
        }
    }
}
