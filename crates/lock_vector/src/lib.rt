// A vector under a lock, over any memory: a thread takes the lock, works as if it were alone, and frees it.
#![tactic(auto)]

ghost use Rattle.std.specs.Prelude.{◌≡◌};
ghost use Rattle.vector.specs.Threads.{idle_threads};
ghost use Rattle.lock_vector.specs.Calls.{Acts, Prepares, Admits, Advances};
ghost use Rattle.lock_vector.specs.Meaning.{Sound, shown};
ghost use Rattle.lock_vector.specs.Played.{FreshPush, WaitingSize};
ghost use Rattle.lock_vector.specs.Once.{sound_once};
ghost use Rattle.lock_vector.specs.Keeps;

use crate::stages::{FIRST_CELL, Moved, Stage, Swapping, on_load, on_swap};
use memory::Memory;
use refusal::Refusal;
use vector::{Container, Op, Over, Stepped, Task, Threads, all_zero};

mod stages;

// How many numbers it gives.
const NUMBERS: u16 = 400;

// Its words are in the memory, all else is in what it keeps of its threads. No one type with the descriptor vector: stages, plans and
// proofs are others, and what is alike is `Threads`.
#[derive(Drop)]
pub struct LockVector<M: Memory> {
    memory: M,
    threads: Threads<Stage>,
    ghost sound: { Sound threads (M.words memory) } by { sound_once threads (M.words memory) },
}

// One stage of an open operation, with its one access of the memory.
fn act<M: Memory>(memory: &mut M, capacity: u16, task: Task<Stage>) -> Result<Moved, Refusal>
    ensures { Acts capacity (M.words memory.old) task result (M.words memory.new) }
{
    match task.stage {
        Stage::Load(loading) => {
            let word = memory.load(loading.location())?;
            Ok(on_load(capacity, task, loading, word))
        }
        Stage::Swap(swapping) => {
            let old = swapping.old_word(task.number);
            let new = swapping.new_word(task.number);
            let answered = memory.swap(swapping.location(), old, new)?;
            Ok(on_swap(task, swapping, answered))
        }
    }
}

impl<M: Memory> LockVector<M> {
    // Over a memory, not yet set up.
    pub fn new(memory: M) -> LockVector<M>
        ensures memory { result.memory ≡ memory }
        ensures threads { result.threads ≡ idle_threads 0 0 }
        ensures sound { Sound result.threads (M.words result.memory) }
    {
        let threads = Threads::new(0, 0);
        LockVector { memory, threads }
    }

    // Each call is a method that has its table as contract; what it means, and that the vector still holds together, follows from the
    // table and from `sound`.

    // Set-up. It finds every word 0, so that the lock is free and the length 0, and alters none.
    fn prepare(&mut self, capacity: usize, threads: usize) -> Result<(), Refusal>
        ensures { Prepares self.old.threads (M.words self.old.memory) capacity threads result self.new.threads (M.words self.new.memory) }
    {
        let words = self.memory.len();
        let needed = self.words_needed(capacity);
        let zeros = all_zero(&self.memory);
        self.threads.set_up(capacity, threads, words, needed, zeros)
    }

    // Begin: the operation is at K1, with the next number.
    fn admit(&mut self, thread: usize, op: Op<u32>) -> Result<u32, Refusal>
        ensures { Admits self.old.threads (M.words self.old.memory) thread op result self.new.threads (M.words self.new.memory) }
    {
        let number = self.threads.grant(thread, NUMBERS, op)?;
        let stage = Stage::Swap(Swapping::K1);
        self.threads.begin(thread, Task { number, op, stage });
        Ok(u32::from(number))
    }

    // Step: one stage of the thread's operation.
    fn advance(&mut self, thread: usize) -> Result<Stepped<u32>, Refusal>
        ensures { Advances self.old.threads (M.words self.old.memory) thread result self.new.threads (M.words self.new.memory) }
    {
        let task = self.threads.open(thread)?;
        let moved = act(&mut self.memory, self.threads.capacity, task)?;
        self.threads.settle(thread, moved.row);
        Ok(moved.stepped)
    }
}

// That the step table yields the played runs. Answers at which of its steps a push takes effect that is alone on a fresh vector.
pub fn played_runs() -> usize
    ensures push { FreshPush result }
    ensures size { WaitingSize }
{
    5
}

impl<M: Memory> Container for LockVector<M> {
    ghost shows = { λ v. shown v.threads (M.Memory.words v.memory) };

    ghost setting = { λ v capacity threads r v'. Prepares v.threads (M.Memory.words v.memory) capacity threads r v'.threads (M.Memory.words v'.memory) };

    ghost beginning = { λ v thread op r v'. Admits v.threads (M.Memory.words v.memory) thread op r v'.threads (M.Memory.words v'.memory) };

    ghost stepping = { λ v thread r v'. Advances v.threads (M.Memory.words v.memory) thread r v'.threads (M.Memory.words v'.memory) };

    ghost lawful = { λ v. Keeps.lawful v.threads (M.Memory.words v.memory) v.sound };

    fn set_up(&mut self, capacity: usize, threads: usize) -> Result<(), Refusal> {
        self.prepare(capacity, threads)
    }

    fn begin(&mut self, thread: usize, op: Op<u32>) -> Result<u32, Refusal> {
        self.admit(thread, op)
    }

    fn step(&mut self, thread: usize) -> Result<Stepped<u32>, Refusal> {
        self.advance(thread)
    }

    fn bound(&self) -> usize {
        48
    }

    fn numbers(&self) -> u32 {
        u32::from(NUMBERS)
    }

    fn words_needed(&self, capacity: usize) -> usize {
        capacity.saturating_add(FIRST_CELL)
    }
}

impl<M: Memory> Over<M> for LockVector<M> {
    fn over(memory: M) -> LockVector<M> {
        LockVector::new(memory)
    }
}
