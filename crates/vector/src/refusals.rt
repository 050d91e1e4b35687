// The tables of refusals, for containers to ask: the upper row wins. They take what they judge one by one, and no `Threads`, so that
// a container that keeps its threads otherwise can ask too.
ghost use Rattle.std.specs.Prelude.{◌≡◌};
ghost use Rattle.vector.specs.Refusals.{Judges, set_up_rows, begin_rows, step_rows};
ghost use Rattle.vector.specs.Plain.{index_fits};

use crate::Op;
use refusal::Refusal;

// Whether a set-up is granted: over the capacity that there is, the count of words, the words needed, and whether all are 0.
pub fn may_set_up(
    set: usize,
    capacity: usize,
    threads: usize,
    words: usize,
    needed: usize,
    zeros: bool,
) -> Result<(), Refusal>
    ensures { Judges (set_up_rows set capacity threads words needed zeros) result }
{
    if set > 0 {
        Err(Refusal::SetUpBefore)
    } else if !(1..=64).contains(&capacity) {
        Err(Refusal::BadCapacity)
    } else if !(1..=8).contains(&threads) {
        Err(Refusal::BadThreads)
    } else if words < needed {
        Err(Refusal::MemoryShort)
    } else if !zeros {
        Err(Refusal::MemoryUsed)
    } else {
        Ok(())
    }
}

// Whether a begin is granted: over the thread count, and whether the thread has an open operation.
pub fn may_begin<V: Copy>(
    threads: usize,
    thread: usize,
    busy: bool,
    numbers: u32,
    given: u32,
    capacity: usize,
    op: Op<V>,
) -> Result<(), Refusal>
    ensures { Judges (begin_rows threads thread busy numbers given capacity op) result }
{
    if !(1..=threads).contains(&thread) {
        Err(Refusal::NoThread)
    } else if busy {
        Err(Refusal::OperationOpen)
    } else if numbers <= given {
        Err(Refusal::NumbersGone)
    } else if !has_index_below(capacity, op) {
        Err(Refusal::BadIndex)
    } else {
        Ok(())
    }
}

// Whether a step is granted.
pub fn may_step(threads: usize, thread: usize, busy: bool) -> Result<(), Refusal>
    ensures { Judges (step_rows threads thread busy) result }
{
    if !(1..=threads).contains(&thread) {
        Err(Refusal::NoThread)
    } else if !busy {
        Err(Refusal::NothingOpen)
    } else {
        Ok(())
    }
}

fn has_index_below<V: Copy>(capacity: usize, op: Op<V>) -> bool
    ensures { result ≡ index_fits capacity op }
{
    match op {
        Op::Push(_) | Op::Pop | Op::Size => true,
        Op::Read(i) | Op::Write(i, _) => i < capacity,
    }
}
