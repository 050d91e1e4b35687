// The calls of the vector, each with its table as contract; what it means, and that the vector still holds together, follows from the
// table and from `sound`.
ghost use Rattle.std.specs.Prelude.{◌≡◌, true};
ghost use Rattle.descriptor_vector.specs.Calls.{prepared, Prepares, Admits, Advances};
ghost use Rattle.descriptor_vector.specs.Sound.{shown};
ghost use Rattle.descriptor_steps.specs.Machine.{first};
ghost use Rattle.vector.specs.Meaning.{unset};
ghost use Rattle.vector.specs.Plain.{index_fits, Small};

use crate::structure::DescriptorVector;
use crate::table::Table;
use descriptor_steps::{Plans, Stage, access_at, lead};
use descriptor_words::perform;
use memory::Memory;
use refusal::Refusal;
use vector::{Container, Op, Stepped, Task, Threads, all_zero};

// The first stage of an operation whose index is below the capacity.
fn first_stage(capacity: u16, op: Op<u32>) -> Stage
    requires { index_fits capacity op ≡ true }
    ensures stage { result ≡ first op }
    ensures small { Small op }
{
    match op {
        Op::Push(_value) => Stage::L1,
        Op::Pop | Op::Size => Stage::L1,
        Op::Read(index) => Stage::R1 {
            index: index as u16,
        },
        Op::Write(index, value) => {
            let index = index as u16;
            Stage::W1 { index, value }
        }
    }
}

impl<M: Memory> DescriptorVector<M> {
    // Over a memory, not yet set up.
    pub fn new(memory: M) -> DescriptorVector<M>
        ensures memory { result.memory ≡ memory }
        ensures table { result.table ≡ prepared 0 0 }
        ensures unset { (shown result.table (M.words result.memory)).meaning ≡ unset }
    {
        let table = Table {
            threads: Threads::new(0, 0),
            plans: Plans::new(),
        };
        DescriptorVector { memory, table }
    }

    pub(crate) fn prepare(&mut self, capacity: usize, threads: usize) -> Result<(), Refusal>
        ensures { Prepares self.old.table (M.words self.old.memory) capacity threads result self.new.table (M.words self.new.memory) }
    {
        let words = self.memory.len();
        let needed = self.words_needed(capacity);
        let zeros = all_zero(&self.memory);
        self.table
            .threads
            .set_up(capacity, threads, words, needed, zeros)?;
        self.table.plans = Plans::new();
        Ok(())
    }

    pub(crate) fn admit(&mut self, thread: usize, op: Op<u32>) -> Result<u32, Refusal>
        ensures { Admits self.old.table (M.words self.old.memory) thread op result self.new.table (M.words self.new.memory) }
    {
        let number = self.table.threads.grant(thread, 400, op)?;
        let stage = first_stage(self.table.threads.capacity, op);
        self.table.threads.begin(thread, Task { number, op, stage });
        Ok(u32::from(number))
    }

    pub(crate) fn advance(&mut self, thread: usize) -> Result<Stepped<u32>, Refusal>
        ensures { Advances self.old.table (M.words self.old.memory) thread result self.new.table (M.words self.new.memory) }
    {
        let task = self.table.threads.open(thread)?;
        let access = access_at(&self.table.plans, task);
        let found = perform(&mut self.memory, access)?;
        let capacity = self.table.threads.capacity;
        let moved = lead(&self.table.plans, capacity, task, found);
        self.table.settle(thread, task, moved);
        Ok(moved.stepped(task.number))
    }
}
