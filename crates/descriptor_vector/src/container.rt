// The vector is a container of 32-bit values, over every memory.
ghost use Rattle.descriptor_vector.specs.Calls.{Prepares, Admits, Advances};
ghost use Rattle.descriptor_vector.specs.Sound.{shown};
ghost use Rattle.descriptor_vector.specs.Once;

use crate::structure::DescriptorVector;
use memory::Memory;
use refusal::Refusal;
use vector::{Container, Op, Over, Stepped};

impl<M: Memory> Container for DescriptorVector<M> {
    ghost shows = { λ v. shown v.table (M.Memory.words v.memory) };

    ghost setting = { λ v capacity threads r v'. Prepares v.table (M.Memory.words v.memory) capacity threads r v'.table (M.Memory.words v'.memory) };

    ghost beginning = { λ v thread op r v'. Admits v.table (M.Memory.words v.memory) thread op r v'.table (M.Memory.words v'.memory) };

    ghost stepping = { λ v thread r v'. Advances v.table (M.Memory.words v.memory) thread r v'.table (M.Memory.words v'.memory) };

    ghost lawful = { λ v. Once.lawful v.table (M.Memory.words v.memory) v.sound };

    fn set_up(&mut self, capacity: usize, threads: usize) -> Result<(), Refusal> {
        self.prepare(capacity, threads)
    }

    fn begin(&mut self, thread: usize, op: Op<u32>) -> Result<u32, Refusal> {
        self.admit(thread, op)
    }

    fn step(&mut self, thread: usize) -> Result<Stepped<u32>, Refusal> {
        self.advance(thread)
    }

    fn bound(&self) -> usize {
        48
    }

    fn numbers(&self) -> u32 {
        400
    }

    fn words_needed(&self, capacity: usize) -> usize {
        capacity.saturating_add(401)
    }
}

impl<M: Memory> Over<M> for DescriptorVector<M> {
    fn over(memory: M) -> DescriptorVector<M> {
        DescriptorVector::new(memory)
    }
}
