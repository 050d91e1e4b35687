// The flat memory: one row of words.
ghost use Rattle.std.specs.Prelude.{◌≡◌, replicate, IfOk};
ghost use Rattle.memory.specs.Flats.{flat_words};

use crate::{Memory, Swapped};
use refusal::Refusal;
use std::alloc::{AllocError, Global};

#[derive(Drop)]
pub struct FlatMemory {
    cells: Vec<u64>,
}

impl FlatMemory {
    // As many words as are asked for, all 0.
    fn zeroed(heap: Global, count: usize) -> Result<FlatMemory, AllocError>
        ensures { IfOk result (λ m. flat_words m ≡ replicate count 0) }
    {
        let cells = vec![in heap; 0u64; count]?;
        Ok(FlatMemory { cells })
    }

    // Room for every location that a container asks for: 401 words and 64 cells.
    pub fn new(heap: Global) -> Result<FlatMemory, AllocError>
        ensures { IfOk result (λ m. flat_words m ≡ replicate 465 0) }
    {
        FlatMemory::zeroed(heap, 465)
    }

    // Too short for any container: what a set-up refuses.
    pub fn short(heap: Global) -> Result<FlatMemory, AllocError>
        ensures { IfOk result (λ m. flat_words m ≡ replicate 400 0) }
    {
        FlatMemory::zeroed(heap, 400)
    }
}

impl Memory for FlatMemory {
    ghost words = { flat_words };

    fn len(&self) -> usize {
        self.cells.len()
    }

    fn load(&self, at: usize) -> Result<u64, Refusal> {
        self.cells.get(at).copied().ok_or(Refusal::NoSuchLocation)
    }

    fn swap(&mut self, at: usize, old: u64, new: u64) -> Result<Swapped, Refusal> {
        let cell = self.cells.get_mut(at).ok_or(Refusal::NoSuchLocation)?;
        if *cell != old {
            return Ok(Swapped::No);
        }
        *cell = new;
        Ok(Swapped::Yes)
    }
}
