// A memory: a list of 64-bit words, numbered from 0, whose length never changes.
#![tactic(auto)]

ghost use Rattle.std.specs.Prelude.{◌≡◌, ℕ, List, length};
ghost use Rattle.memory.specs.Words.{Loads, Swaps};

use refusal::Refusal;

mod bucket;
mod bucketed;
mod flat;
mod places;

pub use bucketed::BucketedMemory;
pub use flat::FlatMemory;
pub use places::place;

// What a compare-and-swap answers. An enum, since a no may come to tell more.
#[derive(Clone, Copy, PartialEq, Eq, Debug)]
pub enum Swapped {
    // The old word stood there, and the new one stands there now.
    Yes,
    // Another word stood there, and nothing is altered.
    No,
}

pub trait Memory {
    // The words, from location 0 on.
    ghost words: { Self → List ℕ };

    fn len(&self) -> usize
        ensures { result ≡ length (words self.now) };

    fn load(&self, at: usize) -> Result<u64, Refusal>
        ensures { Loads (words self.now) at result };

    // Compare-and-swap: the new word takes the place of the old one, if that is found there.
    fn swap(&mut self, at: usize, old: u64, new: u64) -> Result<Swapped, Refusal>
        ensures { Swaps (words self.old) at old new result (words self.new) };
}
