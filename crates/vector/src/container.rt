// What every container of 32-bit values promises.
ghost use Rattle.std.specs.Prelude.{◌≡◌, ℕ, ◌-◌, ◌^◌, min, Result};
ghost use Rattle.refusal.specs.declared.Refusal.{Refusal};
ghost use Rattle.vector.specs.declared.Op.{Op};
ghost use Rattle.vector.specs.declared.Stepped.{Stepped};
ghost use Rattle.vector.specs.Meaning.{Shown, unset, Lawful};
ghost use Rattle.vector.specs.Calls.{SetsUp, Begins, Steps};

use crate::{Op, Stepped};
use memory::Memory;
use refusal::Refusal;

// That a container holds together is a fact of its type: what it needs is in its ghost fields, so that no promise has a premise.
pub trait Container {
    // The meaning, the steps left, what its make fixed, and the words of its memory.
    ghost shows: { Self → Shown };

    // The container's own tables: what a call does to this very container, word for word and row for row.
    ghost setting: { Self → ℕ → ℕ → Result (Unit {0}) Refusal → Self → Type 0 };

    ghost beginning: { Self → ℕ → Op ℕ → Result ℕ Refusal → Self → Type 0 };

    ghost stepping: { Self → ℕ → Result (Stepped ℕ) Refusal → Self → Type 0 };

    fn set_up(&mut self, capacity: usize, threads: usize) -> Result<(), Refusal>
        ensures means { SetsUp (shows self.old) capacity threads result (shows self.new) }
        ensures table { setting self.old capacity threads result self.new };

    fn begin(&mut self, thread: usize, op: Op<u32>) -> Result<u32, Refusal>
        ensures means { Begins (shows self.old) thread op result (shows self.new) }
        ensures table { beginning self.old thread op result self.new };

    fn step(&mut self, thread: usize) -> Result<Stepped<u32>, Refusal>
        ensures means { Steps (shows self.old) thread result (shows self.new) }
        ensures table { stepping self.old thread result self.new };

    // What its make fixed: the most steps that a thread takes alone, how many numbers it gives, and the words it needs for a
    // capacity, as far as a `usize` can say.
    fn bound(&self) -> usize
        ensures { result ≡ (shows self.now).make.bound };

    fn numbers(&self) -> u32
        ensures { result ≡ (shows self.now).make.numbers };

    fn words_needed(&self, capacity: usize) -> usize
        ensures { result ≡ min ((shows self.now).make.needs capacity) (2 ^ 64 - 1) };

    ghost lawful: { (x : Self) → Lawful (shows x) };
}

// A container that can be made over a memory `M`, not yet set up, with that memory's words.
pub trait Over<M: Memory>: Container {
    fn over(memory: M) -> Self
        ensures { ((Self.Container.shows result).meaning ≡ unset) × ((Self.Container.shows result).words ≡ M.words memory) };
}
