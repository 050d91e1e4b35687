// The law of runs, with no premise and with the bound written out, for the two vectors over every memory and every kind of item.
#![tactic(auto)]

ghost use Rattle.std.specs.Prelude.{◌≡◌, map, IfOk};
ghost use Rattle.stepping.specs.Bench.{call_of};
ghost use Rattle.stepping.specs.History.{PerformedOver};
ghost use Rattle.stepping.specs.Runs.{LawOfRuns};
ghost use Rattle.runs.specs.Makes.{lock_vector, descriptor_vector};

use descriptor_vector::DescriptorVector;
use items::Kind;
use lock_vector::LockVector;
use memory::Memory;
use std::alloc::{AllocError, Global};
use stepping::{Call, Played, play_over};

// Two functions and not one: each names its own vector's tables, and that a bound is 48 is no promise of every container.

// A run on the vector under a lock.
pub fn play_lock<M: Memory + Drop, K: Kind>(
    heap: Global,
    memory: M,
    calls: &[Call<K::Item>],
) -> Result<Played<LockVector<M>, K>, AllocError>
    ensures called { IfOk result (λ p. map call_of p.events.items ≡ calls.now) }
    ensures performed { IfOk result (λ p. PerformedOver (lock_vector M.words) K.Kind (M.words memory) p.events.items p.closed.container) }
    ensures law { IfOk result (λ p. LawOfRuns K.value 48 p.events.items p.closed.log.items ((lock_vector M.words).shows p.closed.container).meaning) }
{
    play_over::<M, LockVector<M>, K>(heap, memory, calls)
}

// A run on the descriptor vector.
pub fn play_descriptor<M: Memory + Drop, K: Kind>(
    heap: Global,
    memory: M,
    calls: &[Call<K::Item>],
) -> Result<Played<DescriptorVector<M>, K>, AllocError>
    ensures called { IfOk result (λ p. map call_of p.events.items ≡ calls.now) }
    ensures performed { IfOk result (λ p. PerformedOver (descriptor_vector M.words) K.Kind (M.words memory) p.events.items p.closed.container) }
    ensures law { IfOk result (λ p. LawOfRuns K.value 48 p.events.items p.closed.log.items ((descriptor_vector M.words).shows p.closed.container).meaning) }
{
    play_over::<M, DescriptorVector<M>, K>(heap, memory, calls)
}
