// A whole run: a container is made over a memory, a bench over the container, calls are played, and the bench is closed.
ghost use Rattle.std.specs.Prelude.{◌≡◌, map, IfOk};
ghost use Rattle.stepping.specs.Bench.{call_of};
ghost use Rattle.stepping.specs.History.{PerformedOver};
ghost use Rattle.stepping.specs.Runs.{LawOfRuns};

use crate::{Call, Closed, Event, Running};
use items::Kind;
use memory::Memory;
use std::alloc::{AllocError, Global};
use vector::{Container, Over};

// The calls with what they gave, and the closed bench.
#[derive(Drop)]
pub struct Played<C: Container, K: Kind> {
    pub events: Vec<Event<K::Item>>,
    pub closed: Closed<C, K>,
}

// The law of runs with no premise: over every memory, every container that is made over it, and every kind of item. Only memory for
// the events and for the log can lack.
pub fn play_over<M: Memory, C: Over<M> + Drop, K: Kind>(
    heap: Global,
    memory: M,
    calls: &[Call<K::Item>],
) -> Result<Played<C, K>, AllocError>
    ensures called { IfOk result (λ p. map call_of p.events.items ≡ calls.now) }
    ensures performed { IfOk result (λ p. PerformedOver C.Container K.Kind (M.words memory) p.events.items p.closed.container) }
    ensures law { IfOk result (λ p. LawOfRuns K.value (C.Container.shows p.closed.container).make.bound p.events.items p.closed.log.items (C.Container.shows p.closed.container).meaning) }
{
    let container = C::over(memory);
    let mut events = Vec::with_capacity(heap, calls.len())?;
    let mut bench = Running::<C, K>::new(heap, container)?;
    for call in calls {
        events.push_reserved(bench.call(*call));
    }
    Ok(Played {
        events,
        closed: bench.close(),
    })
}
