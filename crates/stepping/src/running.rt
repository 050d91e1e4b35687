// A running bench.
ghost use Rattle.std.specs.Prelude.{◌≡◌, min, [], map, length, take, drop, IfOk, IfErr};
ghost use Rattle.vector.specs.Meaning.{unset};
ghost use Rattle.stepping.specs.Log.{recorded};
ghost use Rattle.stepping.specs.Bench.{call_of, Looks, Logs, Makes, BenchSetsUp, BenchBegins, BenchSteps, Calls};
ghost use Rattle.stepping.specs.History.{Leads, Led, GoesOn, Closes, RunsOn};

use crate::append::{append, append_step};
use crate::convert::{op_of_values, step_of_items};
use crate::scan::open_of;
use crate::{Call, Closed, Event, Open, Record};
use items::Kind;
use refusal::Refusal;
use std::alloc::{AllocFailed, Global};
use vector::{Container, Op, Stepped};

// A bench has no threads until its set-up names them. Over a container that was set up before, set-up is refused 15, so that the
// bench never has threads and every look is refused 20; begins and steps are answered by the container all the same.
#[derive(Drop)]
pub struct Running<C: Container, K: Kind> {
    pub(crate) container: C,
    pub(crate) threads: usize,
    pub(crate) log: Vec<Record<K::Item>>,
}

impl<C: Container, K: Kind> Running<C, K> {
    // The only call that can lack memory: an operation has a begin, an effect and an end, so that the log needs three records of
    // every number.
    pub fn new(heap: Global, container: C) -> Result<Running<C, K>, AllocFailed<C>>
        ensures made { IfOk result (λ b. Makes C.Container container b) }
        ensures led { IfOk result (λ b. (C.Container.shows container).meaning ≡ unset → Led C.Container K.Kind container [] b) }
        ensures refused { IfErr result (λ e. e.value ≡ container) }
    {
        // No `map_err`: its closure would take the container, which an `Ok` needs too.
        let Ok(log) = Vec::with_capacity(heap, 3 * container.numbers() as usize) else {
            return Err(AllocFailed { value: container });
        };
        Ok(Running {
            container,
            threads: 0,
            log,
        })
    }

    pub fn set_up(&mut self, capacity: usize, threads: usize) -> Result<(), Refusal>
        ensures does { BenchSetsUp C.Container self.old capacity threads result self.new }
        ensures history { GoesOn C.Container K.Kind self.old (Event.SetUp capacity threads result) self.new }
    {
        self.container.set_up(capacity, threads)?;
        self.threads = threads;
        Ok(())
    }

    pub fn begin(&mut self, thread: usize, op: Op<K::Item>) -> Result<u32, Refusal>
        ensures does { BenchBegins C.Container K.Kind self.old thread op result self.new }
        ensures history { GoesOn C.Container K.Kind self.old (Event.Begin thread op result) self.new }
    {
        let number = self.container.begin(thread, op_of_values::<K>(op))?;
        append(&mut self.log, Some(Record::Begin(number, thread, op)));
        Ok(number)
    }

    pub fn step(&mut self, thread: usize) -> Result<Stepped<K::Item>, Refusal>
        ensures does { BenchSteps C.Container K.Kind self.old thread result self.new }
        ensures history { GoesOn C.Container K.Kind self.old (Event.Step thread result) self.new }
    {
        let done = step_of_items::<K>(self.container.step(thread)?);
        append_step(&mut self.log, done);
        Ok(done)
    }

    pub fn look(&self, thread: usize) -> Result<Option<Open>, Refusal>
        ensures does { Looks self.now.threads self.now.log.items thread result }
        ensures history { GoesOn C.Container K.Kind self.now (Event.Look thread result) self.now }
    {
        if !(1..=self.threads).contains(&thread) {
            return Err(Refusal::NoThread);
        }
        Ok(open_of(self.log.as_slice(), thread))
    }

    // Any call, with what it gave.
    pub(crate) fn call(&mut self, call: Call<K::Item>) -> Event<K::Item>
        ensures called { call_of result ≡ call }
        ensures does { Calls C.Container K.Kind self.old result self.new }
    {
        match call {
            Call::SetUp(capacity, threads) => {
                Event::SetUp(capacity, threads, self.set_up(capacity, threads))
            }
            Call::Begin(thread, op) => Event::Begin(thread, op, self.begin(thread, op)),
            Call::Step(thread) => Event::Step(thread, self.step(thread)),
            Call::Look(thread) => Event::Look(thread, self.look(thread)),
        }
    }

    // Plays as many calls as both slices have places for, and tells how many. The law of runs holds of every history of the bench
    // with these events after it.
    pub fn run(&mut self, calls: &[Call<K::Item>], events: &mut [Event<K::Item>]) -> usize
        ensures played { result ≡ min (length calls.now) (length events.old) }
        ensures called { map call_of (take result events.new) ≡ take result calls.now }
        ensures rest { drop result events.new ≡ drop result events.old }
        ensures leads { Leads C.Container K.Kind self.old (take result events.new) self.new }
        ensures logs { Logs self.old (recorded (take result events.new)) self.new }
        ensures law { RunsOn C.Container K.Kind self.old (take result events.new) self.new }
    {
        let count = calls.len().min(events.len());
        // By index: what is written through a `zip` with `iter_mut` is not known afterwards, so that no clause on the events closed.
        for (i, call) in calls[..count].iter().enumerate() {
            events[i] = self.call(*call);
        }
        count
    }

    // The law of runs holds of every history of the bench.
    pub fn close(self) -> Closed<C, K>
        ensures same { (result.container ≡ self.container) × (result.log ≡ self.log) }
        ensures law { Closes C.Container K.Kind self result.log.items result.container }
    {
        let Running { container, log, .. } = self;
        Closed { container, log }
    }
}
