// A bench that plays operations of several threads on one container, and keeps a log.
#![tactic(auto)]

mod append;
mod closed;
mod convert;
mod play;
mod running;
mod scan;

pub use closed::Closed;
pub use play::{Played, play_over};
use refusal::Refusal;
pub use running::Running;
use vector::{Answer, Op, Stepped};

// A record of the log: a begin with its number, thread and operation; an effect; an end with its answer.
#[derive(Clone, Copy)]
pub enum Record<T> {
    Begin(u32, usize, Op<T>),
    Effect(u32),
    End(u32, Answer<T>),
}

// A thread's open operation: its number, and whether it took effect.
#[derive(Clone, Copy, Debug, PartialEq, Eq)]
pub struct Open {
    pub number: u32,
    pub effect: bool,
}

// A call of a bench.
#[derive(Clone, Copy)]
pub enum Call<T> {
    SetUp(usize, usize),
    Begin(usize, Op<T>),
    Step(usize),
    Look(usize),
}

// A call with what it gave; not a call beside a result, since each call gives a result of its own type.
#[derive(Clone, Copy)]
pub enum Event<T> {
    SetUp(usize, usize, Result<(), Refusal>),
    Begin(usize, Op<T>, Result<u32, Refusal>),
    Step(usize, Result<Stepped<T>, Refusal>),
    Look(usize, Result<Option<Open>, Refusal>),
}
