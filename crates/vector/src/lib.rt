// A plain vector's operations and answers, and what a container of them is.
#![tactic(auto)]

mod container;
mod refusals;
mod scan;
mod threads;

pub use container::{Container, Over};
pub use refusals::{may_begin, may_set_up, may_step};
pub use scan::all_zero;
pub use threads::{Task, Threads};

// An operation on a vector of `V`.
#[derive(Clone, Copy)]
pub enum Op<V> {
    Push(V),
    Pop,
    Read(usize),
    Write(usize, V),
    Size,
}

// What a plain vector answers.
#[derive(Clone, Copy)]
pub enum Answer<V> {
    Position(usize),
    Value(V),
    Full,
    Empty,
    Out,
    Done,
    Length(usize),
}

// An operation that came to its end: its number and what it is answered.
#[derive(Clone, Copy)]
pub struct Ended<V> {
    pub number: u32,
    pub answer: Answer<V>,
}

// What a granted step did: the number of the operation that took effect, if one did, and the end of the stepping thread's own.
#[derive(Clone, Copy)]
pub struct Stepped<V> {
    pub effect: Option<u32>,
    pub end: Option<Ended<V>>,
}
