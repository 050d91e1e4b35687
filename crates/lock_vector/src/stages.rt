// The stages of an operation under the lock, K1 to K6. Each is one load or one swap; what follows from the word that is found,
// or from yes or no, is decided here, with no memory in sight.
ghost use Rattle.std.specs.Prelude.{◌≡◌};
ghost use Rattle.lock_vector.specs.Stages.{cell, value_of, load_at, swap_at, swap_old, swap_new, quiet, effected, finished, chosen, found, loaded, swapped};

use memory::Swapped;
use vector::{Answer, Ended, Op, Stepped, Task};

// Where the lock is, whose word 0 says that it is free; where the length is; and where the first cell is.
const LOCK: usize = 0;

const LENGTH: usize = 1;

pub const FIRST_CELL: usize = 401;

// The form bits of a plain cell: form 1, above the lowest 50 bits. The few words that are like the descriptor vector's are said here
// again, so that neither vector stands on the other.
const PLAIN: u64 = 1 << 50;

// How many 32-bit values there are.
const VALUES: u64 = 1 << 32;

// A stage that loads. K2: the length. K3: the cell at a position.
#[derive(Clone, Copy)]
pub enum Loading {
    K2,
    K3 { at: u16 },
}

// A stage that swaps. K1: takes the lock. K4: puts a value into the cell at a position, where the word seen was loaded.
// K5: changes the length. K6: frees the lock, with the answer kept.
#[derive(Clone, Copy)]
pub enum Swapping {
    K1,
    K4 {
        at: u16,
        seen: u64,
        value: u32,
    },
    K5 {
        from: u64,
        to: u64,
        answer: Answer<u32>,
    },
    K6 {
        answer: Answer<u32>,
    },
}

#[derive(Clone, Copy)]
pub enum Stage {
    Load(Loading),
    Swap(Swapping),
}

// What one stage leads to: the thread's row, and what the step tells.
#[derive(Clone, Copy)]
pub struct Moved {
    pub row: Option<Task<Stage>>,
    pub stepped: Stepped<u32>,
}

fn cell_at(at: u16) -> usize
    ensures { result ≡ cell at }
{
    FIRST_CELL + usize::from(at)
}

fn value_in(word: u64) -> u32
    ensures { result ≡ value_of word }
{
    (word % VALUES) as u32
}

impl Loading {
    pub fn location(self) -> usize
        ensures { result ≡ load_at self }
    {
        match self {
            Loading::K2 => LENGTH,
            Loading::K3 { at } => cell_at(at),
        }
    }
}

// Its words are those of the operation with this number.
impl Swapping {
    pub fn location(self) -> usize
        ensures { result ≡ swap_at self }
    {
        match self {
            Swapping::K1 | Swapping::K6 { .. } => LOCK,
            Swapping::K4 { at, .. } => cell_at(at),
            Swapping::K5 { .. } => LENGTH,
        }
    }

    pub fn old_word(self, number: u16) -> u64
        ensures { result ≡ swap_old number self }
    {
        match self {
            Swapping::K1 => 0,
            Swapping::K4 { seen, .. } => seen,
            Swapping::K5 { from, .. } => from,
            Swapping::K6 { .. } => u64::from(number),
        }
    }

    pub fn new_word(self, number: u16) -> u64
        ensures { result ≡ swap_new number self }
    {
        match self {
            Swapping::K1 => u64::from(number),
            Swapping::K4 { value, .. } => PLAIN + u64::from(value),
            Swapping::K5 { to, .. } => to,
            Swapping::K6 { .. } => 0,
        }
    }
}

// On to a stage, with nothing to tell.
fn go(task: Task<Stage>, stage: Stage) -> Moved
    ensures { result ≡ quiet task stage }
{
    let row = Some(Task { stage, ..task });
    let stepped = Stepped {
        effect: None,
        end: None,
    };
    Moved { row, stepped }
}

// The operation takes effect, and only the lock is left to be freed.
fn take_effect(task: Task<Stage>, answer: Answer<u32>) -> Moved
    ensures { result ≡ effected task answer }
{
    let mut moved = go(task, Stage::Swap(Swapping::K6 { answer }));
    moved.stepped.effect = Some(u32::from(task.number));
    moved
}

// The operation ends with the answer kept.
fn finish(task: Task<Stage>, answer: Answer<u32>) -> Moved
    ensures { result ≡ finished task answer }
{
    let number = u32::from(task.number);
    let stepped = Stepped {
        effect: None,
        end: Some(Ended { number, answer }),
    };
    Moved { row: None, stepped }
}

// K2, with the length.
fn choose(capacity: u16, task: Task<Stage>, length: u16) -> Moved
    ensures { result ≡ chosen capacity task length task.op }
{
    match task.op {
        Op::Push(_) => {
            if length < capacity {
                go(task, Stage::Load(Loading::K3 { at: length }))
            } else {
                take_effect(task, Answer::Full)
            }
        }
        Op::Pop => {
            if length == 0 {
                take_effect(task, Answer::Empty)
            } else {
                go(task, Stage::Load(Loading::K3 { at: length - 1 }))
            }
        }
        Op::Read(i) | Op::Write(i, _) => {
            if i < usize::from(length) {
                go(task, Stage::Load(Loading::K3 { at: i as u16 }))
            } else {
                take_effect(task, Answer::Out)
            }
        }
        Op::Size => take_effect(task, Answer::Length(usize::from(length))),
    }
}

// K3, with the word of the cell at a position. No size comes here.
fn find(task: Task<Stage>, at: u16, word: u64) -> Moved
    ensures { result ≡ found task at word task.op }
{
    match task.op {
        Op::Push(value) | Op::Write(_, value) => {
            let seen = word;
            go(task, Stage::Swap(Swapping::K4 { at, seen, value }))
        }
        Op::Pop => {
            let from = u64::from(at) + 1;
            let to = u64::from(at);
            let answer = Answer::Value(value_in(word));
            go(task, Stage::Swap(Swapping::K5 { from, to, answer }))
        }
        Op::Read(_) | Op::Size => take_effect(task, Answer::Value(value_in(word))),
    }
}

// What follows from the word that was loaded. No length is above the capacity: cutting it there keeps it a `u16`.
pub fn on_load(capacity: u16, task: Task<Stage>, loading: Loading, word: u64) -> Moved
    ensures { result ≡ loaded capacity task loading word }
{
    match loading {
        Loading::K2 => {
            let length = word.min(u64::from(capacity));
            choose(capacity, task, length as u16)
        }
        Loading::K3 { at } => find(task, at, word),
    }
}

// What follows from yes or no. Only K1 asks which it was: who has the lock is never answered no.
pub fn on_swap(task: Task<Stage>, swapping: Swapping, answered: Swapped) -> Moved
    ensures { result ≡ swapped task swapping answered }
{
    match swapping {
        Swapping::K1 => match answered {
            Swapped::Yes => go(task, Stage::Load(Loading::K2)),
            Swapped::No => go(task, Stage::Swap(Swapping::K1)),
        },
        Swapping::K4 { at, .. } => {
            if let Op::Push(_) = task.op {
                let from = u64::from(at);
                let to = u64::from(at) + 1;
                let answer = Answer::Position(usize::from(at));
                go(task, Stage::Swap(Swapping::K5 { from, to, answer }))
            } else {
                take_effect(task, Answer::Done)
            }
        }
        Swapping::K5 { answer, .. } => take_effect(task, answer),
        Swapping::K6 { answer } => finish(task, answer),
    }
}
