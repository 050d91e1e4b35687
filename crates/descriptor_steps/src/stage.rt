// What a thread is at, and what it remembers there.
use descriptor_words::Cell;
use vector::Answer;

// What an installed operation is to do: a push writes its value at a position, whose cell was emptied by an earlier
// operation; a pop removes the value at a position.
#[derive(Clone, Copy)]
pub enum Plan {
    Pushing {
        position: u16,
        value: u32,
        emptied_by: u16,
    },
    Popping {
        position: u16,
    },
}

// The plan of each number, at its place, since any number may have one; number 0 has none.
#[derive(Clone, Copy)]
pub struct Plans {
    pub by_number: [Option<Plan>; 401],
}

// Where a thread goes on when its help is over.
#[derive(Clone, Copy)]
pub enum Then {
    Own,
    ToL1,
    ToW1 { index: u16, value: u32 },
}

// The labels of the step table, each with what the thread remembers. `G5w` is G5 reached from G4, with the word seen there.
// What several remember, as who is helped and where to go then, is no struct of its own: each names all of it, as its row of the table
// does, so that code and table are read side by side.
#[derive(Clone, Copy)]
pub enum Stage {
    L1,
    L2 {
        current: u16,
    },
    L3 {
        current: u16,
        answer: Answer<u32>,
    },
    P1 {
        current: u16,
        position: u16,
        value: u32,
    },
    L4 {
        current: u16,
        plan: Plan,
    },
    H1 {
        helped: u16,
        then: Then,
    },
    H2 {
        helped: u16,
        then: Then,
    },
    G1 {
        helped: u16,
        then: Then,
    },
    G2 {
        helped: u16,
        value: u32,
        by: u16,
        through: u16,
        then: Then,
    },
    G3 {
        helped: u16,
        seen: Cell,
        then: Then,
    },
    G4 {
        helped: u16,
        value: u32,
        through: u16,
        then: Then,
    },
    G5 {
        helped: u16,
        then: Then,
    },
    G5w {
        helped: u16,
        value: u32,
        through: u16,
        then: Then,
    },
    G6 {
        helped: u16,
        value: u32,
        through: u16,
        popped: u32,
        then: Then,
    },
    G7 {
        helped: u16,
        popped: u32,
        then: Then,
    },
    O1,
    R1 {
        index: u16,
    },
    R2 {
        index: u16,
        value: u32,
        by: u16,
        through: u16,
    },
    R3 {
        index: u16,
        value: u32,
        by: u16,
        through: u16,
    },
    W1 {
        index: u16,
        value: u32,
    },
    W2 {
        index: u16,
        value: u32,
        seen: u32,
        by: u16,
        through: u16,
    },
    W3 {
        index: u16,
        value: u32,
        seen: Cell,
    },
}

// A step leads to another stage, or ends the operation, which is no error: as a `Result` or a `ControlFlow` it would be no plainer.
#[derive(Clone, Copy)]
pub enum Next {
    Goto(Stage),
    End(Answer<u32>),
}

// What a step gives besides the memory: where the thread goes on, the number of the operation that took effect, and the plan
// that is installed.
#[derive(Clone, Copy)]
pub struct Moved {
    pub next: Next,
    pub served: Option<u16>,
    pub plan: Option<Plan>,
}
