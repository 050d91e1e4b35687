// What a word of the memory means where a cell or a status stands.
ghost use Rattle.std.specs.Prelude.{◌≡◌};
ghost use Rattle.descriptor_words.specs.Words.{cell_word, cell_of, status_word, status_of, CellFits, StatusFits};

use crate::parts::{by_in, form_in, pack, through_in, value_in};

// A cell: emptied by an operation (0: never used), a plain value, or a value that a pop froze, through the operation of the
// thread that put the word.
#[derive(Clone, Copy, PartialEq, Eq)]
pub enum Cell {
    Empty { by: u16 },
    Plain(u32),
    Frozen { value: u32, by: u16, through: u16 },
}

// An operation's status: pending, done with the value that it removes, or final.
#[derive(Clone, Copy, PartialEq, Eq)]
pub enum Status {
    Pending,
    Done(u32),
    Final(u32),
}

// Named, and not `From`: the clauses `back` say of the two that each undoes the other. No trait with `Status`: they share the pair's
// shape, and no form.
impl Cell {
    // The word of a cell. Two cells in range have the same word only if they are the same.
    pub fn encode(self) -> u64
        ensures word { result ≡ cell_word self }
        ensures back { CellFits self → cell_of result ≡ self }
    {
        match self {
            Cell::Empty { by } => pack(0, by, 0, 0),
            Cell::Plain(value) => pack(1, 0, 0, value),
            Cell::Frozen { value, by, through } => pack(2, by, through, value),
        }
    }

    pub fn decode(word: u64) -> Cell
        ensures cell { result ≡ cell_of word }
        ensures back { (c : Cell) → CellFits c → word ≡ cell_word c → result ≡ c }
    {
        match form_in(word) {
            0 => Cell::Empty { by: by_in(word) },
            1 => Cell::Plain(value_in(word)),
            _ => Cell::Frozen {
                value: value_in(word),
                by: by_in(word),
                through: through_in(word),
            },
        }
    }
}

impl Status {
    pub fn encode(self) -> u64
        ensures word { result ≡ status_word self }
        ensures back { StatusFits self → status_of result ≡ self }
    {
        match self {
            Status::Pending => 0,
            Status::Done(value) => pack(1, 0, 0, value),
            Status::Final(value) => pack(2, 0, 0, value),
        }
    }

    pub fn decode(word: u64) -> Status
        ensures status { result ≡ status_of word }
        ensures back { (s : Status) → StatusFits s → word ≡ status_word s → result ≡ s }
    {
        match form_in(word) {
            0 => Status::Pending,
            1 => Status::Done(value_in(word)),
            _ => Status::Final(value_in(word)),
        }
    }
}
