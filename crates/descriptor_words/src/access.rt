// The memory seen as the current number, statuses and cells: each access is one load or one compare-and-swap.
ghost use Rattle.std.specs.Prelude.{◌≡◌};
ghost use Rattle.descriptor_words.specs.Accesses.{Performs, Reads, current_of, cell_at};
ghost use Rattle.descriptor_words.specs.Words.{cell_of, status_of};

use crate::cell::{Cell, Status};
use memory::{Memory, Swapped};
use refusal::Refusal;

// What a step asks of the memory.
#[derive(Clone, Copy)]
pub enum Access {
    LoadCurrent,
    LoadStatus {
        number: u16,
    },
    LoadCell {
        position: u16,
    },
    SwapCurrent {
        old: u16,
        new: u16,
    },
    SwapStatus {
        number: u16,
        old: Status,
        new: Status,
    },
    SwapCell {
        position: u16,
        old: Cell,
        new: Cell,
    },
}

// What the memory answers.
#[derive(Clone, Copy)]
pub enum Found {
    Number(u16),
    Status(Status),
    Cell(Cell),
    Swap(Swapped),
}

fn cell_location(position: u16) -> usize
    ensures { result ≡ cell_at position }
{
    401 + usize::from(position)
}

fn load_current<M: Memory>(memory: &M) -> Result<u16, Refusal>
    ensures { Reads current_of (M.words memory.now) 0 result }
{
    memory.load(0).map(|word| (word % 512) as u16)
}

// These two are no one function over a trait: nothing else would use what a word decodes to.
fn load_status<M: Memory>(memory: &M, number: u16) -> Result<Status, Refusal>
    ensures { Reads status_of (M.words memory.now) number result }
{
    memory.load(usize::from(number)).map(Status::decode)
}

fn load_cell<M: Memory>(memory: &M, position: u16) -> Result<Cell, Refusal>
    ensures { Reads cell_of (M.words memory.now) (cell_at position) result }
{
    memory.load(cell_location(position)).map(Cell::decode)
}

// One access, whatever stands in the memory: every word afterwards is pinned.
pub fn perform<M: Memory>(memory: &mut M, access: Access) -> Result<Found, Refusal>
    ensures { Performs (M.words memory.old) access result (M.words memory.new) }
{
    match access {
        Access::LoadCurrent => load_current(memory).map(Found::Number),
        Access::LoadStatus { number } => load_status(memory, number).map(Found::Status),
        Access::LoadCell { position } => load_cell(memory, position).map(Found::Cell),
        Access::SwapCurrent { old, new } => memory
            .swap(0, u64::from(old), u64::from(new))
            .map(Found::Swap),
        Access::SwapStatus { number, old, new } => memory
            .swap(usize::from(number), old.encode(), new.encode())
            .map(Found::Swap),
        Access::SwapCell { position, old, new } => memory
            .swap(cell_location(position), old.encode(), new.encode())
            .map(Found::Swap),
    }
}
