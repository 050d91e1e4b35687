// What each stage asks of the memory.
ghost use Rattle.std.specs.Prelude.{◌≡◌};
ghost use Rattle.descriptor_steps.specs.Shared.{value_in, empty, plain, frozen, position, pushed, emptied_by};
ghost use Rattle.descriptor_steps.specs.Steps.{access, plan_of};

use crate::stage::{Plan, Plans, Stage};
use descriptor_words::{Access, Cell, Status};
use vector::Task;

// The value in a cell.
pub(crate) fn value_of(cell: Cell) -> u32
    ensures { result ≡ value_in cell }
{
    match cell {
        Cell::Empty { .. } => 0,
        Cell::Plain(value) => value,
        Cell::Frozen { value, .. } => value,
    }
}

// Accesses by name: written out, most would take five lines, and the table of stages would not fit one function.
fn load_status(number: u16) -> Access
    ensures { result ≡ Access.LoadStatus number }
{
    Access::LoadStatus { number }
}

fn load_cell(position: u16) -> Access
    ensures { result ≡ Access.LoadCell position }
{
    Access::LoadCell { position }
}

fn swap_status(number: u16, old: Status, new: Status) -> Access
    ensures { result ≡ Access.SwapStatus number old new }
{
    Access::SwapStatus { number, old, new }
}

fn swap_cell(position: u16, old: Cell, new: Cell) -> Access
    ensures { result ≡ Access.SwapCell position old new }
{
    Access::SwapCell { position, old, new }
}

// H1 fills the cell of a push, if it is still empty by whom the plan says. The table is total: with no plan it reads 0s.
fn fill(plan: Option<Plan>) -> Access
    ensures { result ≡ Access.SwapCell (position plan) (empty (emptied_by plan)) (plain (pushed plan)) }
{
    let position = plan.map_or(0, Plan::position);
    let by = plan.map_or(0, Plan::emptied_by);
    let value = plan.map_or(0, Plan::value);
    swap_cell(position, Cell::Empty { by }, Cell::Plain(value))
}

// G3 freezes the word seen for the helped pop, through the own number.
fn freeze(at: u16, seen: Cell, by: u16, through: u16) -> Access
    ensures { result ≡ Access.SwapCell at seen (frozen (value_in seen) by through) }
{
    let value = value_of(seen);
    swap_cell(at, seen, Cell::Frozen { value, by, through })
}

// G6 empties the cell, if the frozen word still stands.
fn empty_out(at: u16, value: u32, by: u16, through: u16) -> Access
    ensures { result ≡ Access.SwapCell at (frozen value by through) (empty by) }
{
    swap_cell(at, Cell::Frozen { value, by, through }, Cell::Empty { by })
}

// The one access of a task's stage.
pub fn access_at(plans: &Plans, task: Task<Stage>) -> Access
    ensures { result ≡ access (plan_of plans.now) task.number task.stage }
{
    match task.stage {
        Stage::L1 | Stage::L3 { .. } => Access::LoadCurrent,
        Stage::L2 { current } => load_status(current),
        Stage::P1 { position, .. } => load_cell(position),
        Stage::L4 { current, .. } => Access::SwapCurrent {
            old: current,
            new: task.number,
        },
        Stage::H1 { helped, .. } => fill(plans.of(helped)),
        Stage::H2 { helped, .. } => swap_status(helped, Status::Pending, Status::Final(0)),
        Stage::G1 { helped, .. } => load_cell(plans.position(helped)),
        Stage::G2 { by, .. } | Stage::R2 { by, .. } | Stage::W2 { by, .. } => load_status(by),
        Stage::G3 { helped, seen, .. } => {
            freeze(plans.position(helped), seen, helped, task.number)
        }
        Stage::G4 { helped, value, .. } => {
            swap_status(helped, Status::Pending, Status::Done(value))
        }
        Stage::G5 { helped, .. } | Stage::G5w { helped, .. } => load_status(helped),
        Stage::G6 {
            helped,
            value,
            through,
            ..
        } => { empty_out(plans.position(helped), value, helped, through) }
        Stage::G7 { helped, popped, .. } => {
            swap_status(helped, Status::Done(popped), Status::Final(popped))
        }
        Stage::O1 => load_status(task.number),
        Stage::R1 { index } | Stage::R3 { index, .. } | Stage::W1 { index, .. } => load_cell(index),
        Stage::W3 { index, value, seen } => swap_cell(index, seen, Cell::Plain(value)),
    }
}
