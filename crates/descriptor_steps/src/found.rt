// What an access found, as the stage that asked for it reads it. What a stage does not ask for it never reads.
ghost use Rattle.std.specs.Prelude.{◌≡◌};
ghost use Rattle.descriptor_steps.specs.Steps.{number_found, status_found, cell_found, took};

use descriptor_words::{Cell, Found, Status};
use memory::Swapped;

pub(crate) fn number_in(found: Found) -> u16
    ensures { result ≡ number_found found }
{
    match found {
        Found::Number(number) => number,
        Found::Status(_) | Found::Cell(_) | Found::Swap(_) => 0,
    }
}

pub(crate) fn status_in(found: Found) -> Status
    ensures { result ≡ status_found found }
{
    match found {
        Found::Status(status) => status,
        Found::Number(_) | Found::Cell(_) | Found::Swap(_) => Status::Pending,
    }
}

pub(crate) fn cell_in(found: Found) -> Cell
    ensures { result ≡ cell_found found }
{
    match found {
        Found::Cell(cell) => cell,
        Found::Number(_) | Found::Status(_) | Found::Swap(_) => Cell::Empty { by: 0 },
    }
}

pub(crate) fn took_place(found: Found) -> bool
    ensures { result ≡ took found }
{
    matches!(found, Found::Swap(Swapped::Yes))
}
