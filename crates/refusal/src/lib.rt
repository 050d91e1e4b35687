// Every refusal that the product has, with its number.
#![tactic(auto)]

ghost use Rattle.std.specs.Prelude.{◌≡◌, Some, decimal};
ghost use Rattle.refusal.specs.Numbers.{number_of_refusal};

use std::error::Error;
use std::fmt;

// Why a call is refused.
#[derive(Clone, Copy, PartialEq, Eq, Debug)]
pub enum Refusal {
    // The script has more than 16,384 bytes.
    ScriptTooLong = 40,
    // The script has no header line.
    NoHeaderLine = 43,
    // The line is not of a form.
    NotOfAForm = 41,
    // The number item or the step count of the line is out of range.
    OutOfRange = 42,
    // A coordinate of a point is out of range.
    BadCoordinate = 24,
    // A set-up was granted before.
    SetUpBefore = 15,
    // The capacity is not 1 to 64.
    BadCapacity = 10,
    // The thread count is not 1 to 8.
    BadThreads = 11,
    // The memory has fewer words than are needed.
    MemoryShort = 12,
    // Some word of the memory is not 0.
    MemoryUsed = 13,
    // The thread is not 1 to the thread count.
    NoThread = 20,
    // Begin: the thread's operation is open.
    OperationOpen = 21,
    // Begin: all numbers are given.
    NumbersGone = 22,
    // Begin: the index of a read or a write is not below the capacity.
    BadIndex = 23,
    // Step: the thread has no open operation.
    NothingOpen = 25,
    // The location is not below the memory's length.
    NoSuchLocation = 30,
    // The listing is longer than the output.
    ListingTooLong = 44,
}

impl Refusal {
    // The number by which users know the refusal.
    pub fn number(self) -> u32
        ensures { result ≡ number_of_refusal self }
    {
        self as u32
    }
}

// As users see it: its number.
impl fmt::Display for Refusal {
    ghost output = { λ r. Some (decimal (number_of_refusal r)) };

    fn fmt<W: fmt::Write>(&self, f: &mut fmt::Formatter<W>) -> fmt::Result {
        let number = self.number();
        write!(f, "{number}")
    }
}

impl Error for Refusal {}
