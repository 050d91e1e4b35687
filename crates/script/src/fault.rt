// The first fault of a script.
ghost use Rattle.std.specs.Prelude.{◌≡◌};
ghost use Rattle.script.specs.Faults.{at_line, fault_text};

use refusal::Refusal;
use std::error::Error;
use std::fmt;

// The line at fault, counted from 1, and why. Line 0 stands for no line, since users see that number too: no Option.
#[derive(Clone, Copy, Debug)]
pub struct Fault {
    pub line: usize,
    pub refusal: Refusal,
}

impl Fault {
    // A fault of the whole script or of its listing, and of no line.
    pub fn whole(refusal: Refusal) -> Fault
        ensures { result ≡ at_line 0 refusal }
    {
        Fault { line: 0, refusal }
    }
}

// As users see it: the line and the refusal's number.
impl fmt::Display for Fault {
    ghost output = { fault_text };

    fn fmt<W: fmt::Write>(&self, f: &mut fmt::Formatter<W>) -> fmt::Result {
        let Fault { line, refusal } = self;
        write!(f, "fault {line} {refusal}")
    }
}

impl Error for Fault {}
