// The beginning of a script: its length, its header, and the lines to come.
ghost use Rattle.std.specs.Prelude.{◌≡◌};
ghost use Rattle.script.specs.Opening.{opened};
ghost use Rattle.script.specs.Reading.{script_in};

use crate::fault::Fault;
use crate::headers::{Header, read_header};
use crate::lines::{Entry, Lines};
use crate::texts::{Rows, has_header_line};
use refusal::Refusal;

// A script whose header was read: the number of its line, what it says, and the lines after it.
#[derive(Clone, Copy)]
pub struct Script<'a> {
    pub line: usize,
    pub header: Header,
    pub lines: Lines<'a>,
}

// Refuses a script that is too long, then one without a header line, then a fault in the lines up to the header.
pub fn open(bytes: &[u8]) -> Result<Script<'_>, Fault>
    ensures { script_in result ≡ opened bytes.now }
{
    if bytes.len() > 16384 {
        return Err(Fault::whole(Refusal::ScriptTooLong));
    }
    if !has_header_line(bytes) {
        return Err(Fault::whole(Refusal::NoHeaderLine));
    }
    let mut lines = Lines {
        rest: Rows { bytes },
        number: 1,
    };
    let Entry { number: line, text } = lines
        .next_text()
        .ok_or(Fault::whole(Refusal::NoHeaderLine))?;
    let header = text
        .and_then(read_header)
        .map_err(|refusal| Fault { line, refusal })?;
    Ok(Script {
        line,
        header,
        lines,
    })
}
