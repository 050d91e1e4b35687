// The lines of a script as text, one after the other.
ghost use Rattle.std.specs.Prelude.{◌≡◌, cond, ◌&&◌, Ok, Err};
ghost use Rattle.std.specs.Iterator.{YieldsFirstBy, item_count};
ghost use Rattle.refusal.specs.declared.Refusal.TheVariants.{NotOfAForm};
ghost use Rattle.script.specs.Entries.{text_of, row_of};
ghost use Rattle.script.specs.Lines.{ascii, skipped, lines_of};
ghost use Rattle.script.specs.Opening.{has_header};

use crate::fields::split;
use refusal::Refusal;

// A line's text, and whether a line feed ends it. No Option: there is a text either way.
#[derive(Clone, Copy)]
pub(crate) struct Row<'a> {
    pub(crate) text: &'a [u8],
    pub(crate) ended: bool,
}

impl<'a> Row<'a> {
    // The text, unless the line is not of a form.
    pub(crate) fn of_form(self) -> Result<&'a [u8], Refusal>
        ensures { text_of result ≡ cond (self.entry.ended && ascii self.entry.text.now) (Ok self.entry.text.now) (Err NotOfAForm) }
    {
        if self.ended && self.text.is_ascii() {
            Ok(self.text)
        } else {
            Err(Refusal::NotOfAForm)
        }
    }
}

// The lines in the bytes that are left.
#[derive(Clone, Copy)]
pub(crate) struct Rows<'a> {
    pub(crate) bytes: &'a [u8],
}

impl<'a> Iterator for Rows<'a> {
    type Item = Row<'a>;

    ghost next_gives = { YieldsFirstBy row_of (λ rows. lines_of rows.bytes.now) };

    // A line takes a byte at least.
    ghost remaining = { item_count (λ rows. rows.bytes.now) };

    fn next(&mut self) -> Option<Row<'a>> {
        if self.bytes.is_empty() {
            return None;
        }
        let (text, after) = split(self.bytes, b'\n');
        self.bytes = after.unwrap_or(&[]);
        Some(Row {
            text,
            ended: after.is_some(),
        })
    }
}

// An empty line or a comment.
pub(crate) fn is_skipped(text: &[u8]) -> bool
    ensures { result ≡ skipped text.now }
{
    text.first().is_none_or(|b| *b == b'#')
}

// Whether some line is neither empty nor a comment, be it of a form or not.
pub(crate) fn has_header_line(bytes: &[u8]) -> bool
    ensures { result ≡ has_header (lines_of bytes.now) }
{
    Rows { bytes }.any(|row| !is_skipped(row.text))
}
