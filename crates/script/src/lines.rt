// The lines of a script that are not skipped, read one by one.
ghost use Rattle.std.specs.Prelude.{◌≡◌};
ghost use Rattle.script.specs.Entries.{text_of, NextEntry};
ghost use Rattle.script.specs.Reading.{command_in, ReadsLine};

use crate::commands::{Command, read_command};
use crate::read_item::ReadItem;
use crate::texts::{Rows, is_skipped};
use refusal::Refusal;

// The lines still to be read: their bytes, and the number of the first of them.
#[derive(Clone, Copy)]
pub struct Lines<'a> {
    pub(crate) rest: Rows<'a>,
    pub(crate) number: usize,
}

// A line that is not skipped: its number, and its text unless it is not of a form.
#[derive(Clone, Copy)]
pub(crate) struct Entry<'a> {
    pub(crate) number: usize,
    pub(crate) text: Result<&'a [u8], Refusal>,
}

impl Entry<'_> {
    fn command<T: ReadItem>(self) -> Result<Command<T>, Refusal>
        ensures { result ≡ command_in T.ReadItem.reads (text_of self.entry.text) }
    {
        read_command(self.text?)
    }
}

// The number of a line, and its command or why it is refused.
#[derive(Clone, Copy)]
pub struct Line<T> {
    pub number: usize,
    pub command: Result<Command<T>, Refusal>,
}

impl<'a> Lines<'a> {
    // The text of the next line that is not skipped. No `find`: the lines that are skipped are counted too.
    pub(crate) fn next_text(&mut self) -> Option<Entry<'a>>
        ensures { NextEntry self.old result self.new }
    {
        while let Some(row) = self.rest.next() {
            let number = self.number;
            self.number = number.saturating_add(1);
            let text = row.of_form();
            if !text.is_ok_and(is_skipped) {
                return Some(Entry { number, text });
            }
        }
        None
    }

    // The next line that is not skipped. No Iterator: how an item is read is not the lines' own, but the caller's to say.
    pub fn next_line<T: ReadItem>(&mut self) -> Option<Line<T>>
        ensures { ReadsLine T.ReadItem.reads self.old result self.new }
    {
        // Where no line is left, these stay as they were.
        let mut lines = *self;
        let entry = lines.next_text()?;
        *self = lines;
        Some(Line {
            number: entry.number,
            command: entry.command(),
        })
    }
}
