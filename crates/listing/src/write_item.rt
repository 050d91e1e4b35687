// Items as text.
ghost use Rattle.std.specs.Prelude.{◌≡◌, ℕ, ◌≤◌, List, ◌++◌, length, codes};
ghost use Rattle.std.specs.Fmt.{signed_decimal};
ghost use Rattle.listing.specs.Puts.{Puts, PutsIfRoom, Room};
ghost use Rattle.listing.specs.Texts.{point_text};

use crate::decimals::{integer_len, put_integer, put_text};
use crate::texts::{add_field, add_number};
use arrayvec::ArrayVec;
use items::Point;

// The text of an item has at most this many bytes: room for three numbers of 64 bits and two commas.
pub const LONGEST_ITEM: usize = 65;

pub trait WriteItem {
    ghost text: { Self → List ℕ };

    fn text(&self) -> ArrayVec<u8, LONGEST_ITEM>
        ensures { result.items ≡ text self.now };

    // How many bytes the text has.
    fn text_len(&self) -> usize
        ensures value { result ≡ length (text self.now) }
        ensures small { result ≤ 65 };

    // Writes the text at a place of the output, if there is room for it, and answers the place after it.
    fn write(&self, output: &mut [u8], at: usize) -> usize
        ensures { PutsIfRoom (text self.now) at output.old output.new result };
}

impl WriteItem for i32 {
    ghost text = { signed_decimal };

    fn text(&self) -> ArrayVec<u8, LONGEST_ITEM> {
        let mut text = ArrayVec::new();
        add_number(&mut text, *self);
        text
    }

    fn text_len(&self) -> usize {
        integer_len(*self as i64)
    }

    fn write(&self, output: &mut [u8], at: usize) -> usize {
        if at > output.len() || integer_len(*self as i64) > output.len() - at {
            return at;
        }
        put_integer(*self as i64, output, at)
    }
}

impl WriteItem for Point {
    ghost text = { point_text };

    fn text(&self) -> ArrayVec<u8, LONGEST_ITEM> {
        let mut text = ArrayVec::new();
        add_number(&mut text, self.x());
        add_field(&mut text, b",", self.y());
        add_field(&mut text, b",", self.z());
        text
    }

    fn text_len(&self) -> usize {
        integer_len(self.x() as i64)
            + integer_len(self.y() as i64)
            + integer_len(self.z() as i64)
            + 2
    }

    fn write(&self, output: &mut [u8], at: usize) -> usize {
        if at > output.len() || self.text_len() > output.len() - at {
            return at;
        }
        let at = put_integer(self.x() as i64, output, at);
        let at = put_next(self.y() as i64, output, at);
        put_next(self.z() as i64, output, at)
    }
}

// A coordinate after another.
fn put_next(n: i64, output: &mut [u8], at: usize) -> usize
    requires { Room (codes "," ++ signed_decimal n) at output.old }
    ensures { Puts (codes "," ++ signed_decimal n) at output.old output.new result }
{
    let digits = put_text(b",", output, at);
    put_integer(n, output, digits)
}
