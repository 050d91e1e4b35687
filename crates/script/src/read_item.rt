// Items read from the text of a field.
ghost use Rattle.std.specs.Prelude.{◌≡◌, ℕ, ◌+◌, ◌^◌, ◌<◌, List, IfOk, Result};
ghost use Rattle.std.specs.Option.{ok_or};
ghost use Rattle.script.specs.Items.{number_item, point_item, magnitude_of, coordinate_of};
ghost use Rattle.refusal.specs.declared.Refusal.{Refusal};

use crate::fields::{cut, split};
use crate::numbers::{number, signed};
use items::Point;
use refusal::Refusal;

pub trait ReadItem: Sized {
    ghost reads: { List ℕ → Result Self Refusal };

    fn read_item(text: &[u8]) -> Result<Self, Refusal>
        ensures { result ≡ reads text.now };
}

impl ReadItem for i32 {
    ghost reads = { number_item };

    fn read_item(text: &[u8]) -> Result<i32, Refusal> {
        i32::try_from(signed(text, number)?).map_err(|_| Refusal::OutOfRange)
    }
}

// Digits, with one decimal or none, rounded to a whole number, halves upwards.
fn magnitude(digits: &[u8]) -> Result<usize, Refusal>
    ensures value { result ≡ ok_or (magnitude_of digits.now) Refusal.NotOfAForm }
    ensures small { IfOk result (λ n. n < 10 ^ 10 + 1) }
{
    let (whole, tenth) = split(digits, b'.');
    let n = number(whole)?;
    match tenth {
        None | Some([b'0'..=b'4']) => Ok(n),
        Some([b'5'..=b'9']) => Ok(n + 1),
        Some(_) => Err(Refusal::NotOfAForm),
    }
}

fn coordinate(text: &[u8]) -> Result<i64, Refusal>
    ensures { result ≡ ok_or (coordinate_of text.now) Refusal.NotOfAForm }
{
    signed(text, magnitude)
}

impl ReadItem for Point {
    ghost reads = { point_item };

    fn read_item(text: &[u8]) -> Result<Point, Refusal> {
        let (x, rest) = cut(text, b',')?;
        let (y, z) = cut(rest, b',')?;
        Point::new(coordinate(x)?, coordinate(y)?, coordinate(z)?)
    }
}
