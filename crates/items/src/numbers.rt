// Whole numbers of 32 bits, as a kind of item.
ghost use Rattle.items.specs.Numbers.{number_value, value_number, IsNumber};
ghost use Rattle.std.proofs.Common.{rules};

use crate::Kind;

pub struct Numbers;

impl Kind for Numbers {
    type Item = i32;

    ghost value = { number_value };

    ghost item = { value_number };

    ghost proper = { IsNumber };

    ghost back = { Prim.search rules };

    fn to_value(x: i32) -> u32 {
        (i64::from(x) + 2147483648) as u32
    }

    fn to_item(v: u32) -> i32 {
        (i64::from(v) - 2147483648) as i32
    }
}
