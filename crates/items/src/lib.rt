// Kinds of item, which turn into 32-bit values and back.
#![tactic(auto)]

ghost use Rattle.std.specs.Prelude.{◌≡◌, ℕ};

mod numbers;
mod point;
mod points;

pub use numbers::Numbers;
pub use point::Point;
pub use points::Points;

pub trait Kind {
    type Item: Copy;

    ghost value: { Self.Item → ℕ };

    ghost item: { ℕ → Self.Item };

    // What is true of every item there is. An integer of the code is any integer in a law, so that its range stands here.
    ghost proper: { Self.Item → Type 0 };

    // Named, and not `From`: the laws are about this pair, and `i32` is no type of this crate.
    fn to_value(x: Self::Item) -> u32
        ensures value { result ≡ value x }
        ensures proper { proper x };

    fn to_item(v: u32) -> Self::Item
        ensures { result ≡ item v };

    // An item turned into a value and back is that item.
    ghost back: { (x : Self.Item) → proper x → item (value x) ≡ x };
}

// There and back again: the same item, of whatever kind.
pub fn there_and_back<K: Kind>(x: K::Item) -> K::Item
    ensures { result ≡ x }
{
    K::to_item(K::to_value(x))
}
