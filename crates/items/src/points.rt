// Points as a kind of item: ten bits for each coordinate.
ghost use Rattle.std.specs.Prelude.{◌≡◌, ◌%◌};
ghost use Rattle.items.specs.Coordinates.{Coordinate, ten_bits, coordinate};
ghost use Rattle.items.specs.Points.{point_value, value_point};
ghost use Rattle.items.specs.Turned;

use crate::Kind;
use crate::point::Point;

// The ten bits of a coordinate.
fn to_bits(c: i16) -> u32
    requires { Coordinate c }
    ensures { result ≡ ten_bits c }
{
    (c + 512) as u32
}

// The coordinate of the ten lowest bits.
fn from_bits(v: u32) -> i16
    ensures { result ≡ coordinate (v % 1024) }
{
    (v % 1024) as i16 - 512
}

pub struct Points;

impl Kind for Points {
    type Item = Point;

    ghost value = { point_value };

    ghost item = { value_point };

    // The ranges are facts of the type.
    ghost proper = { λ _. Unit {0} };

    ghost back = { λ p _. Turned.back p };

    fn to_value(p: Point) -> u32 {
        (to_bits(p.x) << 20) + (to_bits(p.y) << 10) + to_bits(p.z)
    }

    fn to_item(v: u32) -> Point {
        Point {
            x: from_bits(v >> 20),
            y: from_bits(v >> 10),
            z: from_bits(v),
        }
    }
}
