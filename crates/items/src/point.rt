// A point of three coordinates, each from -512 to 511 in every point there is.
ghost use Rattle.std.specs.Prelude.{◌≡◌, IfOk, IfErr};
ghost use Rattle.items.specs.Coordinates.{Coordinate};

use refusal::Refusal;

#[derive(Clone, Copy, PartialEq, Eq, Debug)]
pub struct Point {
    pub(crate) x: i16,
    pub(crate) y: i16,
    pub(crate) z: i16,
    ghost ok: { Coordinate x × Coordinate y × Coordinate z },
}

// The coordinate z, if it is in range.
fn in_range(z: i64) -> Result<i16, Refusal>
    ensures ok { IfOk result (λ c. (c ≡ z) × Coordinate z) }
    ensures err { IfErr result (λ f. (Coordinate z → ⊥) × (f ≡ Refusal.BadCoordinate)) }
{
    match z {
        -512..=511 => Ok(z as i16),
        _ => Err(Refusal::BadCoordinate),
    }
}

impl Point {
    ghost use Rattle.items.specs.Points.{MakesPoint};

    // Refuses a coordinate out of range.
    pub fn new(x: i64, y: i64, z: i64) -> Result<Point, Refusal>
        ensures { MakesPoint x y z result }
    {
        Ok(Point {
            x: in_range(x)?,
            y: in_range(y)?,
            z: in_range(z)?,
        })
    }

    pub fn x(&self) -> i16
        ensures { result ≡ self.now.x }
    {
        self.x
    }

    pub fn y(&self) -> i16
        ensures { result ≡ self.now.y }
    {
        self.y
    }

    pub fn z(&self) -> i16
        ensures { result ≡ self.now.z }
    {
        self.z
    }
}
