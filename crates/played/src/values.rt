// Items turned into values and back.
use items::{Kind, Numbers, Point, Points};
use std::fmt;

pub fn play_numbers(rt: &HostRuntime) -> anyhow::Result<()> {
    println!(rt; "numbers as values, and back")?;
    for n in [-1i32, 0, 17, -2147483648, 2147483647] {
        let value = Numbers::to_value(n);
        let back = Numbers::to_item(value);
        println!(rt; "  {n}: {value}: {back}")?;
    }
    Ok(())
}

// A point's coordinates, as they are printed here. Its text in a listing is `WriteItem`'s, which cannot fail as printing may.
#[derive(Drop)]
struct Shown(Point);

impl fmt::Display for Shown {
    fn fmt<W: fmt::Write>(&self, f: &mut fmt::Formatter<W>) -> fmt::Result {
        write!(f, "{},{},{}", self.0.x(), self.0.y(), self.0.z())
    }
}

fn show_point(rt: &HostRuntime, x: i64, y: i64, z: i64) -> anyhow::Result<()> {
    match Point::new(x, y, z) {
        Ok(point) => {
            let value = Points::to_value(point);
            let back = Shown(Points::to_item(value));
            println!(rt; "  {x},{y},{z}: {value}: {back}")?
        }
        Err(refusal) => println!(rt; "  {x},{y},{z}: refused {refusal}")?,
    }
    Ok(())
}

pub fn play_points(rt: &HostRuntime) -> anyhow::Result<()> {
    println!(rt; "points as values, and back")?;
    show_point(rt, 0, 0, 0)?;
    show_point(rt, -512, -512, -512)?;
    show_point(rt, 511, 511, 511)?;
    show_point(rt, -1, 2, -3)?;
    show_point(rt, 0, 512, 0)?;
    let high = Shown(Points::to_item(4294967295));
    println!(rt; "  value 4294967295: {high}")?;
    Ok(())
}
