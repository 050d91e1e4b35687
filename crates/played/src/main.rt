// Plays worked runs through the library, and prints what came of each.
#![tactic(auto)]

mod benches;
mod faults;
mod memories;
mod scripts;
mod values;
mod worked;

use crate::benches::play_calls;
use crate::faults::play_faults;
use crate::memories::{play_buckets, play_flat, play_places};
use crate::scripts::{play_helped, play_locked};
use crate::values::{play_numbers, play_points};
use crate::worked::worked_runs;

fn play_all(rt: &HostRuntime) -> anyhow::Result<()> {
    play_flat(rt)?;
    play_places(rt)?;
    play_buckets(rt)?;
    play_numbers(rt)?;
    play_points(rt)?;
    play_calls(rt)?;
    play_locked(rt)?;
    play_helped(rt)?;
    play_faults(rt)
}

fn main(rt: HostRuntime) -> anyhow::Result<()> {
    worked_runs();
    play_all(&rt)
}
