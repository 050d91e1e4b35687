// Runs of the two memories.
use memory::{BucketedMemory, FlatMemory, Memory, Swapped, place};

// The word at a location, or the number of the refusal.
fn show_load<M: Memory>(rt: &HostRuntime, memory: &M, at: usize) -> anyhow::Result<()> {
    match memory.load(at) {
        Ok(word) => println!(rt; "  load {at}: {word}")?,
        Err(refusal) => println!(rt; "  load {at}: refused {refusal}")?,
    }
    Ok(())
}

fn show_swap<M: Memory>(
    rt: &HostRuntime,
    memory: &mut M,
    at: usize,
    old: u64,
    new: u64,
) -> anyhow::Result<()> {
    match memory.swap(at, old, new) {
        Ok(Swapped::Yes) => println!(rt; "  swap {at} from {old} to {new}: yes")?,
        Ok(Swapped::No) => println!(rt; "  swap {at} from {old} to {new}: no")?,
        Err(refusal) => println!(rt; "  swap {at} from {old} to {new}: refused {refusal}")?,
    }
    Ok(())
}

pub fn play_flat(rt: &HostRuntime) -> anyhow::Result<()> {
    let mut memory = FlatMemory::new(rt.alloc())?;
    let short = FlatMemory::short(rt.alloc())?;
    let words = memory.len();
    let fewer = short.len();
    println!(rt; "flat memory: {words} words; made short: {fewer}")?;
    show_swap(rt, &mut memory, 464, 0, 7)?;
    show_swap(rt, &mut memory, 464, 0, 8)?;
    show_load(rt, &memory, 464)?;
    show_load(rt, &memory, 465)?;
    show_swap(rt, &mut memory, 465, 0, 1)
}

pub fn play_places(rt: &HostRuntime) -> anyhow::Result<()> {
    println!(rt; "buckets of locations")?;
    for at in [7usize, 8, 23, 24, 503] {
        let (bucket, offset) = place(at);
        println!(rt; "  location {at}: bucket {bucket}, offset {offset}")?;
    }
    Ok(())
}

fn show_open(rt: &HostRuntime, memory: &BucketedMemory) -> anyhow::Result<()> {
    let open = memory.open_buckets();
    println!(rt; "  open buckets: {open}")?;
    Ok(())
}

pub fn play_buckets(rt: &HostRuntime) -> anyhow::Result<()> {
    let mut memory = BucketedMemory::new(rt.alloc())?;
    let words = memory.len();
    println!(rt; "bucketed memory: {words} words")?;
    show_open(rt, &memory)?;
    show_swap(rt, &mut memory, 401, 1, 2)?;
    show_open(rt, &memory)?;
    show_swap(rt, &mut memory, 8, 0, 0)?;
    show_swap(rt, &mut memory, 401, 0, 5)?;
    show_open(rt, &memory)?;
    show_load(rt, &memory, 401)?;
    show_load(rt, &memory, 500)?;
    show_load(rt, &memory, 504)
}
