// A bench used call by call: what its calls answer, and what a look tells.
use items::Numbers;
use lock_vector::LockVector;
use memory::{FlatMemory, Memory};
use refusal::Refusal;
use stepping::{Open, Running};
use vector::{Container, Op};

fn show_look(
    rt: &HostRuntime,
    thread: usize,
    told: Result<Option<Open>, Refusal>,
) -> anyhow::Result<()> {
    match told {
        Ok(None) => println!(rt; "  look {thread}: nothing open")?,
        Ok(Some(Open { number, effect })) => {
            println!(rt; "  look {thread}: number {number}, took effect: {effect}")?
        }
        Err(refusal) => println!(rt; "  look {thread}: refused {refusal}")?,
    }
    Ok(())
}

pub fn play_calls(rt: &HostRuntime) -> anyhow::Result<()> {
    let heap = rt.alloc();
    let memory = FlatMemory::new(heap)?;
    println!(rt; "a bench over a vector under a lock, call by call")?;
    let mut bench = Running::<LockVector<FlatMemory>, Numbers>::new(heap, LockVector::new(memory))?;
    show_look(rt, 1, bench.look(1))?;
    bench.set_up(2, 2)?;
    show_look(rt, 1, bench.look(1))?;
    let number = bench.begin(1, Op::Push(17))?;
    println!(rt; "  thread 1 begins number {number}")?;
    for _ in 0..4 {
        bench.step(1)?;
    }
    show_look(rt, 1, bench.look(1))?;
    bench.step(1)?;
    show_look(rt, 1, bench.look(1))?;
    bench.step(1)?;
    show_look(rt, 1, bench.look(1))?;
    show_look(rt, 3, bench.look(3))?;
    let closed = bench.close();
    let records = closed.records().len();
    println!(rt; "  records in the log: {records}")?;
    Ok(())
}
