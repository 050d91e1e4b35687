// Scripts of every make of bench, with what comes of each.
use script::Fault;
use script_run::run_script;
use std::alloc::{AllocError, Global};
use std::io::Write;

// A listing has this many bytes at most. Each program makes its own output, since `run_script` takes the caller's.
pub const ROOM: usize = 65536;

// The listing of a script, where the output has room for it, or its fault. The output is had before, so that each caller decides what
// it prints where memory lacks.
pub fn listing_of(
    heap: Global,
    script: &[u8],
    mut output: Vec<u8>,
) -> Result<Result<Vec<u8>, Fault>, AllocError> {
    let played = run_script(heap, script, output.as_mut_slice())?;
    Ok(played.map(|length| {
        output.truncate(length);
        output
    }))
}

fn show_script(rt: &HostRuntime, title: &str, script: &str) -> anyhow::Result<()> {
    let heap = rt.alloc();
    let output = Vec::from_elem(heap, 0u8, ROOM)?;
    println!(rt; "{title}")?;
    match listing_of(heap, script.as_bytes(), output)? {
        Ok(listing) => rt.stdout().write_all(listing.as_slice())?,
        Err(fault) => println!(rt; "{fault}")?,
    }
    Ok(())
}

// Operations that other threads finish.
pub fn play_helped(rt: &HostRuntime) -> anyhow::Result<()> {
    show_script(
        rt,
        "a push that another thread finishes",
        "dfn 2 2\n1 + 17\n# parked\n1 . 3\n2 r 0\n2 . 1\n2 s\n2 . 7\n1 . 2\n",
    )?;
    show_script(
        rt,
        "a push of a point that thread 2 fills in, read by thread 3 before its owner moves",
        "dbp 2 3\n1 + 1,-2,3\n1 . 3\n2 s\n2 . 3\n3 r 0\n3 . 1\n2 . 4\n1 . 2\n",
    )?;
    show_script(
        rt,
        "a pop that another thread finishes, and a cell frozen anew after that",
        "dfn 2 2\n1 + 5\n1 . 5\n1 -\n1 . 4\n2 -\n2 . 10\n2 + 5\n2 . 6\n1 . 4\n2 r 0\n2 . 3\n",
    )?;
    show_script(
        rt,
        "empty, full and out on the descriptor vector in buckets",
        "dbn 1 1\n1 -\n1 . 2\n1 + 17\n1 . 5\n1 + 18\n1 . 3\n1 w 0 -1\n1 . 2\n1 -\n1 . 9\n1 r 0\n1 . 1\n",
    )
}

// A thread parked inside the lock: the other one waits.
pub fn play_locked(rt: &HostRuntime) -> anyhow::Result<()> {
    show_script(
        rt,
        "two threads, one parked inside the lock",
        "gfn 2 2\n1 + 17\n1 . 4\n2 s\n2 . 100\n1 . 2\n2 . 3\n",
    )?;
    show_script(
        rt,
        "points in a vector under a lock, in buckets",
        "gbp 1 2\n1 + 511,-512,0\n1 . 6\n2 r 0\n2 . 4\n1 w 0 1.5,-1.5,511.4\n1 . 5\n2 -\n2 . 5\n",
    )
}
