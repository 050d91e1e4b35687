// Plays the script on standard input, and prints its listing or its first fault.
#![tactic(auto)]

use anyhow::anyhow;
use script_run::run_script;
use std::env;
use std::io::{Read, Write};

const HELP: &str = "usage: bench < SCRIPT

Plays a script, one memory access to a step, and prints in which order its operations took effect:
a line for each begin, effect and end; or 'fault LINE NUMBER' for the script's first fault.

  dfn 2 2      descriptor vector (d; g: under a lock), flat memory (f; b: buckets),
               numbers (n; p: points x,y,z); capacity 2, threads 2
  1 + 17       thread 1 begins a push of 17 (-: pop, r 0: read, w 0 5: write, s: size)
  # parked     a comment
  1 . 3        thread 1 takes 3 steps
  2 r 0
  2 . 1
  2 s
  2 . 7        finishes the push of thread 1, since the size has to know
  1 . 2

is listed as

  begin 1 1 + 17
  begin 2 2 r 0
  effect 2
  end 2 out
  begin 3 2 s
  effect 1
  effect 3
  end 3 1
  end 1 0

The forms of scripts and listings are described in docs/scripts_and_listings.md, the numbers of
faults in docs/refusals.md.
";

// The listing has this many bytes at most. Each program makes its own output, since `run_script` takes the caller's.
const ROOM: usize = 65536;

fn play(rt: &HostRuntime) -> anyhow::Result<()> {
    let heap = rt.alloc();
    let mut script = Vec::new(heap);
    rt.stdin().read_to_end(&mut script)?;
    let mut output = Vec::from_elem(heap, 0u8, ROOM)?;
    match run_script(heap, script.as_slice(), output.as_mut_slice())? {
        Ok(length) => {
            output.truncate(length);
            rt.stdout().write_all(output.as_slice())?;
        }
        Err(fault) => println!(rt; "{fault}")?,
    }
    Ok(())
}

fn run(rt: &HostRuntime) -> anyhow::Result<()> {
    match env::args(rt)?.nth(1).as_deref() {
        None => play(rt),
        Some("--help") => {
            rt.print(HELP)?;
            Ok(())
        }
        Some(_) => Err(anyhow!("usage: bench < SCRIPT, or bench --help")),
    }
}

fn main(rt: HostRuntime) -> anyhow::Result<()> {
    run(&rt)
}
