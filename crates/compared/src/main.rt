// Plays every script of a bundle, and prints the bundle of what came of each: what the second bench is compared with.
// An entry of a bundle is its length in decimal, a line feed, that many bytes, and a line feed.
#![tactic(auto)]

ghost use Rattle.std.specs.Prelude.{◌≡◌, ◌<◌, ◌∷◌, ◌++◌, length, Some, IfSome};
ghost use Rattle.script.specs.Fields.{after};

use anyhow::Context;
use script_run::run_script;
use std::io::{Read, Write};

// The listing has this many bytes at most. Each program makes its own output, since `run_script` takes the caller's.
const ROOM: usize = 65536;

// The length of the first entry of a bundle, in decimal (no digits are 0), and what follows its line feed. In one pass, which ends at the
// first byte that is no digit, or where the length grows too large: what follows may be long.
fn length_line(bundle: &[u8]) -> Option<(usize, &[u8])>
    ensures rest { IfSome result (λ p. after 10 bundle.now ≡ Some p.1.now) }
    ensures shorter { IfSome result (λ p. length p.1.now < length bundle.now) }
{
    let mut length = 0usize;
    for (i, b) in bundle.iter().enumerate() {
        if *b == b'\n' {
            return Some((length, &bundle[i + 1..]));
        }
        let digit = char::from(*b).to_digit(10)?;
        length = length.checked_mul(10)?.checked_add(digit as usize)?;
    }
    None
}

// The first entry of a bundle and what follows it.
fn first_entry(bundle: &[u8]) -> Option<(&[u8], &[u8])>
    ensures parts { IfSome result (λ p. after 10 bundle.now ≡ Some (p.0.now ++ (10 ∷ p.1.now))) }
    ensures shorter { IfSome result (λ p. length p.1.now < length bundle.now) }
{
    let (length, rest) = length_line(bundle)?;
    let (entry, rest) = rest.split_at_checked(length)?;
    Some((entry, rest.strip_prefix(b"\n")?))
}

fn show(rt: &HostRuntime, text: &[u8]) -> anyhow::Result<()> {
    println!(rt; "{}", text.len())?;
    rt.stdout().write_all(text)?;
    println!(rt; "")?;
    Ok(())
}

fn play(rt: &HostRuntime, script: &[u8]) -> anyhow::Result<()> {
    let heap = rt.alloc();
    let mut output = Vec::from_elem(heap, 0u8, ROOM)?;
    match run_script(heap, script, output.as_mut_slice())? {
        Ok(length) => {
            output.truncate(length);
            show(rt, output.as_slice())
        }
        Err(fault) => {
            let line = format!(in heap; "{fault}\n")?;
            show(rt, line.as_bytes())
        }
    }
}

fn run(rt: &HostRuntime) -> anyhow::Result<()> {
    let mut bundle = Vec::new(rt.alloc());
    rt.stdin().read_to_end(&mut bundle)?;
    let mut rest = bundle.as_slice();
    while !rest.is_empty() {
        let (script, others) = first_entry(rest).context("this is no bundle")?;
        play(rt, script)?;
        rest = others;
    }
    Ok(())
}

fn main(rt: HostRuntime) -> anyhow::Result<()> {
    run(&rt)
}
