// A bench is asked for the calls of a script's lines, in order, up to the first fault.
ghost use Rattle.std.specs.Prelude.{ℕ};
ghost use Rattle.script.specs.Reading.{left};
ghost use Rattle.script_run.specs.Calls.{asked, asked_by, calls_of};
ghost use Rattle.script_run.specs.Drives.{Drives, told_at};

use items::Kind;
use refusal::Refusal;
use script::{Command, Fault, Line, Lines, ReadItem, Script};
use stepping::Running;
use vector::Container;

// What a line asks for, unless the line is refused itself.
fn perform<C: Container, K: Kind>(
    bench: &mut Running<C, K>,
    command: Result<Command<K::Item>, Refusal>,
) -> Result<(), Refusal>
    ensures { (line : ℕ) → Drives C.Container K.Kind bench.old (asked line command) (told_at line result) bench.new }
{
    match command? {
        Command::Begin(thread, op) => {
            bench.begin(thread, op)?;
        }
        Command::Steps(thread, count) => {
            for _ in 0..count {
                bench.step(thread)?;
            }
        }
    }
    Ok(())
}

// What the lines ask for, in order, up to the first fault.
fn play_lines<C: Container, K: Kind<Item = T>, T: ReadItem + Copy>(
    bench: &mut Running<C, K>,
    lines: &mut Lines,
) -> Result<(), Fault>
    ensures { Drives C.Container K.Kind bench.old (asked_by (left T.ReadItem.reads lines.old)) result bench.new }
{
    while let Some(read) = lines.next_line::<T>() {
        let Line {
            number: line,
            command,
        } = read;
        perform(bench, command).map_err(|refusal| Fault { line, refusal })?;
    }
    Ok(())
}

// The set-up that the header asks for, and then what the lines ask for.
pub(crate) fn play_script<C: Container, K: Kind<Item = T>, T: ReadItem + Copy>(
    bench: &mut Running<C, K>,
    script: Script,
) -> Result<(), Fault>
    ensures { Drives C.Container K.Kind bench.old (calls_of T.ReadItem.reads script.entry) result bench.new }
{
    let Script {
        line,
        header,
        mut lines,
    } = script;
    bench
        .set_up(header.capacity, header.threads)
        .map_err(|refusal| Fault { line, refusal })?;
    play_lines(bench, &mut lines)
}
