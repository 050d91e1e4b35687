// Operation lines and step lines.
ghost use Rattle.std.specs.Prelude.{◌≡◌, Some};
ghost use Rattle.script.specs.Commands.{op_alone, op_with, count_of, told, command_of};

use crate::fields::{cut, split};
use crate::numbers::number;
use crate::read_item::ReadItem;
use refusal::Refusal;
use vector::Op;

// What a line after the header asks: to begin an operation of a thread, or to step a thread some times.
#[derive(Clone, Copy)]
pub enum Command<T> {
    Begin(usize, Op<T>),
    Steps(usize, usize),
}

fn alone<T>(letter: char) -> Result<Op<T>, Refusal>
    ensures { result ≡ op_alone letter }
{
    match letter {
        '-' => Ok(Op::Pop),
        's' => Ok(Op::Size),
        _ => Err(Refusal::NotOfAForm),
    }
}

fn with_arguments<T: ReadItem>(letter: char, arguments: &[u8]) -> Result<Op<T>, Refusal>
    ensures { result ≡ op_with T.ReadItem.reads letter arguments.now }
{
    match letter {
        '+' => Ok(Op::Push(T::read_item(arguments)?)),
        'r' => Ok(Op::Read(number(arguments)?)),
        'w' => {
            let (index, item) = cut(arguments, b' ')?;
            Ok(Op::Write(number(index)?, T::read_item(item)?))
        }
        _ => Err(Refusal::NotOfAForm),
    }
}

fn step_count(text: &[u8]) -> Result<usize, Refusal>
    ensures { result ≡ count_of text.now }
{
    match number(text)? {
        count @ 1..=999 => Ok(count),
        _ => Err(Refusal::OutOfRange),
    }
}

// A line with something after its letter.
fn with_more<T: ReadItem>(thread: usize, letter: char, more: &[u8]) -> Result<Command<T>, Refusal>
    ensures { result ≡ told T.ReadItem.reads thread letter (Some more.now) }
{
    match letter {
        '.' => Ok(Command::Steps(thread, step_count(more)?)),
        _ => Ok(Command::Begin(thread, with_arguments(letter, more)?)),
    }
}

pub(crate) fn read_command<T: ReadItem>(line: &[u8]) -> Result<Command<T>, Refusal>
    ensures { result ≡ command_of T.ReadItem.reads line.now }
{
    let (thread, rest) = cut(line, b' ')?;
    let thread = number(thread)?;
    let (word, more) = split(rest, b' ');
    let [letter] = word else {
        return Err(Refusal::NotOfAForm);
    };
    let letter = char::from(*letter);
    match more {
        Some(more) => with_more(thread, letter, more),
        None => Ok(Command::Begin(thread, alone(letter)?)),
    }
}
