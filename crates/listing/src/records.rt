// The line of a record: how long it is, and the writing of it.
ghost use Rattle.std.specs.Prelude.{◌≡◌, ◌≤◌, length};
ghost use Rattle.listing.specs.Listings.{op_text, answer_text, record_text, line_of};
ghost use Rattle.listing.specs.Puts.{Puts, Room};

use crate::decimals::{number_len, put_field, put_number, put_text};
use crate::write_item::WriteItem;
use stepping::Record;
use vector::{Answer, Op};

fn op_len<T: WriteItem>(op: &Op<T>) -> usize
    ensures value { result ≡ length (op_text T.WriteItem.text op.now) }
    ensures small { result ≤ 90 }
{
    match op {
        Op::Push(item) => 2 + item.text_len(),
        Op::Pop | Op::Size => 1,
        Op::Read(index) => 2 + number_len(*index as u64),
        Op::Write(index, item) => 3 + number_len(*index as u64) + item.text_len(),
    }
}

fn put_op<T: WriteItem>(op: &Op<T>, output: &mut [u8], at: usize) -> usize
    requires { Room (op_text T.WriteItem.text op.now) at output.old }
    ensures { Puts (op_text T.WriteItem.text op.now) at output.old output.new result }
{
    match op {
        Op::Push(item) => {
            let at = put_text(b"+ ", output, at);
            item.write(output, at)
        }
        Op::Pop => put_text(b"-", output, at),
        Op::Read(index) => put_field(b"r ", *index as u64, output, at),
        Op::Write(index, item) => {
            let at = put_field(b"w ", *index as u64, output, at);
            let at = put_text(b" ", output, at);
            item.write(output, at)
        }
        Op::Size => put_text(b"s", output, at),
    }
}

fn answer_len<T: WriteItem>(answer: &Answer<T>) -> usize
    ensures value { result ≡ length (answer_text T.WriteItem.text answer.now) }
    ensures small { result ≤ 90 }
{
    match answer {
        Answer::Position(count) | Answer::Length(count) => number_len(*count as u64),
        Answer::Value(item) => item.text_len(),
        Answer::Full | Answer::Done => 4,
        Answer::Empty => 5,
        Answer::Out => 3,
    }
}

fn put_answer<T: WriteItem>(answer: &Answer<T>, output: &mut [u8], at: usize) -> usize
    requires { Room (answer_text T.WriteItem.text answer.now) at output.old }
    ensures { Puts (answer_text T.WriteItem.text answer.now) at output.old output.new result }
{
    match answer {
        Answer::Position(place) => put_number(*place as u64, output, at),
        Answer::Value(item) => item.write(output, at),
        Answer::Full => put_text(b"full", output, at),
        Answer::Empty => put_text(b"empty", output, at),
        Answer::Out => put_text(b"out", output, at),
        Answer::Done => put_text(b"done", output, at),
        Answer::Length(count) => put_number(*count as u64, output, at),
    }
}

pub(crate) fn line_len<T: WriteItem>(entry: &Record<T>) -> usize
    ensures { result ≡ length (line_of T.WriteItem.text entry.now) }
{
    match entry {
        Record::Begin(number, thread, op) => 9
            + number_len(*number as u64)
            + number_len(*thread as u64)
            + op_len(op),
        Record::Effect(number) => 8 + number_len(*number as u64),
        Record::End(number, answer) => 6 + number_len(*number as u64) + answer_len(answer),
    }
}

fn put_record<T: WriteItem>(entry: &Record<T>, output: &mut [u8], at: usize) -> usize
    requires { Room (record_text T.WriteItem.text entry.now) at output.old }
    ensures { Puts (record_text T.WriteItem.text entry.now) at output.old output.new result }
{
    match entry {
        Record::Begin(number, thread, op) => {
            let at = put_field(b"begin ", *number as u64, output, at);
            let at = put_field(b" ", *thread as u64, output, at);
            let at = put_text(b" ", output, at);
            put_op(op, output, at)
        }
        Record::Effect(number) => put_field(b"effect ", *number as u64, output, at),
        Record::End(number, answer) => {
            let at = put_field(b"end ", *number as u64, output, at);
            let at = put_text(b" ", output, at);
            put_answer(answer, output, at)
        }
    }
}

pub(crate) fn put_line<T: WriteItem>(entry: &Record<T>, output: &mut [u8], at: usize) -> usize
    requires { Room (line_of T.WriteItem.text entry.now) at output.old }
    ensures { Puts (line_of T.WriteItem.text entry.now) at output.old output.new result }
{
    let end = put_record(entry, output, at);
    put_text(b"\n", output, end)
}
