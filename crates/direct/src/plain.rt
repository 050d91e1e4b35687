// A plain vector of at most 64 values.
ghost use Rattle.std.specs.Prelude.{◌≡◌, ◌≤◌};
ghost use Rattle.vector.specs.Plain.{answer, after};

use arrayvec::ArrayVec;
use vector::{Answer, Op};

// Takes an operation, at a capacity.
pub fn perform(values: &mut ArrayVec<u32, 64>, capacity: usize, op: Op<u32>) -> Answer<u32>
    requires { capacity ≤ 64 }
    ensures answers { result ≡ answer capacity values.old.items op }
    ensures holds { values.new.items ≡ after capacity values.old.items op }
{
    let len = values.len();
    match op {
        Op::Push(v) => {
            if len < capacity {
                values.push(v);
                Answer::Position(len)
            } else {
                Answer::Full
            }
        }
        Op::Pop => values.pop().map_or(Answer::Empty, Answer::Value),
        Op::Read(i) => values.get(i).copied().map_or(Answer::Out, Answer::Value),
        Op::Write(i, v) => {
            if i < len {
                values[i] = v;
                Answer::Done
            } else {
                Answer::Out
            }
        }
        Op::Size => Answer::Length(len),
    }
}
