// Items for values and values for items, in operations and answers. Case by case: a `map` with a closure would have to be proved of
// every closure, for two uses.
ghost use Rattle.std.specs.Prelude.{◌≡◌};
ghost use Rattle.stepping.specs.Bench.{typed};
ghost use Rattle.vector.specs.Plain.{map_op, map_answer};

use items::Kind;
use vector::{Answer, Ended, Op, Stepped};

pub(crate) fn op_of_values<K: Kind>(op: Op<K::Item>) -> Op<u32>
    ensures turned { result ≡ map_op K.value op }
    ensures back { map_op K.item (map_op K.value op) ≡ op }
{
    match op {
        Op::Push(x) => Op::Push(K::to_value(x)),
        Op::Pop => Op::Pop,
        Op::Read(i) => Op::Read(i),
        Op::Write(i, x) => Op::Write(i, K::to_value(x)),
        Op::Size => Op::Size,
    }
}

pub(crate) fn answer_of_items<K: Kind>(answer: Answer<u32>) -> Answer<K::Item>
    ensures { result ≡ map_answer K.item answer }
{
    match answer {
        Answer::Position(n) => Answer::Position(n),
        Answer::Value(v) => Answer::Value(K::to_item(v)),
        Answer::Full => Answer::Full,
        Answer::Empty => Answer::Empty,
        Answer::Out => Answer::Out,
        Answer::Done => Answer::Done,
        Answer::Length(n) => Answer::Length(n),
    }
}

pub(crate) fn step_of_items<K: Kind>(step: Stepped<u32>) -> Stepped<K::Item>
    ensures { result ≡ typed K.item step }
{
    let end = step.end.map(|ended| Ended {
        number: ended.number,
        answer: answer_of_items::<K>(ended.answer),
    });
    Stepped {
        effect: step.effect,
        end,
    }
}
