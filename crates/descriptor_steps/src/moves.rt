// Where a step leads: to a stage, to an effect, to the end of help.
ghost use Rattle.std.specs.Prelude.{◌≡◌, ◌≤◌};
ghost use Rattle.descriptor_steps.specs.Machine.{goto, end, choose, help, go_on};
ghost use Rattle.descriptor_steps.specs.Steps.{to, serves, installs};

use crate::stage::{Moved, Next, Plan, Stage, Then};
use vector::{Answer, Op};

pub(crate) fn go(next: Next) -> Moved
    ensures { result ≡ to next }
{
    Moved {
        next,
        served: None,
        plan: None,
    }
}

pub(crate) fn go_to(stage: Stage) -> Moved
    ensures { result ≡ to (goto stage) }
{
    go(Next::Goto(stage))
}

// The operation with a number takes effect.
pub(crate) fn serve(number: u16, next: Next) -> Moved
    ensures { result ≡ serves number next }
{
    Moved {
        next,
        served: Some(number),
        plan: None,
    }
}

// The thread's own operation takes effect and ends.
pub(crate) fn answer(number: u16, answer: Answer<u32>) -> Moved
    ensures { result ≡ serves number (end answer) }
{
    serve(number, Next::End(answer))
}

pub(crate) fn install(plan: Plan, stage: Stage) -> Moved
    ensures { result ≡ installs plan (goto stage) }
{
    Moved {
        next: Next::Goto(stage),
        served: None,
        plan: Some(plan),
    }
}

// What an operation does next where the vector has a size.
pub(crate) fn chosen(capacity: u16, current: u16, size: usize, op: Op<u32>) -> Stage
    requires { size ≤ 65536 }
    ensures { result ≡ choose capacity current size op }
{
    match op {
        Op::Push(value) => {
            if size < usize::from(capacity) {
                let position = size as u16;
                Stage::P1 {
                    current,
                    position,
                    value,
                }
            } else {
                let answer = Answer::Full;
                Stage::L3 { current, answer }
            }
        }
        Op::Pop => {
            if size == 0 {
                let answer = Answer::Empty;
                Stage::L3 { current, answer }
            } else {
                let position = (size - 1) as u16;
                let plan = Plan::Popping { position };
                Stage::L4 { current, plan }
            }
        }
        Op::Size => {
            let answer = Answer::Length(size);
            Stage::L3 { current, answer }
        }
        Op::Read(_) | Op::Write(_, _) => Stage::L1,
    }
}

// The first stage of helping a number with its plan.
pub(crate) fn helping(helped: u16, plan: Option<Plan>, then: Then) -> Stage
    ensures { result ≡ help helped plan then }
{
    match plan {
        None => Stage::L1,
        Some(Plan::Pushing { .. }) => Stage::H1 { helped, then },
        Some(Plan::Popping { .. }) => Stage::G1 { helped, then },
    }
}

// Help is over.
pub(crate) fn helped_out(plan: Option<Plan>, then: Then) -> Next
    ensures { result ≡ go_on plan then }
{
    match (then, plan) {
        (Then::Own, Some(Plan::Pushing { position, .. })) => {
            Next::End(Answer::Position(usize::from(position)))
        }
        (Then::Own, Some(Plan::Popping { .. })) => Next::Goto(Stage::O1),
        (Then::Own, None) => Next::Goto(Stage::L1),
        (Then::ToL1, _) => Next::Goto(Stage::L1),
        (Then::ToW1 { index, value }, _) => Next::Goto(Stage::W1 { index, value }),
    }
}
