// Where a stage that swaps leads, by whether the old word stood there.
ghost use Rattle.std.specs.Prelude.{◌≡◌, cond};
ghost use Rattle.vector.specs.declared.Answer.TheVariants.{Done};
ghost use Rattle.descriptor_steps.specs.Machine.{goto, end, help, own};
ghost use Rattle.descriptor_steps.specs.Shared.{value_in};
ghost use Rattle.descriptor_steps.specs.Steps.{to, serves, installs};

use crate::asks::value_of;
use crate::moves::{answer, go, go_to, helping, install, serve};
use crate::stage::{Moved, Next, Plan, Stage, Then};
use descriptor_words::Cell;
use vector::Answer;

// L4 makes the own number the current one: the plan is installed, and the thread helps itself.
pub(crate) fn after_l4(number: u16, plan: Plan, took: bool) -> Moved
    ensures { result ≡ cond took (installs plan (goto (help number (Some plan) own))) (to (goto Stage.L1)) }
{
    if took {
        install(plan, helping(number, Some(plan), Then::Own))
    } else {
        go_to(Stage::L1)
    }
}

// H1 fills the cell: the push takes effect.
pub(crate) fn after_h1(helped: u16, then: Then, took: bool) -> Moved
    ensures { result ≡ cond took (serves helped (goto (Stage.H2 helped then))) (to (goto (Stage.H2 helped then))) }
{
    let next = Next::Goto(Stage::H2 { helped, then });
    if took { serve(helped, next) } else { go(next) }
}

// G3 freezes the cell through the own number.
pub(crate) fn after_g3(number: u16, helped: u16, seen: Cell, then: Then, took: bool) -> Moved
    ensures { result ≡ cond took (to (goto (Stage.G4 helped (value_in seen) number then))) (to (goto (Stage.G1 helped then))) }
{
    if took {
        go_to(Stage::G4 {
            helped,
            value: value_of(seen),
            through: number,
            then,
        })
    } else {
        go_to(Stage::G1 { helped, then })
    }
}

// G4 marks the pop done with the value: the pop takes effect.
pub(crate) fn after_g4(helped: u16, value: u32, through: u16, then: Then, took: bool) -> Moved
    ensures { result ≡ cond took (serves helped (goto (Stage.G6 helped value through value then))) (to (goto (Stage.G5w helped value through then))) }
{
    if took {
        let next = Next::Goto(Stage::G6 {
            helped,
            value,
            through,
            popped: value,
            then,
        });
        serve(helped, next)
    } else {
        go_to(Stage::G5w {
            helped,
            value,
            through,
            then,
        })
    }
}

// After G6, whether or not the frozen word still stood, the pop is to be made final.
pub(crate) fn after_g6(helped: u16, popped: u32, then: Then) -> Moved
    ensures { result ≡ to (goto (Stage.G7 helped popped then)) }
{
    go_to(Stage::G7 {
        helped,
        popped,
        then,
    })
}

// W3 replaces the word seen: the write takes effect.
pub(crate) fn after_w3(number: u16, index: u16, value: u32, took: bool) -> Moved
    ensures { result ≡ cond took (serves number (end Done)) (to (goto (Stage.W1 index value))) }
{
    if took {
        answer(number, Answer::Done)
    } else {
        go_to(Stage::W1 { index, value })
    }
}
