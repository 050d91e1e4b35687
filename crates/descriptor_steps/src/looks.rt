// Where a stage that loads leads, from the number, the status or the cell that it finds.
ghost use Rattle.std.specs.Prelude.{◌≡◌, ℕ, cond, ◌==◌};
ghost use Rattle.vector.specs.declared.Answer.TheVariants.{Value};
ghost use Rattle.descriptor_steps.specs.Shared.{Shared, frozen, held, same_cell, value_in};
ghost use Rattle.descriptor_steps.specs.Machine.{on_L1, on_L2, on_P1, on_G1, on_G2, on_G5, on_G5w, on_R1, on_R2, on_W1, on_W2, quiet, serving, goto, end};
ghost use Rattle.descriptor_steps.specs.Steps.{moved};

use crate::asks::value_of;
use crate::moves::{answer, chosen, go_to, helped_out, helping};
use crate::stage::{Moved, Next, Plan, Stage, Then};
use descriptor_words::{Cell, Status};
use vector::{Answer, Op};

pub(crate) fn after_l1(capacity: u16, op: Op<u32>, current: u16) -> Stage
    ensures { (s : Shared) → s.cap ≡ capacity → result ≡ on_L1 s op current }
{
    // The word has 0 where there is no current operation.
    if current == 0 {
        chosen(capacity, 0, 0, op)
    } else {
        Stage::L2 { current }
    }
}

pub(crate) fn after_l2(
    capacity: u16,
    plan: Option<Plan>,
    op: Op<u32>,
    current: u16,
    status: Status,
) -> Stage
    ensures { (s : Shared) → s.cap ≡ capacity → s.plan current ≡ plan → result ≡ on_L2 s op current status }
{
    match status {
        Status::Pending | Status::Done(_) => helping(current, plan, Then::ToL1),
        Status::Final(_) => chosen(capacity, current, plan.map_or(0, Plan::size), op),
    }
}

// L3 answers if the current number is still the same: no operation was installed since.
pub(crate) fn after_l3(number: u16, current: u16, said: Answer<u32>, found: u16) -> Moved
    ensures { (s : Shared) → result ≡ moved (cond (found == current) (serving s number (end said)) (quiet s (goto Stage.L1))) }
{
    if found == current {
        answer(number, said)
    } else {
        go_to(Stage::L1)
    }
}

pub(crate) fn after_p1(current: u16, position: u16, value: u32, cell: Cell) -> Stage
    ensures { result ≡ on_P1 current position value cell }
{
    match cell {
        Cell::Empty { by } => {
            let plan = Plan::Pushing {
                position,
                value,
                emptied_by: by,
            };
            Stage::L4 { current, plan }
        }
        Cell::Plain(_) | Cell::Frozen { .. } => Stage::L1,
    }
}

pub(crate) fn after_g1(helped: u16, then: Then, cell: Cell) -> Stage
    ensures { result ≡ on_G1 helped then cell }
{
    match cell {
        Cell::Empty { .. } => Stage::G5 { helped, then },
        Cell::Plain(_) => Stage::G3 {
            helped,
            seen: cell,
            then,
        },
        Cell::Frozen { value, by, through } => {
            if by == helped {
                Stage::G4 {
                    helped,
                    value,
                    through,
                    then,
                }
            } else {
                Stage::G2 {
                    helped,
                    value,
                    by,
                    through,
                    then,
                }
            }
        }
    }
}

pub(crate) fn after_g2(
    helped: u16,
    plan: Option<Plan>,
    seen: Cell,
    then: Then,
    status: Status,
) -> Next
    ensures { result ≡ on_G2 helped plan seen then status }
{
    match status {
        Status::Pending | Status::Done(_) => helped_out(plan, then),
        Status::Final(_) => Next::Goto(Stage::G3 { helped, seen, then }),
    }
}

// What G5's status means depends on where G5 was reached from: done leads to G6 with the frozen word from G4, and to G7 from G1,
// which found the cell empty.
pub(crate) fn after_g5(
    stage: Stage,
    helped: u16,
    plan: Option<Plan>,
    then: Then,
    status: Status,
) -> Next
    ensures from_g1 { stage ≡ Stage.G5 helped then → result ≡ on_G5 helped plan then status }
    ensures from_g4 { (value through : ℕ) → stage ≡ Stage.G5w helped value through then → result ≡ on_G5w helped plan value through then status }
{
    match (stage, status) {
        (_, Status::Pending) => Next::Goto(Stage::G1 { helped, then }),
        (Stage::G5w { value, through, .. }, Status::Done(popped)) => Next::Goto(Stage::G6 {
            helped,
            value,
            through,
            popped,
            then,
        }),
        (_, Status::Done(popped)) => Next::Goto(Stage::G7 {
            helped,
            popped,
            then,
        }),
        (_, Status::Final(_)) => helped_out(plan, then),
    }
}

// The value that a status holds.
pub(crate) fn held_by(status: Status) -> u32
    ensures { result ≡ held status }
{
    match status {
        Status::Pending => 0,
        Status::Done(value) | Status::Final(value) => value,
    }
}

pub(crate) fn after_r1(number: u16, index: u16, cell: Cell) -> Moved
    ensures { (s : Shared) → result ≡ moved (on_R1 s number index cell) }
{
    match cell {
        Cell::Empty { .. } => answer(number, Answer::Out),
        Cell::Plain(value) => answer(number, Answer::Value(value)),
        Cell::Frozen { value, by, through } => go_to(Stage::R2 {
            index,
            value,
            by,
            through,
        }),
    }
}

pub(crate) fn after_r2(
    number: u16,
    index: u16,
    value: u32,
    by: u16,
    through: u16,
    status: Status,
) -> Moved
    ensures { (s : Shared) → result ≡ moved (on_R2 s number index value by through status) }
{
    match status {
        Status::Pending => answer(number, Answer::Value(value)),
        Status::Done(_) => answer(number, Answer::Out),
        Status::Final(_) => go_to(Stage::R3 {
            index,
            value,
            by,
            through,
        }),
    }
}

// R3 answers the value if the word seen still stands, and else goes on as R1 does.
pub(crate) fn after_r3(number: u16, index: u16, seen: Cell, cell: Cell) -> Moved
    ensures { (s : Shared) → result ≡ moved (cond (same_cell cell seen) (serving s number (end (Value (value_in seen)))) (on_R1 s number index cell)) }
{
    if cell == seen {
        answer(number, Answer::Value(value_of(seen)))
    } else {
        after_r1(number, index, cell)
    }
}

pub(crate) fn after_w1(number: u16, index: u16, value: u32, cell: Cell) -> Moved
    ensures { (s : Shared) → result ≡ moved (on_W1 s number index value cell) }
{
    match cell {
        Cell::Empty { .. } => answer(number, Answer::Out),
        Cell::Plain(_) => go_to(Stage::W3 {
            index,
            value,
            seen: cell,
        }),
        Cell::Frozen {
            value: seen,
            by,
            through,
        } => go_to(Stage::W2 {
            index,
            value,
            seen,
            by,
            through,
        }),
    }
}

pub(crate) fn after_w2(
    number: u16,
    plan: Option<Plan>,
    index: u16,
    value: u32,
    seen: Cell,
    by: u16,
    status: Status,
) -> Moved
    ensures { (s : Shared) (a j : ℕ) → s.plan by ≡ plan → seen ≡ frozen a by j → result ≡ moved (on_W2 s number index value a by j status) }
{
    match status {
        Status::Pending => go_to(helping(by, plan, Then::ToW1 { index, value })),
        Status::Done(_) => answer(number, Answer::Out),
        Status::Final(_) => go_to(Stage::W3 { index, value, seen }),
    }
}
