// Where each stage leads, from what its access found: the step table, a row to a stage, by what the stages are for.
ghost use Rattle.std.specs.Prelude.{◌≡◌, ℕ};
ghost use Rattle.descriptor_steps.specs.declared.stage.Plans.{Plans as Planned};
ghost use Rattle.descriptor_steps.specs.Purposes.{looking, pushing_on, popping_on, reading, writing, purpose};
ghost use Rattle.descriptor_steps.specs.Steps.{leads, seen, took};

use crate::found::{cell_in, number_in, status_in, took_place};
use crate::looks::{
    after_g1, after_g2, after_g5, after_l1, after_l2, after_l3, after_p1, after_r1, after_r2,
    after_r3, after_w1, after_w2, held_by,
};
use crate::moves::{go, go_to, helped_out};
use crate::stage::{Moved, Next, Plans, Stage};
use crate::swaps::{after_g3, after_g4, after_g6, after_h1, after_l4, after_w3};
use descriptor_words::{Cell, Found};
use vector::{Answer, Task};

// One function cannot hold 22 stages: `lead` picks a part by what the stage is for, and each part is proved to meet its own alone.

// L1 to L4 and P1: where the vector stands, and the own operation installed or answered.
fn lead_look(plans: &Plans, capacity: u16, task: Task<Stage>, found: Found) -> Moved
    requires { purpose task.stage ≡ looking }
    ensures { result ≡ leads (seen plans.now capacity found) (took found) task.number task.op task.stage }
{
    match task.stage {
        Stage::L1 => go_to(after_l1(capacity, task.op, number_in(found))),
        Stage::L2 { current } => {
            let plan = plans.of(current);
            go_to(after_l2(capacity, plan, task.op, current, status_in(found)))
        }
        Stage::L3 { current, answer } => after_l3(task.number, current, answer, number_in(found)),
        Stage::P1 {
            current,
            position,
            value,
        } => go_to(after_p1(current, position, value, cell_in(found))),
        Stage::L4 { plan, .. } => after_l4(task.number, plan, took_place(found)),
        _ => unreachable(),
    }
}

// H1 and H2: a push is carried out.
fn lead_push(plans: &Plans, task: Task<Stage>, found: Found) -> Moved
    requires { purpose task.stage ≡ pushing_on }
    ensures { (capacity : ℕ) → result ≡ leads (seen plans.now capacity found) (took found) task.number task.op task.stage }
{
    match task.stage {
        Stage::H1 { helped, then } => after_h1(helped, then, took_place(found)),
        Stage::H2 { helped, then } => go(helped_out(plans.of(helped), then)),
        _ => unreachable(),
    }
}

// G1 to G7 and O1: a pop is carried out.
fn lead_pop(plans: &Plans, task: Task<Stage>, found: Found) -> Moved
    requires { purpose task.stage ≡ popping_on }
    ensures { (capacity : ℕ) → result ≡ leads (seen plans.now capacity found) (took found) task.number task.op task.stage }
{
    match task.stage {
        Stage::G1 { helped, then } => go_to(after_g1(helped, then, cell_in(found))),
        Stage::G2 {
            helped,
            value,
            by,
            through,
            then,
        } => {
            let seen = Cell::Frozen { value, by, through };
            go(after_g2(helped, plans.of(helped), seen, then, status_in(found)))
        }
        Stage::G3 { helped, seen, then } => {
            after_g3(task.number, helped, seen, then, took_place(found))
        }
        Stage::G4 {
            helped,
            value,
            through,
            then,
        } => { after_g4(helped, value, through, then, took_place(found)) }
        Stage::G5 { helped, then } | Stage::G5w { helped, then, .. } => {
            let plan = plans.of(helped);
            go(after_g5(task.stage, helped, plan, then, status_in(found)))
        }
        Stage::G6 {
            helped,
            popped,
            then,
            ..
        } => after_g6(helped, popped, then),
        Stage::G7 { helped, then, .. } => go(helped_out(plans.of(helped), then)),
        Stage::O1 => go(Next::End(Answer::Value(held_by(status_in(found))))),
        _ => unreachable(),
    }
}

// R1 to R3: a read.
fn lead_read(task: Task<Stage>, found: Found) -> Moved
    requires { purpose task.stage ≡ reading }
    ensures { (plans : Planned) (capacity : ℕ) → result ≡ leads (seen plans capacity found) (took found) task.number task.op task.stage }
{
    match task.stage {
        Stage::R1 { index } => after_r1(task.number, index, cell_in(found)),
        Stage::R2 {
            index,
            value,
            by,
            through,
        } => { after_r2(task.number, index, value, by, through, status_in(found)) }
        Stage::R3 {
            index,
            value,
            by,
            through,
        } => {
            let seen = Cell::Frozen { value, by, through };
            after_r3(task.number, index, seen, cell_in(found))
        }
        _ => unreachable(),
    }
}

// W1 to W3: a write.
fn lead_write(plans: &Plans, task: Task<Stage>, found: Found) -> Moved
    requires { purpose task.stage ≡ writing }
    ensures { (capacity : ℕ) → result ≡ leads (seen plans.now capacity found) (took found) task.number task.op task.stage }
{
    match task.stage {
        Stage::W1 { index, value } => after_w1(task.number, index, value, cell_in(found)),
        Stage::W2 {
            index,
            value,
            seen,
            by,
            through,
        } => {
            let seen = Cell::Frozen {
                value: seen,
                by,
                through,
            };
            let plan = plans.of(by);
            after_w2(task.number, plan, index, value, seen, by, status_in(found))
        }
        Stage::W3 { index, value, .. } => after_w3(task.number, index, value, took_place(found)),
        _ => unreachable(),
    }
}

// Where a task's stage leads.
pub fn lead(plans: &Plans, capacity: u16, task: Task<Stage>, found: Found) -> Moved
    ensures { result ≡ leads (seen plans.now capacity found) (took found) task.number task.op task.stage }
{
    match task.stage {
        Stage::L1 | Stage::L2 { .. } | Stage::L3 { .. } | Stage::P1 { .. } | Stage::L4 { .. } => {
            lead_look(plans, capacity, task, found)
        }
        Stage::H1 { .. } | Stage::H2 { .. } => lead_push(plans, task, found),
        Stage::G1 { .. } | Stage::G2 { .. } | Stage::G3 { .. } | Stage::G4 { .. } => {
            lead_pop(plans, task, found)
        }
        Stage::G5 { .. } | Stage::G5w { .. } | Stage::G6 { .. } | Stage::G7 { .. } => {
            lead_pop(plans, task, found)
        }
        Stage::O1 => lead_pop(plans, task, found),
        Stage::R1 { .. } | Stage::R2 { .. } | Stage::R3 { .. } => lead_read(task, found),
        Stage::W1 { .. } | Stage::W2 { .. } | Stage::W3 { .. } => lead_write(plans, task, found),
    }
}
