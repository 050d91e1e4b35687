// The plans of the installed operations.
ghost use Rattle.std.specs.Prelude.{◌≡◌, ◌≤◌};
ghost use Rattle.descriptor_steps.specs.Shared.{position as position_of, pushed, emptied_by, size_after};
ghost use Rattle.descriptor_steps.specs.Steps.{no_plans, plan_of, with_plan};

use crate::stage::{Plan, Plans};

impl Plan {
    pub(crate) fn position(self) -> u16
        ensures { result ≡ position_of (Some self) }
    {
        match self {
            Plan::Pushing { position, .. } | Plan::Popping { position } => position,
        }
    }

    pub(crate) fn value(self) -> u32
        ensures { result ≡ pushed (Some self) }
    {
        match self {
            Plan::Pushing { value, .. } => value,
            Plan::Popping { .. } => 0,
        }
    }

    pub(crate) fn emptied_by(self) -> u16
        ensures { result ≡ emptied_by (Some self) }
    {
        match self {
            Plan::Pushing { emptied_by, .. } => emptied_by,
            Plan::Popping { .. } => 0,
        }
    }

    // How long the vector is once the plan is carried out.
    pub(crate) fn size(self) -> usize
        ensures size { result ≡ size_after (Some self) }
        ensures small { result ≤ 65536 }
    {
        match self {
            Plan::Pushing { position, .. } => usize::from(position) + 1,
            Plan::Popping { position } => usize::from(position),
        }
    }
}

impl Plans {
    // No number has a plan.
    pub fn new() -> Plans
        ensures { result ≡ no_plans }
    {
        Plans {
            by_number: [None; 401],
        }
    }

    // The plan of a number, if it has one.
    pub fn of(&self, number: u16) -> Option<Plan>
        ensures { result ≡ plan_of self.now number }
    {
        *self.by_number.get(usize::from(number))?
    }

    // The position of a number's plan.
    pub(crate) fn position(&self, number: u16) -> u16
        ensures { result ≡ position_of (plan_of self.now number) }
    {
        self.of(number).map_or(0, Plan::position)
    }

    // The plan of a number is put down.
    pub fn put(&mut self, number: u16, plan: Plan)
        ensures { self.new ≡ with_plan self.old number plan }
    {
        let place = usize::from(number);
        if place < self.by_number.len() {
            self.by_number[place] = Some(plan);
        }
    }
}
