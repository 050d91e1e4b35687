// Why the step table of the descriptor vector is right: it is a plain vector, each of whose operations takes effect at one step.
#![tactic(auto)]

ghost use Rattle.std.specs.Prelude.{◌≡◌};
ghost use Rattle.linearization.specs.Linearization.{Linearizes};

// The theorem, over every state that the invariant holds of. Answers within how many steps a thread that is alone ends.
pub fn steps_alone() -> usize
    ensures theorem { Linearizes result }
    ensures bound { result ≡ 48 }
{
    48
}
