// The step table, played.
ghost use Rattle.descriptor_steps.specs.Played.{PlayedRuns};

// The played runs of the step table, by computation.
#[tactic(auto, unfolding(crate::specs::Shared::upd))]
pub fn played_runs()
    ensures { PlayedRuns }
{}
