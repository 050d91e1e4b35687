// The step table of the descriptor vector: what each stage asks of the memory, and where what it finds leads.
#![tactic(auto)]

mod asks;
mod found;
mod leads;
mod looks;
mod moves;
mod plans;
mod played;
mod rows;
mod stage;
mod swaps;

pub use asks::access_at;
pub use leads::lead;
pub use played::played_runs;
pub use stage::{Moved, Next, Plan, Plans, Stage, Then};
