// The descriptor vector over any memory: one access of the memory to a step.
#![tactic(auto)]

mod calls;
mod container;
mod structure;
mod table;

pub use descriptor_steps::played_runs;
pub use structure::DescriptorVector;
