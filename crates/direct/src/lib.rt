// For tests only: the least container there is. An operation takes effect and ends at its first step, and no memory is used.
// It shows that the promises of a container can be met; its must-fail edits are false containers, each of which is refused.
#![tactic(auto)]

ghost use Rattle.std.specs.Prelude.{◌≡◌, ◌≤◌, [], length};
ghost use Rattle.vector.specs.Meaning.{unset};
ghost use Rattle.direct.specs.Shows.{shown};

use arrayvec::ArrayVec;
use vector::Threads;

mod container;
mod plain;

#[derive(Drop)]
pub struct Direct {
    values: ArrayVec<u32, 64>,
    // An operation has one stage, so that there is nothing to say of it.
    threads: Threads<()>,
    ghost small: { threads.capacity ≤ 64 },
    ghost few: { threads.count ≤ 8 },
    ghost eight: { length threads.rows ≡ 8 },
    // Before set-up nothing is there.
    ghost bare: { (threads.capacity ≡ 0 → (threads.count ≡ 0) × (values.items ≡ []) × (threads.given ≡ 0)) },
}

impl Direct {
    // Not yet set up.
    pub fn new() -> Direct
        ensures { (shown result.threads result.values.items).meaning ≡ unset }
    {
        Direct {
            values: ArrayVec::new(),
            threads: Threads::new(0, 0),
        }
    }
}
