// Whether a memory is as new, for containers to ask at their set-up.
ghost use Rattle.std.specs.Prelude.{◌≡◌};
ghost use Rattle.vector.specs.Calls.{all_zero};

use memory::Memory;

// Whether every word is 0. Tried as `all` over the locations: what that says of the words did not close.
pub fn all_zero<M: Memory>(memory: &M) -> bool
    ensures { result ≡ all_zero (M.words memory.now) }
{
    for at in 0..memory.len() {
        let Ok(0) = memory.load(at) else {
            return false;
        };
    }
    true
}
