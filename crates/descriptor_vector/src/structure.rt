// The vector: a memory, and what it keeps beside it.
ghost use Rattle.std.specs.Prelude.{◌≡◌, ◌≤◌, length};
ghost use Rattle.descriptor_vector.specs.Sound.{Sound};

use crate::table::Table;
use memory::Memory;

#[derive(Drop)]
pub struct DescriptorVector<M: Memory> {
    pub(crate) memory: M,
    pub(crate) table: Table,
    ghost few: { table.threads.count ≤ 8 },
    ghost eight: { length table.threads.rows ≡ 8 },
    // It holds together, somehow: the invariant names words that were once put, and a fact of a type has to hold in one way only.
    ghost sound: { ∥ Sound table (M.words memory) ∥₁ },
}
