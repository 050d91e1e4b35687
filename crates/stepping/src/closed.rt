// A closed run: its log can be read, and no call changes it.
ghost use Rattle.std.specs.Prelude.{◌≡◌};

use crate::Record;
use items::Kind;
use vector::Container;

#[derive(Drop)]
pub struct Closed<C: Container, K: Kind> {
    pub(crate) container: C,
    pub(crate) log: Vec<Record<K::Item>>,
}

impl<C: Container, K: Kind> Closed<C, K> {
    pub fn records(&self) -> &[Record<K::Item>]
        ensures { result.now ≡ self.now.log.items }
    {
        self.log.as_slice()
    }

    pub fn container(&self) -> &C
        ensures { result.now ≡ self.now.container }
    {
        &self.container
    }
}
