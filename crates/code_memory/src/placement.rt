ghost use Rattle.std.specs.Prelude.{◌≡◌};

use crate::deposit::Deposit;
use orc_ids::{Shape, UnitId};
use std::alloc::{AllocError, Global};

/// The range that a unit was given. It has bytes from their deposit on.
#[derive(Drop)]
pub struct Placement {
    pub unit: UnitId,
    pub base: u64,
    pub shape: Shape,
    pub bytes: Option<Deposit>,
}

impl Placement {
    /// Whether it has bytes that nobody shares yet.
    pub(crate) fn is_owned(&self) -> bool {
        match &self.bytes {
            Some(deposit) => deposit.is_owned(),
            None => false,
        }
    }

    /// Readies its bytes to be shared, if it has any. Where memory runs out they stay owned.
    pub(crate) fn make_shared(&mut self, alloc: Global) -> Result<(), AllocError>
        ensures { self.new ≡ self.old }
    {
        match &mut self.bytes {
            Some(deposit) => deposit.make_shared(alloc),
            None => Ok(()),
        }
    }
}
