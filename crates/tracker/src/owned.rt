use orc_ids::{DylibId, GenId, UnitId};
use std::collections::LinkedList;

/// What a tracker owns, in the order in which it came to it.
#[derive(Drop)]
pub struct Owned {
    pub dylib: DylibId,
    pub units: LinkedList<UnitId>,
    pub generators: LinkedList<GenId>,
}
