use crate::ids::InstId;
use crate::items::Items;

/// Instances.
pub type InstList = Items<InstId>;

/// Instances of one unit, and the instances that all of them depend on
/// (ORC: `SymbolDependenceGroup`).
#[derive(Drop)]
pub struct Group {
    pub members: InstList,
    pub deps: InstList,
}

/// The dependence groups of a unit, in block order.
pub type Groups = Items<Group>;
