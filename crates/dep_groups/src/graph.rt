use crate::nodes::Nodes;
use crate::slot::Slot;

/// One mention of an instance among the dependencies of a group, and the mention before it.
#[derive(Drop)]
pub(crate) struct Edge {
    pub(crate) group: u32,
    pub(crate) next: Slot,
}

/// What was emitted so far: the group of each instance, the groups, and who depends on an instance;
/// and which instances are ready.
#[derive(Drop)]
pub(crate) struct Graph {
    pub(crate) homes: Vec<Slot>,
    pub(crate) nodes: Nodes,
    pub(crate) firsts: Vec<Slot>,
    pub(crate) edges: Vec<Edge>,
    pub(crate) ready: Vec<bool>,
}
