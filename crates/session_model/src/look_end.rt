use crate::Matches;
use orc_ids::{DylibId, InstId, NameId};

/// How a lookup ended.
#[derive(Drop)]
pub enum LookEnd {
    /// All names have come to the level: for each its instance and address, or none for one that is
    /// weakly referenced and has no match.
    Found(Matches),
    /// This instance failed or was removed first.
    Failed(InstId),
    /// This one had failed before.
    InError(InstId),
    /// There is no match for this name.
    Missing(NameId),
    /// The order names this dylib, which doesn't exist.
    NoDylib(DylibId),
    /// A call found no place in the journal, which had so many entries.
    JournalFull(u64),
    /// A call wanted memory.
    NoMemory,
}
