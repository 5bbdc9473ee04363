use orc_ids::{DylibId, GenId, InstId, NameId};

/// Why a search has no matches: tried in this order.
#[derive(Clone, Copy, Drop, PartialEq, Eq)]
pub enum MatchError {
    /// This dylib of the order doesn't exist.
    NoDylib(DylibId),
    /// A name is offered by this generator, which has to be used first.
    Offer(GenId),
    /// A name matches this instance, which failed.
    InError(InstId),
    /// This required name has no match.
    Missing(NameId),
    NoMemory,
}
