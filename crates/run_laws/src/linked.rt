use code_memory::Image;
use orc_ids::{InstId, Stop};

/// How a program's run through its session ended.
#[derive(Drop)]
pub enum Linked {
    /// The entry has this address, and this is the memory once it was found.
    Found(u64, Image),
    /// No unit defines the entry.
    Missing,
    /// The lookup was lost by this instance.
    Failed(InstId),
    /// The definition of the unit of this number was refused.
    Refused(usize),
    /// A call of the set-up or of the lookup found no place in the journal, or wanted memory.
    Stopped(Stop),
}
