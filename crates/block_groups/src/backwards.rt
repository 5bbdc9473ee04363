ghost use Rattle.std.specs.Prelude.{◌≡◌, ◌<◌, ℕ, [], ◌∷◌, Contains, length, OnOk};
ghost use Rattle.block_groups.specs.Lists.{row};
ghost use Rattle.block_groups.specs.Backwards.{IsNoted, IsMore, IsSpread, IsClear, AreHandedOut};

use crate::lists::Lists;
use orc_ids::InstId;
use std::alloc::AllocError;

/// What a search backwards has come to: a flag for each block, and the blocks that are flagged, in the
/// order in which they were found.
#[derive(Drop)]
pub(crate) struct Search {
    pub(crate) seen: Vec<bool>,
    pub(crate) found: Vec<u32>,
}

/// Comes to a block, unless the search came to it before.
fn come_to(search: &mut Search, block: u32) -> Result<(), AllocError>
    requires within { block < length search.old.seen.items }
    requires noted { IsNoted search.old }
    ensures noted { OnOk result (IsNoted search.new) }
    ensures more { OnOk result (IsMore search.old (block ∷ []) search.new) }
{
    if !search.seen[block as usize] {
        search.seen[block as usize] = true;
        search.found.push(block)?;
    }
    Ok(())
}

/// Comes to some blocks.
pub(crate) fn come_to_all(search: &mut Search, blocks: &[u32]) -> Result<(), AllocError>
    requires within { (b : ℕ) → Contains blocks.now b → b < length search.old.seen.items }
    requires noted { IsNoted search.old }
    ensures noted { OnOk result (IsNoted search.new) }
    ensures more { OnOk result (IsMore search.old blocks.now search.new) }
{
    for block in blocks {
        come_to(search, *block)?;
    }
    Ok(())
}

/// Comes to all blocks that are reached over the lists from those that the search came to.
pub(crate) fn spread(search: &mut Search, lists: &Lists<u32>) -> Result<(), AllocError>
    requires whole { length lists.now ≡ length search.old.seen.items }
    requires within { (a b : ℕ) → Contains (row lists.now a) b → b < length search.old.seen.items }
    requires noted { IsNoted search.old }
    ensures noted { OnOk result (IsNoted search.new) }
    ensures spread { OnOk result (IsSpread lists.now search.old search.new) }
{
    let mut done = 0;
    while done < search.found.len() {
        let block = search.found[done] as usize;
        come_to_all(search, lists.row(block))?;
        done += 1;
    }
    Ok(())
}

/// Puts an instance at the end of the list of each block that the search came to, and forgets the search.
pub(crate) fn hand_out(
    search: &mut Search,
    lists: &mut Lists<InstId>,
    instance: InstId,
) -> Result<(), AllocError>
    requires whole { length lists.old ≡ length search.old.seen.items }
    requires noted { IsNoted search.old }
    ensures clear { OnOk result (IsClear search.new) }
    ensures whole { OnOk result (length search.new.seen.items ≡ length search.old.seen.items) }
    ensures handed { OnOk result (AreHandedOut search.old instance lists.old lists.new) }
{
    for k in 0..search.found.len() {
        let block = search.found[k] as usize;
        if search.seen[block] {
            search.seen[block] = false;
            lists.push(block, instance)?;
        }
    }
    search.found.clear();
    Ok(())
}
