ghost use Rattle.std.specs.Prelude.{◌≡◌, ◌+◌, All, length, IfOk};
ghost use Rattle.elf_write.specs.Canonical.{HoldsReloc};
ghost use Rattle.rv_asm.specs.Sections as want;

use crate::filling::is_filled;
use crate::order::SymbolOrder;
use asm_state::{Patch, SymbolBook};
use elf_read::{Reloc, Relocs};
use std::alloc::{AllocError, Global};

fn reloc_of(order: &SymbolOrder, patch: Patch) -> Reloc
    ensures exact { result ≡ want.reloc_of order.now patch }
    ensures holds { HoldsReloc (1 + length order.now) result }
{
    Reloc {
        at: patch.at,
        kind: patch.kind,
        symbol: order.entry(patch.symbol),
        addend: patch.addend,
    }
}

/// The relocations of a section, but for those of branches that are filled in.
#[tactic(auto, unfolding(crate::specs::Sections::relocs_of))]
pub(crate) fn relocs_of(
    alloc: Global,
    symbols: &SymbolBook,
    order: &SymbolOrder,
    section: u32,
    patches: &[Patch],
) -> Result<Relocs, AllocError>
    ensures exact { IfOk result (λ relocs. relocs ≡ want.relocs_of symbols.now order.now section patches.now) }
    ensures holds { IfOk result (λ relocs. All (HoldsReloc (1 + length order.now)) relocs) }
{
    let mut items = Vec::new(alloc);
    for patch in patches {
        if !is_filled(symbols, section, patch) {
            items.push(reloc_of(order, *patch))?;
        }
    }
    Ok(Relocs::from_vec(items))
}
