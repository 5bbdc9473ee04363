ghost use Rattle.std.specs.Prelude.{◌≡◌, ◌<◌, All, None, length, IfOk};
ghost use Rattle.elf_write.specs.Canonical.{Canonical};
ghost use Rattle.rv_asm.specs.Branches.{first_far_from};
ghost use Rattle.rv_asm.specs.Objects as want;
ghost use Rattle.rv_asm.specs.Symbols.{order};
ghost use Rattle.rv_asm.specs.Typed.{Typed};

use crate::error::AsmError;
use crate::far::first_far;
use crate::order::SymbolOrder;
use crate::sections::sections_of;
use crate::symbols::symbol_table;
use asm_lines::AsmWhy;
use asm_text::{Assembler, BadLine, Reading, read_text};
use elf_read::ElfObject;
use std::alloc::{AllocError, Global};

/// The first line that is refused, once all labels are known that there are.
#[tactic(auto, unfolding(crate::specs::Objects::bad_line))]
fn bad_line(reading: &Reading) -> Option<BadLine>
    ensures { result ≡ want.bad_line (reading.now.known, reading.now.bad) }
{
    let far = first_far(&reading.known.symbols, reading.known.sections.made());
    match far {
        None => reading.bad,
        Some(line) => Some(BadLine {
            line,
            why: AsmWhy::Number,
        }),
    }
}

/// The object of what all lines said.
fn object_of(alloc: Global, known: &Assembler) -> Result<ElfObject, AllocError>
    requires { first_far_from known.now.symbols 0 known.now.sections.made ≡ None }
    ensures exact { IfOk result (λ o. want.IsObject known.now o) }
    ensures typed { IfOk result (λ o. All (Typed (length o.symbols)) o.sections) }
    ensures inside { IfOk result (λ o. All (λ n. n < length known.now.symbols.names) (order known.now.symbols)) }
{
    let order = SymbolOrder::new(alloc, &known.symbols)?;
    Ok(ElfObject {
        sections: sections_of(alloc, known, &order)?,
        symbols: symbol_table(alloc, &known.symbols, &order)?,
    })
}

/// The object that a text is, or its first bad line. Time and memory are linear in the text.
pub fn assemble(alloc: Global, text: &[u8]) -> Result<ElfObject, AsmError>
    ensures exact { want.Assembles text.now result }
    ensures canonical { IfOk result (λ o. Canonical o) }
{
    let reading = read_text(alloc, text)?;
    if let Some(bad) = bad_line(&reading) {
        return Err(AsmError::BadLine(bad.line, bad.why));
    }
    Ok(object_of(alloc, &reading.known)?)
}
