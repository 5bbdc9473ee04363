ghost use Rattle.std.specs.Prelude.{◌≡◌};
ghost use Rattle.asm_text.specs.Known.{nothing_known};

use asm_state::{SectionBook, SymbolBook};
use std::alloc::Global;
use std::marker::Model;

/// What the lines so far have said. Contracts see the record `Known`.
#[derive(Drop)]
pub struct Assembler<'a> {
    pub alloc: Global,
    pub symbols: SymbolBook<'a>,
    pub sections: SectionBook<'a>,
    pub relax: bool,
}

impl<'a> Model for Assembler<'a> {
    ghost use Rattle.asm_text.specs.Known.{Known};

    ghost Value = { Known };

    ghost view = { λ a. record { symbols = a.symbols; sections = a.sections; relax = a.relax } };
}

impl<'a> Assembler<'a> {
    /// Before the first line.
    pub fn new(alloc: Global) -> Assembler<'a>
        ensures { result ≡ nothing_known }
    {
        Assembler {
            alloc,
            symbols: SymbolBook::new(alloc),
            sections: SectionBook::new(alloc),
            relax: false,
        }
    }
}
