/// The flags of a symbol (ORC: `JITSymbolFlags`). A weak or common definition isn't strong.
#[derive(Clone, Copy, PartialEq, Eq)]
pub struct SymFlags {
    pub weak: bool,
    pub common: bool,
    pub exported: bool,
    pub callable: bool,
}
