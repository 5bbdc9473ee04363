/// Where a symbol is defined.
#[derive(Clone, Copy)]
pub enum Definition {
    Nowhere,
    /// By a label, at an offset of the section of this number.
    Label { section: u32, offset: u64 },
    /// By `.comm`.
    Common { size: u64, align: u64 },
}

/// What the text says of a symbol.
#[derive(Clone, Copy)]
pub struct Marks {
    pub definition: Definition,
    pub global: bool,
    pub weak: bool,
    pub hidden: bool,
}

/// What is said of a symbol by its mention.
pub(crate) const MENTIONED: Marks = Marks {
    definition: Definition::Nowhere,
    global: false,
    weak: false,
    hidden: false,
};
