mod dylib_steps;
mod dylibs;
mod expected;
mod table_steps;
mod tables;

use orc_ids::{NameId, SymFlags};

const F: NameId = NameId(0);

const G: NameId = NameId(1);

const H: NameId = NameId(2);

const STRONG: SymFlags = SymFlags {
    weak: false,
    common: false,
    exported: true,
    callable: true,
};

const WEAK: SymFlags = SymFlags {
    weak: true,
    common: false,
    exported: false,
    callable: true,
};

const COMMON: SymFlags = SymFlags {
    weak: false,
    common: true,
    exported: true,
    callable: false,
};
