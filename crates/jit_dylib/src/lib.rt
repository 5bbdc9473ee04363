//! The names of one dylib and their present rows (ORC: the symbol table of a `JITDylib`): which
//! instance each name stands for, and its flags. `define` judges the names that a unit offers by the
//! linkage rules of `session_model` (`verdict_on`): a weak or common one is discarded where there is
//! any definition, a strong one replaces a weak one that no lookup has asked for, and is a duplicate
//! of any other. All names are judged before the first is put, and a refusal leaves the table as it
//! was.
//!
//! Contracts see a `Table` as the list of its present rows, each at the number of its name, in no
//! order that they speak of: `row_at` is the present row of a name. A call costs the names that it is
//! given, and none goes over the table. `row` and `drop_rows` take no memory.
//!
//! `Dylibs` are all dylibs of a session by number, seen as a `Shelf`: each with its name and link order,
//! and the table of each. The laws say what both are to a session, and that they stay so.
//!
//! Read `link_order` next, which matches the names of a lookup over such tables.
#![tactic(auto)]

mod defined;
mod dylibs;
mod error;
mod laws;
mod rows;
mod table;
mod verdicts;

pub use defined::Defined;
pub use dylibs::Dylibs;
pub use error::DefineError;
pub use laws::{
    defines_as_the_session, defines_nothing_elsewhere, drops_as_the_session, drops_one_by_one,
    judges_as_the_session, shelf_defines, shelf_drops, shelf_judges, shelf_makes,
};
pub use table::Table;
