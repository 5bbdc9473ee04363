//! A plain, slow session: the same as the definitions, by going through lists.
//!
//! `PlainSession` has the lists of the definitions as vectors, and `specs/Meant` says what they stand
//! for. Each function has its definition in `session_model` as its contract. Questions are answered by
//! `answers` (dylibs, trackers and generators), `defines`, `lookups`, `linking` (with `chains` for
//! aliases), `placing` and `calls`. `decide` says what a reply changes, as a `Change` with all that was
//! decided for it; `apply` does the change and decides nothing; `enter` is one whole entry. Readiness
//! and chains are found for all instances at once, by marks that spread one step at a time (`reach`).
//! Nothing is indexed, and most calls are at least linear in the whole session.
//!
//! Read `session_model` first, for the definitions, and `session_past` next, for what depends on the
//! entries before.
#![tactic(auto)]

mod answers;
mod applying;
mod calls;
mod chains;
mod deciding;
mod defines;
mod defining;
mod emits;
mod fails;
mod find;
mod groups;
mod jobs;
mod levels;
mod linking;
mod lodging;
mod lookups;
mod phases;
mod placing;
mod plain;
mod query;
mod reach;
mod rows;
mod settling;
mod stepping;
mod units;

pub use answers::{
    reply_attach, reply_dylib, reply_move, reply_remove, reply_set_order, reply_tracker,
    source_known,
};
pub use applying::apply;
pub use calls::{
    emit_is_next, is_finishing, place_is_next, reply_by_deps, reply_resolve, turn_away, unit_there,
};
pub use deciding::decide;
pub use defines::{reply_define, reply_generate};
pub use groups::same_groups;
pub use levels::query_met;
pub use linking::reply_link;
pub use lookups::reply_ask;
pub use phases::owned;
pub use placing::may_be_placed;
pub use plain::{PlainGenerator, PlainSession, PlainUnit};
pub use query::{lost_match, row_address};
pub use reach::unready;
pub use settling::settle;
pub use stepping::enter;
pub use units::{Step, bindings};
