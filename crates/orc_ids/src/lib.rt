//! The plain values that every layer speaks of: the numbers of a session's things and its limits,
//! the flags of a symbol, what a lookup asks for and how it ends, and places, shapes and dependency
//! groups.
//!
//! Contracts see a `Bytes` and an `Items` as a list, and every other type as the record of its
//! fields. Numbers are dense and count from 0. Read `session_model` next for what they number.
#![tactic(auto)]

mod bytes;
mod flags;
mod groups;
mod ids;
mod items;
mod limits;
mod lookup;
mod place;

pub use bytes::Bytes;
pub use flags::SymFlags;
pub use groups::{Group, Groups, InstList};
pub use ids::{DylibId, GenId, InstId, NameId, QueryId, SeatNo, TrackId, UnitId, UnitName};
pub use items::Items;
pub use limits::{
    CODE_END, CODE_START, DYLIB_LIMIT, ENTRY_LIMIT, GENERATOR_LIMIT, INSTANCE_LIMIT, ORDER_LIMIT,
    TRACKER_LIMIT, UNIT_LIMIT, WANTED_LIMIT,
};
pub use lookup::{End, Level, OrderItem, Outcome, Scope, Stop, Wanted};
pub use place::{Place, Shape};
