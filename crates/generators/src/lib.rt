//! The generators of a session (ORC: `DefinitionGenerator`): each is a unit whose names are offered in a
//! dylib, and that is defined once a lookup asks for one of them; it is spent then.
//!
//! Contracts see `Generators` as the list of generators by number, for how many offered names of one more
//! there is room, and for how many more there is a place. `offered` tells the first unspent one that offers
//! a visible definition of a name (`first_offer`), by two looks at hash tables: those that offer a name in a
//! dylib stand in line, in the order of their numbers, and the spent ones have left its head. A unit's names
//! join and leave their lines as it is attached and spent; nothing goes over all generators, and only `room`
//! takes memory. There are two lines for each name, one of all definitions and one of the exported ones.
//!
//! Whose trackers the generators are isn't known here: `AreRowsOf` says that they are a session's but for
//! that, and a law that they offer what the session's do. Read `link_order` next, which asks for it.
#![tactic(auto)]

mod generator;
mod generators;
mod laws;
mod lines;
mod offers;

pub use generator::Generator;
pub use generators::Generators;
pub use laws::offers_as_the_session;
