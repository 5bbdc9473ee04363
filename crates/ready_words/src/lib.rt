//! Whether the names that a client looked up are ready, seen without the turn.
//!
//! A `Peeks` keeps which instance each name was last found to be. `Peeks::peek` reads the ready word of
//! that instance, by two loads that wait for nobody: the address of an instance that is ready in the
//! history that the pass has then seen, or not yet (`specs/Peeks`). `post_found` posts what a lookup at
//! Ready found, so that other passes may read it; that these instances are ready, each at its address
//! and with a post of its own, is the law `found_may_be_posted` (`specs/Found`).
//!
//! Nothing here makes an entry. That a pass sees what another has posted no contract says. Read
//! `shared_session` first.
#![tactic(auto)]

mod found;
mod laws;
mod peeks;

pub use found::post_found;
pub use laws::{found_have_posts, found_may_be_posted};
pub use peeks::{Peeks, peek_at};
