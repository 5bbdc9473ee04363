//! Seats of one turn that work beside each other, each on a thread of its own where there are threads.
//!
//! A `Duty` is what one seat does: it says what the seat may know when it begins, and what it has done at
//! its end, by what the seat knew and knows. `Crew::work` gives each duty a new seat, lets all of them work,
//! takes their seats in again, and answers the duties. What a history then says of each of them is
//! `HaveWorked` (`specs/Crew.antt`), whatever the threads did.
//!
//! Read `turn_lock` first, then `duty`.
#![tactic(auto)]

mod crew;
mod duty;
mod gathering;
mod seating;

pub use crew::Crew;
pub use duty::Duty;
