//! What follows from the definitions of a session: laws that show that they are the right ones.
//!
//! Each law is the contract of a public function with an empty body, so that a crate above may
//! cite it. The statements are in `specs/`, in plain words above each; the invariant of a session
//! is `Sound`. There is no code here. The definitions are in `session_model`; read its `specs/`
//! first.
#![tactic(auto)]

mod chains;
mod failures;
mod histories;
mod holding;
mod journal;
mod keeps;
mod placements;
mod queries;
mod soundness;
mod walks;
mod work;

pub use chains::{chains_end, coming_is_tested};
pub use failures::{fail_fails_hits, only_failures_fail, remove_fails_hits};
pub use histories::{
    empty_is_legal, hello_is_legal, one_more_is_legal, prefixes_are_legal, reply_is_determined,
    state_is_unique,
};
pub use holding::{defunct_stays, gone_stays_held, held_stays};
pub use journal::{full_stays, full_stops_others, holder_can_fail, kept_within};
pub use keeps::addresses_are_kept;
pub use placements::{live_names_stay, placements_lie_apart};
pub use queries::{
    end_is_unique, end_stays, one_end_at_a_time, open_has_no_end, open_or_ended, query_was_asked,
};
pub use soundness::{emitted_reaches_no_failed, legal_is_sound, ready_stays_ready};
pub use walks::{
    closed_holds_reached, hit_is_tested, reach_is_transitive, ready_is_tested, walks_suffice,
};
pub use work::{
    finished_once, idle_has_no_open_query, none_waits_for_met, phases_rise, started_once,
    take_is_answered, work_is_owed,
};
