//! Sessions that were worked out by hand, for `session_check`: which of them are legal, and where
//! lies about them go wrong. Read `session_check` for what they try.
#![tactic(auto)]

#[cfg(test)]
mod session_check_tests;
#[cfg(test)]
mod session_player_tests;
