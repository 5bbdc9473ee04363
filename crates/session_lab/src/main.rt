//! A laboratory for sessions: random lists of calls, each answer of which is judged by the definitions.
//!
//! `session_lab SEED COUNT` makes COUNT lists of calls of three seats, in journals of 0 to 120 places, with
//! few dylibs, names, units and generators, so that they meet (`choosing`, `units`), on sessions each answer of
//! which is judged by the definitions (`session_shadow`). It prints how often each event got each answer, and
//! in how many lists one differed.
#![tactic(auto)]

mod choosing;
mod counts;
mod lists;
mod random;
mod units;

use crate::counts::Counts;
use crate::random::Random;
use std::{env, io};

fn main(rt: HostRuntime) -> io::Result<()> {
    let mut words = env::args(&rt)?;
    let _program = words.next();
    let (Some(seed), Some(count)) = (words.next(), words.next()) else {
        return Ok(());
    };
    let (Ok(seed), Ok(count)) = (seed.as_str().parse::<u32>(), count.as_str().parse::<u32>()) else {
        return Ok(());
    };
    let mut random = Random::new(seed);
    let mut counts = Counts::new();
    for _ in 0..count {
        lists::play_one(rt.alloc(), &mut random, &mut counts)?;
    }
    counts.print(&rt)
}
