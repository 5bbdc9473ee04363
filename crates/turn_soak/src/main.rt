//! Many seats take many turns round one roll, and the roll has every turn of every seat once.
//!
//! With no argument it runs 16 seats of 250,000 turns each and says what the roll has. With the
//! argument `measure` it prints how many turns a second 1, 4 and 16 threads take, beside a mutex of
//! std that does the same work, and how many words a second 1 and 4 threads read without the turn. Contracts say what one turn and one seat's turns add to the history:
//! see `turns`. That a sleeper wakes no contract says: a run that ends shows it. Read `turn_lock` first.
#![tactic(auto)]

mod measure;
mod roll;
mod soak;
#[cfg(test)]
mod tests;
mod turns;
mod words;

use anyhow::Result;
use std::env;

/// The seats of the soak.
const SEATS: u32 = 16;

/// The turns of each seat of the soak.
const TURNS: u32 = 250_000;

fn main(rt: HostRuntime) -> Result<()> {
    if env::args(&rt)?.count() > 1 {
        return measure::print_rates(&rt, rt.alloc());
    }
    let roll = soak::run(&rt, rt.alloc(), SEATS, TURNS)?;
    let complete = (0..SEATS).filter(|seat| roll.has_all(*seat, TURNS)).count();
    println!(rt; "{complete} seats of {SEATS} have each of their {TURNS} turns once")?;
    println!(rt; "{} turns in all", roll.len())?;
    Ok(())
}
