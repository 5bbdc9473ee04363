//! How many turns a second some threads take, and how many they take of a mutex of std.
ghost use Rattle.std.specs.Prelude.{◌<◌};

use crate::roll::{Mark, Roll};
use crate::{soak, words};
use anyhow::Result;
use std::alloc::Global;
use std::io::Print;
use std::sync::{Mutex, Wait};
use std::thread;
use std::thread::Threads;
use std::time::{Clock, Duration, Instant};

/// The turns of all threads together, at each measurement.
const TOTAL: u32 = 960_000;

/// The words that each reader reads, at each measurement.
const READS: u32 = 10_000_000;

/// The turns that are posted meanwhile.
const POSTS: u32 = 10_000;

/// Prints a line for each of three numbers of threads, and for two of readers.
pub fn print_rates<R: Threads + Wait + Sync + Clock + Print>(rt: &R, alloc: Global) -> Result<()> {
    print_rate(rt, alloc, 1)?;
    print_rate(rt, alloc, 4)?;
    print_rate(rt, alloc, 16)?;
    print_reads(rt, alloc, 1)?;
    print_reads(rt, alloc, 4)
}

/// Prints how many words a second so many threads read, while one more takes turns and posts them.
fn print_reads<R: Threads + Wait + Sync + Clock + Print>(
    rt: &R,
    alloc: Global,
    readers: u32,
) -> Result<()>
    requires { readers < 16 }
{
    let start = Instant::now(rt)?;
    let words = words::run(rt, alloc, readers, READS, POSTS)?;
    let taken = start.elapsed(rt)?;
    let reads = u128::from(readers) * u128::from(READS);
    let rate = reads * 1_000_000_000 / taken.as_nanos().max(1);
    println!(rt;
        "{readers} readers: {rate} words a second ({} there)",
        words.found
    )?;
    Ok(())
}

/// Prints the line of so many threads.
fn print_rate<R: Threads + Wait + Sync + Clock + Print>(
    rt: &R,
    alloc: Global,
    threads: u32,
) -> Result<()>
    requires { 0 < threads }
{
    let start = Instant::now(rt)?;
    soak::run(rt, alloc, threads, TOTAL / threads)?;
    let of_turn = rate(start.elapsed(rt)?);
    let start = Instant::now(rt)?;
    let noted = lock_in_turn(rt, alloc, threads)?;
    let of_mutex = rate(start.elapsed(rt)?);
    println!(rt;
        "{threads} threads: {of_turn} turns a second, a mutex {of_mutex} ({noted} noted)"
    )?;
    Ok(())
}

/// Turns a second.
fn rate(taken: Duration) -> u128 {
    u128::from(TOTAL) * 1_000_000_000 / taken.as_nanos().max(1)
}

/// The same marks, made by as many threads under a mutex.
fn lock_in_turn<R: Threads + Wait + Sync>(rt: &R, alloc: Global, threads: u32) -> Result<usize>
    requires { 0 < threads }
{
    let roll = Mutex::new(Roll::new(alloc));
    let shared = &roll;
    let mut seats = Vec::from_elem(alloc, 0u32, threads as usize)?;
    thread::for_each_mut(
        rt,
        seats.as_mut_slice(),
        threads as usize,
        &|_: usize, seat: &mut u32| {
            note_under(rt, shared, *seat, TOTAL / threads);
        },
    );
    Ok(roll.into_inner().len())
}

/// Notes so many marks, each under the lock.
fn note_under<R: Wait>(rt: &R, roll: &Mutex<Roll>, seat: u32, turns: u32) {
    for turn in 0..turns {
        let _ = roll.lock(rt).note(Mark { seat, turn });
    }
}
