use crate::{soak, words};
use std::test::Fail;

#[test]
fn sixteen_threads_take_each_of_their_turns_once(rt: HostRuntime) -> Result<(), Fail> {
    let roll = soak::run(&rt, rt.alloc(), 16, 100_000)?;
    assert!(rt; roll.len() == 1_600_000);
    for seat in 0..16 {
        assert!(rt; roll.has_all(seat, 100_000), "seat {seat}");
    }
    Ok(())
}

#[test]
fn four_threads_read_while_a_fifth_posts(rt: HostRuntime) -> Result<(), Fail> {
    let words = words::run(&rt, rt.alloc(), 4, 1_000_000, 1_000)?;
    assert_eq!(rt; words.standing, 1_000);
    Ok(())
}
