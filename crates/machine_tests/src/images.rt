//! Images after what was deposited and freed since the one before.
use crate::play::{Step, play};
use code_memory::Space;
use orc_ids::Shape;

/// Three such ranges lie at 0x1000_0000, 0x1000_0010 and 0x1000_0020.
const SMALL: Shape = Shape {
    need: 16,
    align: 16,
};

// What units deposit.
const SEVENS: [u8; 16] = [7; 16];

const EIGHTS: [u8; 16] = [8; 16];

const NINES: [u8; 16] = [9; 16];

// The session's space is handed from thread to thread, and an image is read in any.
fn is_shared<T: Send + Sync>(_value: &T) {}

#[test]
fn spaces_and_images_cross_threads(rt: HostRuntime) {
    let mut space = Space::new(rt.alloc());
    is_shared(&space);
    is_shared(&space.image());
}

#[test]
fn a_deposit_above_is_added(rt: HostRuntime) {
    let steps = [
        Step::Place(0, SMALL, 0x1000_0000),
        Step::Place(1, SMALL, 0x1000_0010),
        Step::Deposit(0, &SEVENS),
        Step::Shows(&[(0x1000_0000, &SEVENS)]),
        Step::Deposit(1, &EIGHTS),
        Step::Shows(&[(0x1000_0000, &SEVENS), (0x1000_0010, &EIGHTS)]),
    ];
    assert_eq!(rt; play(rt.alloc(), &steps), None);
}

#[test]
fn a_deposit_below_comes_first(rt: HostRuntime) {
    let steps = [
        Step::Place(0, SMALL, 0x1000_0000),
        Step::Place(1, SMALL, 0x1000_0010),
        Step::Deposit(1, &EIGHTS),
        Step::Shows(&[(0x1000_0010, &EIGHTS)]),
        Step::Deposit(0, &SEVENS),
        Step::Shows(&[(0x1000_0000, &SEVENS), (0x1000_0010, &EIGHTS)]),
    ];
    assert_eq!(rt; play(rt.alloc(), &steps), None);
}

#[test]
fn what_was_freed_is_left_out(rt: HostRuntime) {
    let steps = [
        Step::Place(0, SMALL, 0x1000_0000),
        Step::Place(1, SMALL, 0x1000_0010),
        Step::Place(2, SMALL, 0x1000_0020),
        Step::Deposit(0, &SEVENS),
        Step::Deposit(1, &EIGHTS),
        Step::Deposit(2, &NINES),
        Step::Shows(&[
            (0x1000_0000, &SEVENS),
            (0x1000_0010, &EIGHTS),
            (0x1000_0020, &NINES),
        ]),
        Step::Free(1),
        Step::Hold,
        Step::Held(0, &[(0x1000_0000, &SEVENS), (0x1000_0020, &NINES)]),
        Step::Free(2),
        Step::Shows(&[(0x1000_0000, &SEVENS)]),
    ];
    assert_eq!(rt; play(rt.alloc(), &steps), None);
}

#[test]
fn an_image_that_is_held_stays(rt: HostRuntime) {
    let steps = [
        Step::Place(0, SMALL, 0x1000_0000),
        Step::Place(1, SMALL, 0x1000_0010),
        Step::Deposit(0, &SEVENS),
        Step::Hold,
        Step::Hold,
        Step::Deposit(1, &EIGHTS),
        Step::Hold,
        Step::Free(0),
        Step::Hold,
        Step::Held(0, &[(0x1000_0000, &SEVENS)]),
        Step::Held(1, &[(0x1000_0000, &SEVENS)]),
        Step::Held(2, &[(0x1000_0000, &SEVENS), (0x1000_0010, &EIGHTS)]),
        Step::Held(3, &[(0x1000_0010, &EIGHTS)]),
    ];
    assert_eq!(rt; play(rt.alloc(), &steps), None);
}

#[test]
fn a_range_that_is_used_again_has_its_new_bytes(rt: HostRuntime) {
    let steps = [
        Step::Place(0, SMALL, 0x1000_0000),
        Step::Deposit(0, &SEVENS),
        Step::Shows(&[(0x1000_0000, &SEVENS)]),
        Step::Free(0),
        Step::Place(1, SMALL, 0x1000_0000),
        Step::Deposit(1, &EIGHTS),
        Step::Shows(&[(0x1000_0000, &EIGHTS)]),
    ];
    assert_eq!(rt; play(rt.alloc(), &steps), None);
}

#[test]
fn a_second_deposit_leaves_an_earlier_image(rt: HostRuntime) {
    let steps = [
        Step::Place(0, SMALL, 0x1000_0000),
        Step::Deposit(0, &SEVENS),
        Step::Hold,
        Step::Deposit(0, &EIGHTS),
        Step::Hold,
        Step::Held(0, &[(0x1000_0000, &SEVENS)]),
        Step::Held(1, &[(0x1000_0000, &EIGHTS)]),
    ];
    assert_eq!(rt; play(rt.alloc(), &steps), None);
}
