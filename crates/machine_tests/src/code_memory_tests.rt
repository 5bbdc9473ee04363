//! Places from the lowest gap on, what is deposited there, and what is used again.
use crate::play::{Step, play};
use orc_ids::Shape;

/// Three such ranges lie at 0x1000_0000, 0x1000_0010 and 0x1000_0020.
const SMALL: Shape = Shape {
    need: 16,
    align: 16,
};

/// As many bytes, at the start of a page.
const PAGE: Shape = Shape {
    need: 16,
    align: 4_096,
};

const ONE: Shape = Shape { need: 1, align: 1 };

#[test]
fn places_deposits_and_frees(rt: HostRuntime) {
    let code = Shape {
        need: 48,
        align: 16,
    };
    let steps = [
        Step::Place(0, code, 0x1000_0000),
        Step::Place(1, PAGE, 0x1000_1000),
        Step::Deposit(1, &[7; 16]),
        Step::Hold,
        Step::Held(0, &[(0x1000_1000, &[7; 16])]),
        Step::Free(1),
        Step::Shows(&[]),
    ];
    assert_eq!(rt; play(rt.alloc(), &steps), None);
}

#[test]
fn gaps_are_used_from_the_lowest(rt: HostRuntime) {
    let large = Shape {
        need: 4_080,
        align: 16,
    };
    let steps = [
        Step::Place(0, SMALL, 0x1000_0000),
        Step::Place(1, PAGE, 0x1000_1000),
        Step::Place(2, large, 0x1000_0010),
        Step::Place(3, SMALL, 0x1000_1010),
    ];
    assert_eq!(rt; play(rt.alloc(), &steps), None);
}

#[test]
fn what_was_freed_is_used_again(rt: HostRuntime) {
    let all = Shape {
        need: 0x0400_0000,
        align: 16,
    };
    let steps = [
        Step::Place(0, all, 0x1000_0000),
        Step::NoRoom(1, ONE, 1),
        Step::Free(0),
        Step::Place(0, all, 0x1000_0000),
    ];
    assert_eq!(rt; play(rt.alloc(), &steps), None);
}

#[test]
fn memory_is_enough_for_an_image_of_nothing(rt: HostRuntime) {
    let steps = [
        Step::Shows(&[]),
        Step::Place(0, ONE, 0x1000_0000),
        Step::Shows(&[]),
        Step::Free(0),
        Step::Shows(&[]),
    ];
    assert_eq!(rt; play(rt.alloc(), &steps), None);
}
