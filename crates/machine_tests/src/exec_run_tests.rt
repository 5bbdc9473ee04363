ghost use Rattle.std.specs.Prelude.{◌<◌, length};

use code_memory::{Image, Space};
use exec_run::{RunEnd, run};
use orc_ids::{Bytes, Shape, UnitId};
use std::alloc::{AllocError, Global};
use std::test::Fail;

/// The text of a program that writes `hello` and a newline and exits with 0, as GNU `ld` links it
/// at 0x10000000, and its string.
const HELLO: [u8; 42] = [
    0x13, 0x05, 0x10, 0x00, 0x97, 0x05, 0x00, 0x00, 0x93, 0x85, 0x05, 0x02, 0x13, 0x06, 0x60, 0x00,
    0x93, 0x08, 0x00, 0x04, 0x73, 0x00, 0x00, 0x00, 0x13, 0x05, 0x00, 0x00, 0x93, 0x08, 0xd0, 0x05,
    0x73, 0x00, 0x00, 0x00, b'h', b'e', b'l', b'l', b'o', b'\n',
];

/// Writes the instruction `li a0, 42` over `li a0, 1` and reads it back, before it comes there.
/// ```text
/// auipc t0, 0
/// lw t1, 32(t0)
/// sw t1, 20(t0)
/// lw a1, 20(t0)
/// sub a1, a1, t1
/// li a0, 1
/// add a0, a0, a1
/// ret
/// li a0, 42
/// ```
const SELF_MODIFYING: [u8; 36] = [
    0x97, 0x02, 0x00, 0x00, 0x03, 0xa3, 0x02, 0x02, 0x23, 0xaa, 0x62, 0x00, 0x83, 0xa5, 0x42, 0x01,
    0xb3, 0x85, 0x65, 0x40, 0x13, 0x05, 0x10, 0x00, 0x33, 0x05, 0xb5, 0x00, 0x67, 0x80, 0x00, 0x00,
    0x13, 0x05, 0xa0, 0x02,
];

/// Adds up what three instructions in a row make, and stores over the upper half of the first, the
/// second and the lower half of the third, so that it makes another number the second time.
/// ```text
/// auipc t0, 0
/// li t2, 2
/// ld t1, 48(t0)
/// 1:  li a0, 1
/// addi a0, a0, 2
/// addi a0, a0, 4
/// add a1, a1, a0
/// sd t1, 14(t0)
/// addi t2, t2, -1
/// bnez t2, 1b
/// mv a0, a1
/// ret
/// .dword 0x0513020505130100
/// ```
const WRITING_OVER_WHAT_RAN: [u8; 56] = [
    0x97, 0x02, 0x00, 0x00, 0x93, 0x03, 0x20, 0x00, 0x03, 0xb3, 0x02, 0x03, 0x13, 0x05, 0x10, 0x00,
    0x13, 0x05, 0x25, 0x00, 0x13, 0x05, 0x45, 0x00, 0xb3, 0x85, 0xa5, 0x00, 0x23, 0xb7, 0x62, 0x00,
    0x93, 0x83, 0xf3, 0xff, 0xe3, 0x94, 0x03, 0xfe, 0x13, 0x85, 0x05, 0x00, 0x67, 0x80, 0x00, 0x00,
    0x00, 0x01, 0x13, 0x05, 0x05, 0x02, 0x13, 0x05,
];

/// Copies `addi a0, a0, 5` and `ret` to the stack and calls them, and then `addi a0, a0, 7`.
/// ```text
/// auipc t0, 0
/// mv t4, ra
/// ld t1, 48(t0)
/// ld t2, 56(t0)
/// addi t3, sp, -16
/// sd t1, 0(t3)
/// jalr t3
/// sd t2, 0(t3)
/// jalr t3
/// jr t4
/// nop
/// nop
/// addi a0, a0, 5
/// ret
/// addi a0, a0, 7
/// ret
/// ```
const ON_THE_STACK: [u8; 64] = [
    0x97, 0x02, 0x00, 0x00, 0x93, 0x8e, 0x00, 0x00, 0x03, 0xb3, 0x02, 0x03, 0x83, 0xb3, 0x82, 0x03,
    0x13, 0x0e, 0x01, 0xff, 0x23, 0x30, 0x6e, 0x00, 0xe7, 0x00, 0x0e, 0x00, 0x23, 0x30, 0x7e, 0x00,
    0xe7, 0x00, 0x0e, 0x00, 0x67, 0x80, 0x0e, 0x00, 0x13, 0x00, 0x00, 0x00, 0x13, 0x00, 0x00, 0x00,
    0x13, 0x05, 0x55, 0x00, 0x67, 0x80, 0x00, 0x00, 0x13, 0x05, 0x75, 0x00, 0x67, 0x80, 0x00, 0x00,
];

/// Answers the word at its end, and writes another over it.
/// ```text
/// auipc t0, 0
/// lw a0, 16(t0)
/// sw ra, 16(t0)
/// ret
/// .word 77
/// ```
const OVERWRITING: [u8; 20] = [
    0x97, 0x02, 0x00, 0x00, 0x03, 0xa5, 0x02, 0x01, 0x23, 0xa8, 0x12, 0x00, 0x67, 0x80, 0x00, 0x00,
    0x4d, 0x00, 0x00, 0x00,
];

/// Writes a byte to the range that begins at its end, then stores over the boundary, and adds up
/// what it reads back and the byte after the one that it wrote.
/// ```text
/// auipc t0, 0
/// addi t0, t0, 48
/// sb a0, 4(t0)
/// sd a1, -4(t0)
/// ld a2, -4(t0)
/// sub a2, a2, a1
/// lbu a3, 4(t0)
/// lbu a4, 5(t0)
/// add a0, a2, a3
/// add a0, a0, a4
/// ret
/// .word 0
/// ```
const ACROSS: [u8; 48] = [
    0x97, 0x02, 0x00, 0x00, 0x93, 0x82, 0x02, 0x03, 0x23, 0x82, 0xa2, 0x00, 0x23, 0xbe, 0xb2, 0xfe,
    0x03, 0xb6, 0xc2, 0xff, 0x33, 0x06, 0xb6, 0x40, 0x83, 0xc6, 0x42, 0x00, 0x03, 0xc7, 0x52, 0x00,
    0x33, 0x05, 0xd6, 0x00, 0x33, 0x05, 0xe5, 0x00, 0x67, 0x80, 0x00, 0x00, 0x00, 0x00, 0x00, 0x00,
];

/// Stores at the top of the stack and half a MiB below it, and adds up what it reads back, and what
/// stands beside the deep store.
/// ```text
/// sd a0, -8(sp)
/// lui t0, 0xfff80
/// add t0, t0, sp
/// sd a1, 0(t0)
/// ld a2, -8(sp)
/// ld a3, 0(t0)
/// ld a4, 8(t0)
/// ld a5, -8(t0)
/// add a0, a2, a3
/// add a0, a0, a4
/// add a0, a0, a5
/// ret
/// ```
const DEEP: [u8; 48] = [
    0x23, 0x3c, 0xa1, 0xfe, 0xb7, 0x02, 0xf8, 0xff, 0xb3, 0x82, 0x22, 0x00, 0x23, 0xb0, 0xb2, 0x00,
    0x03, 0x36, 0x81, 0xff, 0x83, 0xb6, 0x02, 0x00, 0x03, 0xb7, 0x82, 0x00, 0x83, 0xb7, 0x82, 0xff,
    0x33, 0x05, 0xd6, 0x00, 0x33, 0x05, 0xe5, 0x00, 0x33, 0x05, 0xf5, 0x00, 0x67, 0x80, 0x00, 0x00,
];

/// Adds up the lowest bytes of the stack and some at its top, none of which was written, and reads
/// below the stack if they are zero.
/// ```text
/// lui t0, 0xfff00
/// add t0, t0, sp
/// ld a1, 0(t0)
/// ld a0, -16(sp)
/// add a0, a0, a1
/// bnez a0, 1f
/// ld a2, -8(t0)
/// 1:  ret
/// ```
const UNWRITTEN: [u8; 32] = [
    0xb7, 0x02, 0xf0, 0xff, 0xb3, 0x82, 0x22, 0x00, 0x83, 0xb5, 0x02, 0x00, 0x03, 0x35, 0x01, 0xff,
    0x33, 0x05, 0xb5, 0x00, 0x63, 0x14, 0x05, 0x00, 0x03, 0xb6, 0x82, 0xff, 0x67, 0x80, 0x00, 0x00,
];

/// Writes `hi` from its end, and then four bytes of the stack, of which it has stored the third.
/// ```text
/// li a0, 1
/// auipc a1, 0
/// addi a1, a1, 56
/// li a2, 2
/// li a7, 64
/// ecall
/// li t1, '!'
/// lui t0, 0xfffff
/// add t0, t0, sp
/// sb t1, 0(t0)
/// li a0, 1
/// addi a1, t0, -2
/// li a2, 4
/// ecall
/// ret
/// .ascii "hi"
/// ```
const WRITING: [u8; 62] = [
    0x13, 0x05, 0x10, 0x00, 0x97, 0x05, 0x00, 0x00, 0x93, 0x85, 0x85, 0x03, 0x13, 0x06, 0x20, 0x00,
    0x93, 0x08, 0x00, 0x04, 0x73, 0x00, 0x00, 0x00, 0x13, 0x03, 0x10, 0x02, 0xb7, 0xf2, 0xff, 0xff,
    0xb3, 0x82, 0x22, 0x00, 0x23, 0x80, 0x62, 0x00, 0x13, 0x05, 0x10, 0x00, 0x93, 0x85, 0xe2, 0xff,
    0x13, 0x06, 0x40, 0x00, 0x73, 0x00, 0x00, 0x00, 0x67, 0x80, 0x00, 0x00, 0x68, 0x69,
];

/// `addi a7, zero, 93` and `ecall`: exits with the value of `a0`.
const EXIT: [u8; 8] = [0x93, 0x08, 0xd0, 0x05, 0x73, 0x00, 0x00, 0x00];

/// How a run ends.
#[derive(Clone, Copy)]
enum Ends {
    /// With this exit code.
    Exited(u64),
    /// In a trap at this address.
    Traps(u64),
    /// For want of fuel.
    OutOfFuel,
}

fn ends_so(end: RunEnd, expected: Ends) -> bool {
    match (end, expected) {
        (RunEnd::Exited(code), Ends::Exited(other)) => code == other,
        (RunEnd::Trap(pc, _), Ends::Traps(other)) => pc == other,
        (RunEnd::OutOfFuel, Ends::OutOfFuel) => true,
        _ => false,
    }
}

/// A run of an image from the first address of code memory, and what comes of it.
#[derive(Clone, Copy)]
struct Row<'a> {
    args: &'a [u64],
    fuel: u64,
    end: Ends,
    output: &'a [u8],
}

impl<'a> Row<'a> {
    /// A run of fifty instructions at most that writes nothing and exits with this code.
    fn exits(args: &'a [u64], code: u64) -> Row<'a> {
        Row {
            args,
            fuel: 50,
            end: Ends::Exited(code),
            output: b"",
        }
    }
}

/// Whether a run of the image goes as the row says.
fn goes_so(alloc: Global, image: &Image, row: Row<'_>) -> Result<bool, AllocError> {
    if row.args.len() > 8 {
        return Ok(false);
    }
    let ran = run(alloc, image, 0x1000_0000, row.args, row.fuel)?;
    Ok(ends_so(ran.end, row.end) && ran.output.as_slice() == row.output)
}

/// The number of the first row that runs of one image, one after the other, don't go by, from 0 on.
fn first_other(
    alloc: Global,
    image: &Image,
    rows: &[Row<'_>],
) -> Result<Option<usize>, AllocError> {
    for (at, row) in rows.iter().enumerate() {
        if !goes_so(alloc, image, *row)? {
            return Ok(Some(at));
        }
    }
    Ok(None)
}

/// The image of one range with this code.
fn image_of(alloc: Global, code: &[u8]) -> Result<Image, AllocError>
    requires { 0 < length code.now }
{
    let mut space = Space::new(alloc);
    let shape = Shape {
        need: code.len() as u64,
        align: 16,
    };
    if space.place(UnitId(0), shape).is_ok() {
        space.deposit(UnitId(0), Bytes::copy_of(alloc, code)?);
    }
    space.image()
}

/// The number of the first row that runs of this code don't go by; there is some code.
fn play(alloc: Global, code: &[u8], rows: &[Row<'_>]) -> Result<Option<usize>, AllocError> {
    if code.is_empty() {
        return Ok(Some(0));
    }
    let image = image_of(alloc, code)?;
    first_other(alloc, &image, rows)
}

#[test]
fn hello_is_written_with_nine_instructions(rt: HostRuntime) -> Result<(), Fail> {
    let row = Row {
        args: &[],
        fuel: 9,
        end: Ends::Exited(0),
        output: b"hello\n",
    };
    assert_eq!(rt; play(rt.alloc(), &HELLO, &[row])?, None);
    Ok(())
}

#[test]
fn hello_is_out_of_fuel_with_eight(rt: HostRuntime) -> Result<(), Fail> {
    let row = Row {
        args: &[],
        fuel: 8,
        end: Ends::OutOfFuel,
        output: b"hello\n",
    };
    assert_eq!(rt; play(rt.alloc(), &HELLO, &[row])?, None);
    Ok(())
}

/// A run of two instructions with these arguments, which exits with this code.
fn exits_in_two(args: &[u64], code: u64) -> Row<'_> {
    Row {
        args,
        fuel: 2,
        end: Ends::Exited(code),
        output: b"",
    }
}

/// A run with these arguments and too little fuel.
fn runs_dry(args: &[u64], fuel: u64) -> Row<'_> {
    Row {
        args,
        fuel,
        end: Ends::OutOfFuel,
        output: b"",
    }
}

#[test]
fn memory_is_enough_for_each_number_of_arguments(rt: HostRuntime) -> Result<(), Fail> {
    let rows = [
        exits_in_two(&[], 0),
        exits_in_two(&[7], 7),
        exits_in_two(&[7, 1], 7),
        exits_in_two(&[7, 1, 2, 3, 4, 5, 6, 8], 7),
        runs_dry(&[], 0),
        runs_dry(&[7], 1),
    ];
    assert_eq!(rt; play(rt.alloc(), &EXIT, &rows)?, None);
    Ok(())
}

/// Whether a run of the image that has no range goes as the row says.
fn goes_so_without_image(alloc: Global, row: Row<'_>) -> Result<bool, AllocError> {
    let image = Space::new(alloc).image()?;
    goes_so(alloc, &image, row)
}

#[test]
fn memory_is_enough_for_a_run_of_no_image(rt: HostRuntime) -> Result<(), Fail> {
    let row = Row {
        args: &[],
        fuel: 1,
        end: Ends::Traps(0x1000_0000),
        output: b"",
    };
    assert!(rt; goes_so_without_image(rt.alloc(), row)?);
    Ok(())
}

#[test]
fn what_is_written_to_a_range_is_read_and_fetched(rt: HostRuntime) -> Result<(), Fail> {
    let row = Row::exits(&[], 42);
    assert_eq!(rt; play(rt.alloc(), &SELF_MODIFYING, &[row])?, None);
    Ok(())
}

#[test]
fn an_instruction_that_was_done_is_written_over(rt: HostRuntime) -> Result<(), Fail> {
    let row = Row::exits(&[0, 0], 59);
    assert_eq!(rt; play(rt.alloc(), &WRITING_OVER_WHAT_RAN, &[row])?, None);
    Ok(())
}

#[test]
fn code_on_the_stack_is_written_over(rt: HostRuntime) -> Result<(), Fail> {
    let row = Row::exits(&[0], 12);
    assert_eq!(rt; play(rt.alloc(), &ON_THE_STACK, &[row])?, None);
    Ok(())
}

#[test]
fn a_second_run_sees_the_bytes_of_the_image(rt: HostRuntime) -> Result<(), Fail> {
    let rows = [Row::exits(&[], 77), Row::exits(&[], 77)];
    assert_eq!(rt; play(rt.alloc(), &OVERWRITING, &rows)?, None);
    Ok(())
}

/// A range for code of 48 bytes.
const CODE: Shape = Shape {
    need: 48,
    align: 16,
};

/// A range for sixteen bytes.
const DATA: Shape = Shape {
    need: 16,
    align: 16,
};

/// The image of this code and of sixteen times a byte right behind it, if both get these places.
fn image_of_two(alloc: Global, code: &[u8; 48], byte: u8) -> Result<Option<Image>, AllocError> {
    let code = Bytes::copy_of(alloc, code)?;
    let data = Bytes::copy_of(alloc, &[byte; 16])?;
    let mut space = Space::new(alloc);
    if !matches!(space.place(UnitId(0), CODE), Ok(0x1000_0000)) {
        return Ok(None);
    }
    if !matches!(space.place(UnitId(1), DATA), Ok(0x1000_0030)) {
        return Ok(None);
    }
    space.deposit(UnitId(0), code);
    space.deposit(UnitId(1), data);
    Ok(Some(space.image()?))
}

/// Whether a run of such an image goes as the row says.
fn goes_so_over_two(
    alloc: Global,
    code: &[u8; 48],
    byte: u8,
    row: Row<'_>,
) -> Result<bool, AllocError> {
    match image_of_two(alloc, code, byte)? {
        Some(image) => goes_so(alloc, &image, row),
        None => Ok(false),
    }
}

#[test]
fn a_store_crosses_into_a_range_that_was_written(rt: HostRuntime) -> Result<(), Fail> {
    let row = Row::exits(&[7, 0x1122_3344_5566_7788], 57);
    assert!(rt; goes_so_over_two(rt.alloc(), &ACROSS, 50, row)?);
    Ok(())
}

#[test]
fn the_stack_is_written_deep_after_its_top(rt: HostRuntime) -> Result<(), Fail> {
    let row = Row::exits(&[5, 30], 35);
    assert_eq!(rt; play(rt.alloc(), &DEEP, &[row])?, None);
    Ok(())
}

#[test]
fn the_unwritten_stack_is_zero_and_nothing_is_below_it(rt: HostRuntime) -> Result<(), Fail> {
    let row = Row {
        args: &[],
        fuel: 50,
        end: Ends::Traps(0x1000_0018),
        output: b"",
    };
    assert_eq!(rt; play(rt.alloc(), &UNWRITTEN, &[row])?, None);
    Ok(())
}

#[test]
fn bytes_of_the_image_and_of_the_stack_are_output(rt: HostRuntime) -> Result<(), Fail> {
    let row = Row {
        args: &[],
        fuel: 50,
        end: Ends::Exited(4),
        output: b"hi\0\0!\0",
    };
    assert_eq!(rt; play(rt.alloc(), &WRITING, &[row])?, None);
    Ok(())
}
