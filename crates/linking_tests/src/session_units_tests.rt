//! Units, each with a table of what it is asked and what it answers.

mod rows;

use elf_read::read_object;
use link_graph::graph_of;
use orc_ids::{DylibId, InstId, NameId, Shape, UnitName, Wanted};
use orc_names::Names;
use rows::{Emit, Row, first_wrong};
use sample_objects::{HELLO, NOTHING, TWO};
use session_units::ObjectUnit;
use std::alloc::Global;
use std::test::Fail;

/// The bytes of the file with some changed.
fn changed(alloc: Global, file: &[u8], changes: &[(usize, u8)]) -> Result<Vec<u8>, Fail> {
    let mut bytes = file.to_vec(alloc)?;
    for &(at, value) in changes {
        if at < bytes.len() {
            bytes[at] = value;
        }
    }
    Ok(bytes)
}

/// The unit of an object.
fn unit_of(alloc: Global, bytes: &[u8]) -> Result<ObjectUnit, Fail> {
    let object = read_object(alloc, bytes)?;
    let mut names = Names::new(alloc);
    let graph = graph_of(alloc, &object, &mut names)?;
    Ok(ObjectUnit::of_graph(alloc, UnitName::Object(0), graph)?)
}

#[test]
fn the_unit_of_the_file(rt: HostRuntime) -> Result<(), Fail> {
    let unit = unit_of(rt.alloc(), HELLO.as_slice())?;
    let shape = Shape {
        need: 48,
        align: 16,
    };
    let rows = [
        Row::Count(1),
        Row::Exports(NameId(0)),
        Row::Shape(&[true], shape),
        Row::Address(0x1000_0000, 0x1000_0000),
        Row::Externals(&[true], &[]),
        Row::SharedName(UnitName::Object(0)),
    ];
    assert_eq!(rt; first_wrong(rt.alloc(), unit, &rows), None);
    Ok(())
}

#[test]
fn what_an_emit_of_the_file_hands_in(rt: HostRuntime) -> Result<(), Fail> {
    let unit = unit_of(rt.alloc(), HELLO.as_slice())?;
    let emit = Emit {
        live: &[true],
        bound: &[],
        own: &[InstId(3)],
    };
    let rows = [
        Row::Alone(&[true], true),
        Row::Groups(emit, &[(&[InstId(3)], &[])]),
        Row::Bytes(emit, 48, 8, &[0x93, 0x85, 0x05, 0x02]),
        Row::Bytes(emit, 48, 36, b"hello\n"),
    ];
    assert_eq!(rt; first_wrong(rt.alloc(), unit, &rows), None);
    Ok(())
}

/// A call of `main`, which is left to others.
#[test]
fn a_call_of_another_unit(rt: HostRuntime) -> Result<(), Fail> {
    let changes = [(120, 18), (124, 3), (144, 51), (238, 0)];
    let unit = unit_of(
        rt.alloc(),
        &changed(rt.alloc(), HELLO.as_slice(), &changes)?,
    )?;
    let shape = Shape {
        need: 80,
        align: 16,
    };
    let wanted = Wanted {
        name: NameId(0),
        weak: false,
    };
    let rows = [
        Row::Count(0),
        Row::Shape(&[], shape),
        Row::Externals(&[], &[wanted]),
        Row::Alone(&[], false),
    ];
    assert_eq!(rt; first_wrong(rt.alloc(), unit, &rows), None);
    Ok(())
}

/// Each block has its own group: `t` depends on nothing, since `m` alone calls `f`.
#[test]
fn groups_of_two_blocks(rt: HostRuntime) -> Result<(), Fail> {
    let unit = unit_of(rt.alloc(), TWO.as_slice())?;
    let emit = Emit {
        live: &[true, true],
        bound: &[Some((InstId(2), 0x1000_0040))],
        own: &[InstId(0), InstId(1)],
    };
    let rows = [Row::Groups(emit, &[(&[InstId(0)], &[InstId(2)]), (&[InstId(1)], &[])])];
    assert_eq!(rt; first_wrong(rt.alloc(), unit, &rows), None);
    Ok(())
}

/// The unit of an alias.
fn alias() -> ObjectUnit {
    ObjectUnit::of_alias(UnitName::Alias(0), NameId(5), DylibId(1), NameId(6))
}

/// An alias has one group, its instance and the one that its target is bound to, and no bytes.
#[test]
fn an_alias(rt: HostRuntime) {
    let emit = Emit {
        live: &[true],
        bound: &[Some((InstId(0), 0x1000_0010))],
        own: &[InstId(1)],
    };
    let rows = [
        Row::Source(Some(DylibId(1))),
        Row::Address(0x1000_0010, 0x1000_0010),
        Row::Groups(emit, &[(&[InstId(1)], &[InstId(0)])]),
        Row::Bytes(emit, 0, 0, &[]),
    ];
    assert_eq!(rt; first_wrong(rt.alloc(), alias(), &rows), None);
}

/// What the emit of absolute symbols is given of which these are live.
fn absolutes<'a>(live: &'a [bool], own: &'a [InstId]) -> Emit<'a> {
    Emit {
        live,
        bound: &[],
        own,
    }
}

/// An emit of absolute symbols hands in no bytes, and one group of the names that are live, if there is one,
/// which depends on nothing.
#[test]
fn memory_is_enough_for_no_absolute_symbol(rt: HostRuntime) -> Result<(), Fail> {
    let none = ObjectUnit::of_absolutes(rt.alloc(), UnitName::Absolute(0), &[])?;
    let emit = absolutes(&[], &[]);
    let rows = [
        Row::Groups(emit, &[]),
        Row::Bytes(emit, 0, 0, &[]),
        Row::Alone(&[], true),
    ];
    assert_eq!(rt; first_wrong(rt.alloc(), none, &rows), None);
    Ok(())
}

#[test]
fn memory_is_enough_for_one_absolute_symbol(rt: HostRuntime) -> Result<(), Fail> {
    let list = [(NameId(5), 64)];
    let one = ObjectUnit::of_absolutes(rt.alloc(), UnitName::Absolute(0), &list)?;
    let dead = absolutes(&[false], &[]);
    let live = absolutes(&[true], &[InstId(3)]);
    let rows = [
        Row::SharedCount(1),
        Row::Groups(dead, &[]),
        Row::Bytes(dead, 0, 0, &[]),
        Row::Alone(&[false], true),
        Row::Groups(live, &[(&[InstId(3)], &[])]),
        Row::Bytes(live, 0, 0, &[]),
        Row::Alone(&[true], true),
    ];
    assert_eq!(rt; first_wrong(rt.alloc(), one, &rows), None);
    Ok(())
}

#[test]
fn memory_is_enough_for_two_absolute_symbols(rt: HostRuntime) -> Result<(), Fail> {
    let list = [(NameId(5), 64), (NameId(6), 0)];
    let two = ObjectUnit::of_absolutes(rt.alloc(), UnitName::Absolute(0), &list)?;
    let second = absolutes(&[false, true], &[InstId(4)]);
    let both = absolutes(&[true, true], &[InstId(3), InstId(4)]);
    let rows = [
        Row::SharedCount(2),
        Row::Groups(second, &[(&[InstId(4)], &[])]),
        Row::Bytes(second, 0, 0, &[]),
        Row::Alone(&[false, true], true),
        Row::Groups(both, &[(&[InstId(3), InstId(4)], &[])]),
        Row::Bytes(both, 0, 0, &[]),
        Row::Alone(&[true, true], true),
    ];
    assert_eq!(rt; first_wrong(rt.alloc(), two, &rows), None);
    Ok(())
}

/// A unit's range has sixteen bytes at least.
#[test]
fn memory_is_enough_for_the_unit_of_nothing(rt: HostRuntime) -> Result<(), Fail> {
    let unit = unit_of(rt.alloc(), NOTHING.as_slice())?;
    let emit = Emit {
        live: &[],
        bound: &[],
        own: &[],
    };
    let rows = [
        Row::SharedCount(0),
        Row::Alone(&[], true),
        Row::Groups(emit, &[]),
        Row::Bytes(emit, 16, 0, &[0; 16]),
    ];
    assert_eq!(rt; first_wrong(rt.alloc(), unit, &rows), None);
    Ok(())
}

/// The image is made, and the groups, whichever of the names are live.
#[test]
fn memory_is_enough_for_each_choice_of_names(rt: HostRuntime) -> Result<(), Fail> {
    let unit = unit_of(rt.alloc(), TWO.as_slice())?;
    let emit = Emit {
        live: &[true, false],
        bound: &[Some((InstId(2), 0x1000_0040))],
        own: &[InstId(0)],
    };
    let rows = [Row::Emits(emit), Row::Alone(&[true, false], false)];
    assert_eq!(rt; first_wrong(rt.alloc(), unit, &rows), None);
    Ok(())
}

/// An alias depends on nothing where its target is bound to nothing.
#[test]
fn memory_is_enough_for_an_alias(rt: HostRuntime) {
    let emit = Emit {
        live: &[true],
        bound: &[None],
        own: &[InstId(1)],
    };
    let rows = [
        Row::SharedCount(1),
        Row::Alone(&[true], false),
        Row::Groups(emit, &[(&[InstId(1)], &[])]),
        Row::Bytes(emit, 0, 0, &[]),
    ];
    assert_eq!(rt; first_wrong(rt.alloc(), alias(), &rows), None);
}
