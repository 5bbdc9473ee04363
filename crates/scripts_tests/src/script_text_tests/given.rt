//! What lookups gave to names.

use orc_ids::{InstId, Level, NameId, Wanted};
use orc_names::NameHasher;
use script_model::{GivenMatch, GivenNames};
use std::test::Fail;

// A client has its table in a thread.
fn is_sent<T: Send>(_table: &T) {}

fn sought(name: u32) -> Wanted {
    Wanted {
        name: NameId(name),
        weak: true,
    }
}

#[test]
fn a_later_lookup_stands_before_an_earlier_one(rt: HostRuntime) -> Result<(), Fail> {
    let mut given = GivenNames::new(rt.alloc(), NameHasher::Fixed);
    given.add(
        Level::Ready,
        &[sought(1), sought(2)],
        &[Some((InstId(0), 4_096)), Some((InstId(1), 8_192))],
    )?;
    given.add(
        Level::Resolved,
        &[sought(2), sought(3)],
        &[None, Some((InstId(2), 12_288))],
    )?;
    assert_eq!(rt; given.address(NameId(1)), Some(4_096));
    assert_eq!(rt; given.address(NameId(2)), None);
    assert_eq!(rt; given.address(NameId(3)), Some(12_288));
    let resolved = GivenMatch {
        instance: InstId(2),
        address: 12_288,
        level: Level::Resolved,
    };
    assert!(rt; given.match_of(NameId(3)) == Some(resolved));
    is_sent(&given);
    Ok(())
}
