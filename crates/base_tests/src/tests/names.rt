//! Texts, and their numbers.

use orc_ids::NameId;
use orc_names::{NameError, NameHasher, Names};
use std::collections::hash_map::RandomState;
use std::test::Fail;

/// The answer is this number.
fn is_number(answer: Result<NameId, NameError>, number: u32) -> bool {
    match answer {
        Ok(name) => name == NameId(number),
        Err(_) => false,
    }
}

// A table is shared by threads once its names are interned.
fn is_shared<T: Send + Sync>(_table: &T) {}

#[test]
fn each_text_has_one_number(rt: HostRuntime) -> Result<(), Fail> {
    let alloc = rt.alloc();
    let seeded = Names::with_hasher(alloc, NameHasher::Seeded(RandomState::new(&rt)?));
    for mut names in vec![in alloc; Names::new(alloc), seeded]? {
        assert!(rt; names.is_empty());
        assert!(rt; is_number(names.intern(b"main"), 0));
        assert!(rt; is_number(names.intern(b""), 1));
        assert!(rt; is_number(names.intern(b"main"), 0));
        assert!(rt; names.find(b"main") == Some(NameId(0)));
        assert!(rt; names.find(b"mai") == None);
        assert_eq!(rt; names.len(), 2);
        assert!(rt; names.len() > 0);
        assert_eq!(rt; names.text(NameId(0)), b"main".as_slice());
        is_shared(&names);
    }
    Ok(())
}

#[test]
fn a_name_has_at_most_4096_bytes(rt: HostRuntime) -> Result<(), Fail> {
    let alloc = rt.alloc();
    let mut names = Names::new(alloc);
    let mut text = Vec::new(alloc);
    text.resize(4_096, 97)?;
    assert!(rt; is_number(names.intern(&text), 0));
    text.push(97)?;
    assert!(rt; matches!(names.intern(&text), Err(NameError::TooLong)));
    assert!(rt; names.find(&text) == None);
    Ok(())
}
