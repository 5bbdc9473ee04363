//! Ranges of shared bytes.

use orc_ids::Bytes;
use shared_bytes::SharedBytes;
use std::test::Fail;

#[test]
fn nothing_is_empty(rt: HostRuntime) -> Result<(), Fail> {
    let nothing = SharedBytes::empty();
    assert!(rt; nothing.is_empty());
    assert_eq!(rt; nothing.len(), 0);
    assert_eq!(rt; nothing.as_slice(), b"".as_slice());
    assert!(rt; nothing.share()?.is_empty());
    Ok(())
}

#[test]
fn ranges_outlive_what_they_are_of(rt: HostRuntime) -> Result<(), Fail> {
    let alloc = rt.alloc();
    let whole = SharedBytes::from_bytes(alloc, Bytes::copy_of(alloc, b"a main b".as_slice())?)?;
    let main = whole.range(2, 4)?;
    let middle = main.range(1, 2)?;
    drop(whole);
    assert_eq!(rt; main.as_slice(), b"main".as_slice());
    drop(main);
    assert_eq!(rt; middle.as_slice(), b"ai".as_slice());
    assert_eq!(rt; middle.share()?.as_slice(), b"ai".as_slice());
    Ok(())
}

#[test]
fn ranges_of_nothing_are_empty(rt: HostRuntime) -> Result<(), Fail> {
    let alloc = rt.alloc();
    assert!(rt; SharedBytes::empty().range(0, 0)?.is_empty());
    let whole = SharedBytes::copy_of(alloc, b"ab".as_slice())?;
    assert!(rt; whole.range(2, 0)?.is_empty());
    assert_eq!(rt; whole.range(0, 2)?.as_slice(), b"ab".as_slice());
    Ok(())
}
