//! Bytes and lists, made and given back.

use orc_ids::{Bytes, InstId, InstList, Items};
use std::test::Fail;

#[test]
fn bytes_are_what_they_were_made_of(rt: HostRuntime) -> Result<(), Fail> {
    let alloc = rt.alloc();
    let main = Bytes::copy_of(alloc, b"main".as_slice())?;
    assert_eq!(rt; main.as_slice(), b"main".as_slice());
    assert_eq!(rt; main.len(), 4);
    assert!(rt; !main.is_empty());
    assert!(rt; Bytes::new(alloc).is_empty());
    assert_eq!(rt; Bytes::from_vec(main.into_vec()).len(), 4);
    Ok(())
}

#[test]
fn items_are_what_they_were_made_of(rt: HostRuntime) -> Result<(), Fail> {
    let alloc = rt.alloc();
    let none: InstList = Items::new(alloc);
    assert!(rt; none.is_empty());
    let two = Items::from_vec(vec![in alloc; InstId(4), InstId(2)]?);
    assert!(rt; two.as_slice() == [InstId(4), InstId(2)].as_slice());
    assert_eq!(rt; two.len(), 2);
    assert!(rt; two.into_vec().as_slice() == [InstId(4), InstId(2)].as_slice());
    Ok(())
}
