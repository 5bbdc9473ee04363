//! The responsibility for a unit.

use orc_ids::UnitId;
use responsibility::Resp;

#[test]
fn names_its_unit_until_it_is_spent(rt: HostRuntime) {
    let first = Resp::of(UnitId(3));
    let second = Resp::of(UnitId(4));
    assert!(rt; first.unit() == UnitId(3));
    assert!(rt; second.unit() == UnitId(4));
    first.spend();
    second.spend();
}
