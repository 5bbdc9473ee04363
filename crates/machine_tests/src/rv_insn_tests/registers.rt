//! The registers of a hart.

use rv_hart::Hart;

#[test]
fn registers(rt: HostRuntime) {
    let mut hart = Hart { pc: 0, x: [9; 32] };
    assert_eq!(rt; hart.register(0), 0);
    hart.set_register(0, 5);
    hart.set_register(31, 6);
    assert_eq!(rt; hart.register(0), 0);
    assert_eq!(rt; hart.register(31), 6);
    assert_eq!(rt; hart.register(30), 9);
}
