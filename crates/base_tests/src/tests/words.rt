//! Words from an assembler of the field, and the widths of a number.
use orc_words::{
    Field, b_immediate, fits_signed, get_le, i_immediate, j_immediate, put_le, s_immediate,
    sign_extend, u_immediate, with_b, with_i, with_j, with_s, with_u,
};

#[test]
fn reads_the_immediates_of_assembled_words(rt: HostRuntime) {
    assert_eq!(rt; i_immediate(0x8005_8593), -2048);
    assert_eq!(rt; s_immediate(0xfea1_2e23), -4);
    assert_eq!(rt; s_immediate(0x7e82_bfa3), 2047);
    assert_eq!(rt; b_immediate(0x80b5_0063), -4096);
    assert_eq!(rt; b_immediate(0x7eb5_1fe3), 4094);
    assert_eq!(rt; u_immediate(0xffff_f537), -4096);
    assert_eq!(rt; u_immediate(0x1234_5597), 0x1234_5000);
    assert_eq!(rt; j_immediate(0x8000_00ef), -1_048_576);
    assert_eq!(rt; j_immediate(0x7fff_f06f), 1_048_574);
}

#[test]
fn writes_the_immediates_of_assembled_words(rt: HostRuntime) {
    assert_eq!(rt; with_i(0x0005_8593, 0x800), 0x8005_8593);
    assert_eq!(rt; with_s(0x00a1_2023, 0xffc), 0xfea1_2e23);
    assert_eq!(rt; with_b(0x00b5_1063, 4094), 0x7eb5_1fe3);
    assert_eq!(rt; with_u(0x0000_0597, 0x12345), 0x1234_5597);
    assert_eq!(rt; with_j(0x0000_006f, 1_048_574), 0x7fff_f06f);
}

#[test]
fn parts_signs_and_numbers(rt: HostRuntime) {
    assert_eq!(rt; Field::<11, 7>::get(0x0205_8593), 11);
    assert_eq!(rt; Field::<11, 7>::put(0x0205_8593, 10), 0x0205_8513);
    assert_eq!(rt; sign_extend::<64>(u64::MAX), -1);
    assert_eq!(rt; sign_extend::<1>(3), -1);
    assert!(rt; fits_signed::<12>(-2048) && !fits_signed::<12>(2048));
    let mut bytes = [1u8, 2, 3, 4, 5, 6, 7, 8, 9];
    assert_eq!(rt; get_le(&bytes, 1, 2), 0x0302);
    put_le(&mut bytes, 1, 4, 0x1_1415_1617);
    assert_eq!(rt; bytes, [1, 0x17, 0x16, 0x15, 0x14, 6, 7, 8, 9]);
    assert_eq!(rt; get_le(&bytes, 1, 8), 0x0908_0706_1415_1617);
}
