//! Words that the assembler and the linkers of the field make of these values.

use reloc_table::{OutOfRange, find, patch, value};

/// The write is refused, since a relocation of this kind doesn't take this value.
fn is_refused(written: Result<(), OutOfRange>, kind: u32, v: i64) -> bool {
    match written {
        Ok(()) => false,
        Err(refused) => refused.kind == kind && refused.v == v,
    }
}

#[test]
#[tactic(auto, unfolding(link_model::specs::Kinds::row_of))]
fn jumps_and_their_reach(rt: HostRuntime) {
    let mut word = 0x0000_006f_u32.to_le_bytes();
    assert!(rt; patch(17, &mut word, 0xf_fffc).is_ok());
    assert_eq!(rt; u32::from_le_bytes(word), 0x7fdf_f06f);
    let mut word = 0x0000_006f_u32.to_le_bytes();
    assert!(rt; is_refused(patch(17, &mut word, 0x10_0000), 17, 0x10_0000));
    assert_eq!(rt; u32::from_le_bytes(word), 0x0000_006f);
}

#[test]
#[tactic(auto, unfolding(link_model::specs::Kinds::row_of))]
fn upper_and_lower_parts(rt: HostRuntime) {
    let mut word = 0x0000_0537_u32.to_le_bytes();
    assert!(rt; patch(26, &mut word, 0x7fff_f7ff).is_ok());
    assert_eq!(rt; u32::from_le_bytes(word), 0x7fff_f537);
    assert!(rt; is_refused(patch(26, &mut word, 0x7fff_f800), 26, 2_147_481_600));
    let mut word = 0x0000_0537_u32.to_le_bytes();
    assert!(rt; patch(26, &mut word, 0x1234_5800).is_ok());
    assert_eq!(rt; u32::from_le_bytes(word), 0x1234_6537);
    let mut word = 0x0005_0513_u32.to_le_bytes();
    assert!(rt; patch(27, &mut word, 0x1234_5800).is_ok());
    assert_eq!(rt; u32::from_le_bytes(word), 0x8005_0513);
}

#[test]
#[tactic(auto, unfolding(link_model::specs::Kinds::row_of))]
fn differences_of_labels(rt: HostRuntime) {
    let mut word = [0u8; 4];
    assert!(rt; patch(35, &mut word, 0x1000_0124).is_ok());
    assert!(rt; patch(39, &mut word, 0x1000_011c).is_ok());
    assert_eq!(rt; word, [8, 0, 0, 0]);
    let mut byte = [0x40u8];
    assert!(rt; patch(53, &mut byte, 0x1000_0124).is_ok());
    assert_eq!(rt; byte, [0x64]);
    assert!(rt; patch(52, &mut byte, 0x1000_011c).is_ok());
    assert_eq!(rt; byte, [0x48]);
}

#[test]
#[tactic(auto, unfolding(link_model::specs::Kinds::row_of))]
fn values_wrap(rt: HostRuntime) {
    assert_eq!(rt; value(16, 0x1000_0000, 8, 0x1000_0010), -8);
    assert_eq!(rt; value(2, u64::MAX, 2, 5), 1);
    assert_eq!(rt; value(24, 7, 7, 7), 0);
    assert!(rt; find(60).is_none() && find(59).is_some());
}
