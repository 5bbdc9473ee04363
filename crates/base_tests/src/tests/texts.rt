use orc_ids::Place;
use std::alloc::{AllocError, Global};
use std::test::Fail;
use text_parts::{
    put, put_at, put_decimal, put_edge, put_hex_bytes, put_numbered, put_pair, put_placed,
};

/// An edge's place.
const PLACE: Place = Place {
    block: 2,
    offset: 10,
};

/// A part of a text.
#[derive(Clone, Copy)]
enum Part<'a> {
    Words(&'a [u8]),
    HexBytes(&'a [u8]),
    Decimal(u32),
    Numbered(&'a [u8], u64),
    /// A text and a number that may be below zero.
    Signed(&'a [u8], i64),
    Pair(&'a [u8], u32, &'a [u8], u64),
    At(&'a [u8], u64),
    Placed(&'a [u8], Place),
    Edge(&'a [u8], Place, u32, i64),
}

/// Adds a part.
fn put_part(alloc: Global, out: &mut Vec<u8>, part: Part<'_>) -> Result<(), AllocError> {
    match part {
        Part::Words(text) => put(out, text),
        Part::HexBytes(bytes) => put_hex_bytes(alloc, out, bytes),
        Part::Decimal(number) => put_decimal(out, number),
        Part::Numbered(text, number) => put_numbered(out, text, number),
        Part::Signed(text, number) => put_numbered(out, text, number),
        Part::Pair(text, number, next, second) => put_pair(out, text, number, next, second),
        Part::At(text, address) => put_at(alloc, out, text, address),
        Part::Placed(text, place) => put_placed(out, text, place),
        Part::Edge(text, place, kind, value) => put_edge(out, text, place, kind, value),
    }
}

/// The text of some parts.
fn text_of(alloc: Global, parts: &[Part<'_>]) -> Result<Vec<u8>, AllocError> {
    let mut out = Vec::new(alloc);
    for part in parts {
        put_part(alloc, &mut out, *part)?;
    }
    Ok(out)
}

#[test]
fn memory_is_enough_for_words_and_bytes(rt: HostRuntime) -> Result<(), Fail> {
    let nothing = text_of(rt.alloc(), &[Part::Words(b""), Part::HexBytes(b"")])?;
    assert!(rt; nothing.is_empty());
    let parts = [
        Part::Words(b""),
        Part::HexBytes(b""),
        Part::Words(b"a"),
        Part::Words(b" text "),
        Part::HexBytes(&[7]),
        Part::HexBytes(&[0, 255, 16]),
    ];
    let text = text_of(rt.alloc(), &parts)?;
    assert_eq!(rt; text.as_slice(), b"a text 0700ff10".as_slice());
    Ok(())
}

#[test]
fn memory_is_enough_for_numbers(rt: HostRuntime) -> Result<(), Fail> {
    let parts = [
        Part::Decimal(0),
        Part::Numbered(b" u", u64::MAX),
        Part::Signed(b"", -5),
        Part::Pair(b" ", 1, b" ", 10),
        Part::At(b" ", 0),
        Part::At(b"@", u64::MAX),
    ];
    let text = text_of(rt.alloc(), &parts)?;
    let wanted = b"0 u18446744073709551615-5 1 10 0@ffffffffffffffff";
    assert_eq!(rt; text.as_slice(), wanted.as_slice());
    Ok(())
}

#[test]
fn memory_is_enough_for_places_and_edges(rt: HostRuntime) -> Result<(), Fail> {
    let parts = [
        Part::Placed(b"at ", PLACE),
        Part::Edge(b" of ", PLACE, 17, -4),
        Part::Edge(b" ", PLACE, 0, 0),
    ];
    let text = text_of(rt.alloc(), &parts)?;
    let wanted = b"at 2 10 of 2 10 17 -4 2 10 0 0";
    assert_eq!(rt; text.as_slice(), wanted.as_slice());
    Ok(())
}
