//! One more than a session has: dylibs, trackers, generators, units, and bytes of memory.

use super::calls::{Call, Tried, make};
use super::play::Step::{By, Many};
use super::play::{Table, plays};
use super::units::Named;
use super::{BEGUN, DEFINED, SEAT, SETUP, WAITS};
use orc_ids::{NameId, Stop};
use session_model::Reply;
use std::alloc::Global;

/// What there can be many of.
#[derive(Clone, Copy)]
pub(super) enum Kind {
    /// Dylibs, with the names from 0.
    Dylibs,
    /// Trackers of the first dylib.
    Trackers,
    /// Generators in the first dylib, of the names from 0.
    Generators,
    /// Units of one byte in the first dylib, of the names from 0, each with its own name as its external.
    Parts,
}

/// The call that makes one of the kind.
fn nth_call(kind: Kind, k: u32) -> Call<'static> {
    let name = NameId(k);
    match kind {
        Kind::Dylibs => Call::Dylib(k),
        Kind::Trackers => Call::Tracker(0),
        Kind::Generators => Call::Attach(
            0,
            0,
            Named {
                name,
                weak: false,
                wants: None,
                more: 47,
            },
        ),
        Kind::Parts => Call::Define(
            0,
            0,
            Named {
                name,
                weak: false,
                wants: Some(name),
                more: 0,
            },
        ),
    }
}

/// One of the kind is made, which has this number.
fn is_numbered(reply: &Result<Reply, Stop>, kind: Kind, k: u32) -> bool {
    match (kind, reply) {
        (Kind::Dylibs, Ok(Reply::Made(d))) => d.0 == k,
        (Kind::Trackers, Ok(Reply::Tracker(t))) => t.0 == k,
        (Kind::Generators, Ok(Reply::Generator(g))) => g.0 == k,
        (Kind::Parts, Ok(Reply::Defined(u, _, _))) => u.0 == k,
        _ => false,
    }
}

/// Makes one of the kind, which has this number, and nothing comes back. The replies are not printed, since
/// there are so many.
fn makes_one<const JMAX: usize>(
    alloc: Global,
    session: &mut Tried<JMAX>,
    kind: Kind,
    k: u32,
) -> bool {
    match make(alloc, session, SETUP, nth_call(kind, k)) {
        Some(answer) => is_numbered(&answer.reply, kind, k) && answer.beside.is_empty(),
        None => false,
    }
}

/// So many of the kind are made, which have the numbers from 0. The number that one doesn't have is written.
pub(super) fn makes<const JMAX: usize>(
    alloc: Global,
    session: &mut Tried<JMAX>,
    kind: Kind,
    count: u32,
    text: &mut String,
) -> bool {
    for k in 0..count {
        if !makes_one(alloc, session, kind, k) {
            text.clear();
            let _written = write!(text, "no number {k}");
            return false;
        }
    }
    true
}

const DYLIBS: Table = &[
    Many(Kind::Dylibs, 64),
    By(SETUP, Call::Dylib(64), "Ok(TooMany)"),
];

#[test]
fn one_dylib_more(rt: HostRuntime) {
    plays::<128>(&rt, rt.alloc(), &[DYLIBS], "entries: 65");
}

const TRACKERS: Table = &[
    Many(Kind::Dylibs, 1),
    Many(Kind::Trackers, 65_536),
    By(SETUP, Call::Tracker(0), "Ok(TooMany)"),
];

#[test]
fn one_tracker_more(rt: HostRuntime) {
    plays::<65_600>(&rt, rt.alloc(), &[TRACKERS], "entries: 65538");
}

/// The generator that is one too many.
const LAST_GENERATOR: Named = Named {
    name: NameId(65_536),
    weak: false,
    wants: None,
    more: 47,
};

const GENERATORS: Table = &[
    Many(Kind::Dylibs, 1),
    Many(Kind::Trackers, 1),
    Many(Kind::Generators, 65_536),
    By(
        SETUP,
        Call::Attach(0, 0, LAST_GENERATOR),
        "Ok(TooMany), unit back",
    ),
];

#[test]
fn one_generator_more(rt: HostRuntime) {
    plays::<65_600>(&rt, rt.alloc(), &[GENERATORS], "entries: 65539");
}

/// The unit that is one too many.
const LAST_PART: Named = Named {
    name: NameId(65_536),
    weak: false,
    wants: Some(NameId(0)),
    more: 0,
};

/// The unit of a generator, which is another one too many.
const OFFERED_PART: Named = Named {
    name: NameId(65_537),
    weak: false,
    wants: Some(NameId(0)),
    more: 0,
};

const PARTS: Table = &[
    By(
        SETUP,
        Call::Attach(0, 0, OFFERED_PART),
        "Ok(Generator(GenId(0)))",
    ),
    Many(Kind::Parts, 65_536),
    By(
        SETUP,
        Call::Define(0, 0, LAST_PART),
        "Ok(TooMany), unit back",
    ),
    By(SETUP, Call::Generate(0), "Ok(TooMany)"),
];

#[test]
fn one_unit_more(rt: HostRuntime) {
    plays::<65_600>(&rt, rt.alloc(), &[BEGUN, PARTS], "entries: 65541");
}

/// A unit of 64 MiB and a byte.
const LARGE: Named = Named {
    name: NameId(0),
    weak: false,
    wants: Some(NameId(0)),
    more: 67_108_864,
};

const BYTES: Table = &[
    By(SETUP, Call::Define(0, 0, LARGE), DEFINED),
    By(SEAT, Call::LookUp(0, None), WAITS),
    By(SEAT, Call::TakeAndPlace(0), "Ok(NoRoom(67108865))"),
];

#[test]
fn one_byte_more(rt: HostRuntime) {
    plays::<64>(&rt, rt.alloc(), &[BEGUN, BYTES], "entries: 6");
}
