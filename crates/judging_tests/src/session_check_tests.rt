//! Sessions that were worked out by hand from the rules, as tables: each is legal, and with one reply
//! or one number changed it goes wrong at just that entry.

mod aliases;
mod entries;
mod judging;
mod limits;
mod names;
mod room;
mod units;

use orc_ids::Scope;
use session_model::Why;

/// How many places the journals have.
const PLACES: u64 = 100;

const CODE: u64 = 0x1000_0000;

const MAIN: u32 = 0;

const F: u32 = 1;

const G: u32 = 2;

const H: u32 = 3;

const K: u32 = 4;

const NOSUCH: u32 = 5;

const A: u32 = 6;

const B: u32 = 7;

/// How many bytes of code memory there are.
const ALL: u64 = 0x400_0000;

/// A name that a unit offers.
#[derive(Clone, Copy)]
struct Offer {
    name: u32,
    weak: bool,
    exported: bool,
}

/// A unit of one name or two, that looks up one name at most.
#[derive(Clone, Copy)]
struct Parts {
    first: Offer,
    second: Option<Offer>,
    need: u64,
    external: Option<u32>,
}

/// One name alone.
const ALONE: Parts = Parts {
    first: Offer {
        name: MAIN,
        weak: false,
        exported: true,
    },
    second: None,
    need: 48,
    external: None,
};

/// A name that needs the other unit's, and one that it needs.
const ROUND: Parts = Parts {
    first: Offer {
        name: MAIN,
        weak: false,
        exported: true,
    },
    second: Some(Offer {
        name: G,
        weak: false,
        exported: true,
    }),
    need: 48,
    external: Some(F),
};

/// The other half of the cycle.
const BACK: Parts = Parts {
    first: Offer {
        name: F,
        weak: false,
        exported: true,
    },
    second: None,
    need: 32,
    external: Some(G),
};

/// The first of a chain.
const NEEDS_F: Parts = Parts {
    first: Offer {
        name: MAIN,
        weak: false,
        exported: true,
    },
    second: None,
    need: 32,
    external: Some(F),
};

/// The second of the chain.
const NEEDS_H: Parts = Parts {
    first: Offer {
        name: F,
        weak: false,
        exported: true,
    },
    second: None,
    need: 32,
    external: Some(H),
};

/// The last of the chain, that looks up a name that nothing offers.
const NEEDS_NONE: Parts = Parts {
    first: Offer {
        name: H,
        weak: false,
        exported: true,
    },
    second: None,
    need: 32,
    external: Some(NOSUCH),
};

/// A unit beside the chain.
const ASIDE: Parts = Parts {
    first: Offer {
        name: K,
        weak: false,
        exported: true,
    },
    second: None,
    need: 16,
    external: None,
};

/// What is left of code memory beside a unit of 48 bytes.
const BESIDE: Parts = Parts {
    first: Offer {
        name: F,
        weak: false,
        exported: true,
    },
    second: None,
    need: ALL - 48,
    external: None,
};

/// More than there is.
const TOO_LARGE: Parts = Parts {
    first: Offer {
        name: MAIN,
        weak: false,
        exported: true,
    },
    second: None,
    need: ALL + 16,
    external: None,
};

/// A name that needs another, and a weak definition of that one.
const WEAK_F: Parts = Parts {
    first: Offer {
        name: MAIN,
        weak: false,
        exported: true,
    },
    second: Some(Offer {
        name: F,
        weak: true,
        exported: true,
    }),
    need: 48,
    external: Some(F),
};

/// A strong definition of it.
const STRONG_F: Parts = Parts {
    first: Offer {
        name: F,
        weak: false,
        exported: true,
    },
    second: None,
    need: 8,
    external: None,
};

/// A hidden name, and an exported one.
const HIDDEN_H: Parts = Parts {
    first: Offer {
        name: H,
        weak: false,
        exported: false,
    },
    second: Some(Offer {
        name: MAIN,
        weak: false,
        exported: true,
    }),
    need: 16,
    external: None,
};

/// What is asked of a session. Names are looked up in the first dylib alone, but for those of aliases,
/// and shapes are aligned to 16.
#[derive(Clone, Copy)]
enum Said {
    Dylib(u32),
    Tracker(u32),
    Define(u32, Parts),
    /// The tracker, the name, the dylib of its target and its target.
    Alias(u32, u32, u32, u32),
    Attach(u32, Parts),
    /// The first dylib gets so many items of itself.
    Order(u32),
    Generate(u32),
    Ask(Scope, u32),
    /// A name is asked for in so many items of the first dylib.
    AskIn(u32, u32),
    Collect(u32),
    Take,
    Place(u32, u64),
    Resolve(u32),
    Link(u32),
    /// The unit, with one group: its first and last member, and what they depend on.
    Emit(u32, u32, u32, Option<u32>),
    Fail(u32, Why),
    Remove(u32),
    Image,
}

/// What a session answers.
#[derive(Clone, Copy)]
enum Told {
    Made(u32),
    Set,
    Tracker(u32),
    Defined(u32, u32, u32),
    Duplicate(u32, u32),
    Generator(u32),
    Spent(u32),
    Offer(u32),
    InError(u32),
    Missing(u32),
    AliasCycle(u32),
    Done(u32),
    Pending(u32),
    Found(u64, u32, u64),
    Lost(u64, u32),
    Start(u32),
    Finish(u32, Option<(u32, u64)>),
    FinishLost(u32, u32),
    NoRoom(u64),
    Placed(u64),
    Resolved,
    BadDep(u32),
    Emitted,
    Failed,
    Removed,
    Defunct(u32),
    Image,
}

/// The seat, the event and the reply of an entry.
type Line = (u32, Said, Told);

/// The number of an entry, from 0, and what is put in its place.
type Lie = (usize, Line);
