ghost use Rattle.std.specs.Prelude.{◌≡◌};

use std::collections::hash_map::RandomState;
use std::hash::{BuildHasher, DefaultHasher};

/// How the texts are hashed.
#[derive(Clone, Copy)]
pub enum NameHasher {
    /// By a seed that strangers can't know.
    Seeded(RandomState),
    /// By a fixed seed, where none can be had.
    Fixed,
}

impl BuildHasher for NameHasher {
    ghost use Rattle.orc_names.specs.Hasher.{initial_hasher};

    type Hasher = DefaultHasher;

    ghost build_hasher = { initial_hasher };

    fn build_hasher(&self) -> DefaultHasher {
        match self {
            NameHasher::Seeded(state) => state.build_hasher(),
            NameHasher::Fixed => DefaultHasher::new(),
        }
    }
}
