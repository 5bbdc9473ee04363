ghost use Rattle.std.specs.Prelude.{◌≡◌, ◌+◌, ◌≤◌, ◌↔◌, [], length, take, drop, IfOk, IsTrue};
ghost use Rattle.std.specs.Arc.{arc_value};
ghost use Rattle.std.specs.Option.{option_map_or};

use orc_ids::Bytes;
use std::alloc::{AllocError, Global};
use std::marker::Model;
use std::sync::Arc;

/// A range of bytes that others may have too. The bytes live as long as one of their ranges does.
#[derive(Drop)]
pub struct SharedBytes {
    whole: Option<Arc<Bytes, Global>>,
    start: usize,
    len: usize,
}

impl Model for SharedBytes {
    ghost use Rattle.std.specs.Prelude.{ℕ, ◌+◌, ◌<◌, ◌≤◌, ◌^◌, List, [], length, take, drop};
    ghost use Rattle.std.specs.Option.{option_map_or};
    ghost use Rattle.std.specs.Arc.{arc_value};

    ghost Value = { List ℕ };

    ghost view = { λ s. take s.len (drop s.start (option_map_or arc_value s.whole [])) };

    ghost invariant = { λ s. (s.start + s.len ≤ length (option_map_or arc_value s.whole [])) × (s.start + s.len < 2 ^ 64) };
}

/// The same bytes once more, none of which is copied. It is refused only where 2^63 have them.
fn shared(whole: &Option<Arc<Bytes, Global>>) -> Result<Option<Arc<Bytes, Global>>, AllocError>
    ensures { IfOk result (λ more. option_map_or arc_value more [] ≡ option_map_or arc_value whole.now []) }
{
    match whole {
        Some(bytes) => Ok(Some(Arc::try_clone(bytes)?)),
        None => Ok(None),
    }
}

impl SharedBytes {
    /// No bytes; takes no memory.
    pub fn empty() -> SharedBytes
        ensures { result ≡ [] }
    {
        SharedBytes {
            whole: None,
            start: 0,
            len: 0,
        }
    }

    /// All of these bytes, none of which is copied.
    pub fn from_bytes(alloc: Global, bytes: Bytes) -> Result<SharedBytes, AllocError>
        ensures { IfOk result (λ shared. shared ≡ bytes) }
    {
        let len = bytes.len();
        Ok(SharedBytes {
            whole: Some(Arc::new(alloc, bytes)?),
            start: 0,
            len,
        })
    }

    /// A copy of a slice, which nothing else has.
    pub fn copy_of(alloc: Global, bytes: &[u8]) -> Result<SharedBytes, AllocError>
        ensures { IfOk result (λ shared. shared ≡ bytes.now) }
    {
        SharedBytes::from_bytes(alloc, Bytes::copy_of(alloc, bytes)?)
    }

    /// So many bytes from a place on, none of which is copied. It is refused only where 2^63 have them.
    #[tactic(auto, using(crate::proofs::Ranges::range_of))]
    pub fn range(&self, start: usize, len: usize) -> Result<SharedBytes, AllocError>
        requires { start + len ≤ length self.now }
        ensures { IfOk result (λ part. part ≡ take len (drop start self.now)) }
    {
        Ok(SharedBytes {
            whole: shared(&self.whole)?,
            start: self.start + start,
            len,
        })
    }

    /// The same bytes once more, none of which is copied. It is refused only where 2^63 have them.
    pub fn share(&self) -> Result<SharedBytes, AllocError>
        ensures { IfOk result (λ more. more ≡ self.now) }
    {
        Ok(SharedBytes {
            whole: shared(&self.whole)?,
            start: self.start,
            len: self.len,
        })
    }

    /// The bytes.
    pub fn as_slice(&self) -> &[u8]
        ensures { result.now ≡ self.now }
    {
        match &self.whole {
            Some(whole) => &whole.as_slice()[self.start..self.start + self.len],
            None => &[],
        }
    }

    /// How many bytes there are; looks at none of them.
    pub fn len(&self) -> usize
        ensures { result ≡ length self.now }
    {
        self.len
    }

    /// Whether there are no bytes.
    pub fn is_empty(&self) -> bool
        ensures { IsTrue result ↔ (self.now ≡ []) }
    {
        self.len == 0
    }
}
