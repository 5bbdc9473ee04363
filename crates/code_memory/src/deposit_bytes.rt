ghost use Rattle.std.specs.Prelude.{◌≡◌, length, IfOk, IfErr};

use orc_ids::Bytes;
use std::alloc::{AllocError, Global};
use std::marker::Model;
use std::sync::Arc;

/// Bytes that a space and its images have together, and how many they are. Contracts see the list.
#[derive(Drop)]
pub struct DepositBytes {
    bytes: Arc<Bytes, Global>,
    len: usize,
}

impl Model for DepositBytes {
    ghost use Rattle.std.specs.Prelude.{◌≡◌, ℕ, List, length};

    ghost Value = { List ℕ };

    ghost use Rattle.std.specs.Arc.{arc_value};

    ghost view = { λ s. arc_value s.bytes };

    ghost invariant = { λ s. s.len ≡ length (arc_value s.bytes) };
}

impl DepositBytes {
    /// The bytes, none of which is copied. They come back where memory runs out.
    pub(crate) fn of_owned(alloc: Global, bytes: Bytes) -> Result<DepositBytes, Bytes>
        ensures ok { IfOk result (λ shared. shared ≡ bytes) }
        ensures returned { IfErr result (λ back. back ≡ bytes) }
    {
        let len = bytes.len();
        match Arc::new(alloc, bytes) {
            Ok(bytes) => Ok(DepositBytes { bytes, len }),
            Err(failed) => Err(failed.value),
        }
    }

    /// The same bytes once more, none of which is copied. It is refused only where 2^63 have them.
    pub(crate) fn share(&self) -> Result<DepositBytes, AllocError>
        ensures { IfOk result (λ shared. shared ≡ self.now) }
    {
        Ok(DepositBytes {
            bytes: Arc::try_clone(&self.bytes)?,
            len: self.len,
        })
    }

    /// The bytes.
    #[inline(always)]
    pub fn as_slice(&self) -> &[u8]
        ensures { result.now ≡ self.now }
    {
        self.bytes.as_slice()
    }

    /// How many bytes there are; looks at none of them.
    #[inline(always)]
    pub fn len(&self) -> usize
        ensures { result ≡ length self.now }
    {
        self.len
    }
}
