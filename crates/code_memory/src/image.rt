ghost use Rattle.std.specs.Prelude.{◌≡◌, ◌<◌, length, slice_get, option_map, IfOk};
ghost use Rattle.std.specs.Arc.{arc_value};
ghost use Rattle.code_memory.specs.Mapped.{AreSegments};

use crate::deposit_bytes::DepositBytes;
use std::alloc::{AllocError, Global};
use std::marker::Model;
use std::sync::Arc;

/// A range of memory with its bytes, of which there is at least one. The space and its images share
/// them.
#[derive(Drop)]
pub struct Segment {
    pub base: u64,
    pub bytes: DepositBytes,
}

/// The deposited ranges as they were once, in rising order. It stays as it is. Contracts see the list.
#[derive(Drop)]
pub struct Image {
    segments: Arc<Vec<Segment>, Global>,
}

impl Model for Image {
    ghost use Rattle.std.specs.Prelude.{List};
    ghost use Rattle.code_memory.specs.declared.image.Segment.{Segment};

    ghost Value = { List Segment };

    ghost use Rattle.std.specs.Arc.{arc_value};
    ghost use Rattle.code_memory.specs.Mapped.{AreSegments};

    ghost view = { λ i. (arc_value i.segments).items };

    ghost invariant = { λ i. AreSegments (arc_value i.segments).items };
}

impl Image {
    /// The image of a list of ranges; takes no memory.
    pub(crate) fn from_list(segments: Arc<Vec<Segment>, Global>) -> Image
        requires { AreSegments (arc_value segments).items }
        ensures { result ≡ (arc_value segments).items }
    {
        Image { segments }
    }

    /// Its list, which other images may have too.
    pub(crate) fn into_list(self) -> Arc<Vec<Segment>, Global>
        ensures list { (arc_value result).items ≡ self }
        ensures segments { AreSegments self }
    {
        self.segments
    }

    /// The same image once more. No byte is copied; it is refused only where 2^63 have the list.
    pub(crate) fn share(&self) -> Result<Image, AllocError>
        ensures { IfOk result (λ image. image ≡ self.now) }
    {
        Ok(Image {
            segments: Arc::try_clone(&self.segments)?,
        })
    }

    /// How many ranges it has.
    #[tactic(auto, using(crate::proofs::Apart::few_segments))]
    pub fn count(&self) -> u32
        ensures count { result ≡ length self.now }
        ensures apart { AreSegments self.now }
    {
        self.segments.len() as u32
    }

    /// Its ranges.
    pub fn segments(&self) -> &[Segment]
        ensures list { result.now ≡ self.now }
        ensures apart { AreSegments self.now }
    {
        self.segments.as_slice()
    }

    /// The first address of range k.
    pub fn base(&self, k: u32) -> u64
        requires { k < length self.now }
        ensures { option_map (λ s. s.base) (slice_get self.now k) ≡ Some result }
    {
        self.segments.as_slice()[k as usize].base
    }

    /// The bytes of range k.
    pub fn bytes(&self, k: u32) -> &[u8]
        requires { k < length self.now }
        ensures { option_map (λ s. s.bytes) (slice_get self.now k) ≡ Some result.now }
    {
        self.segments.as_slice()[k as usize].bytes.as_slice()
    }
}
