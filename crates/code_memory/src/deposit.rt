ghost use Rattle.std.specs.Prelude.{◌≡◌, IfOk};
ghost use Rattle.code_memory.specs.Held.{bytes_of};

use crate::deposit_bytes::DepositBytes;
use orc_ids::Bytes;
use std::alloc::{AllocError, Global};
use std::marker::Model;
use std::mem;

/// Who has the bytes of a deposit: the placement alone, as no image was made since, or images too.
#[derive(Drop)]
enum Held {
    Owned(Bytes),
    Shared(DepositBytes),
}

/// The bytes that were deposited in a range. Contracts see the list, and not who has them.
#[derive(Drop)]
pub struct Deposit {
    held: Held,
}

impl Model for Deposit {
    ghost use Rattle.std.specs.Prelude.{ℕ, List};

    ghost Value = { List ℕ };

    ghost use Rattle.code_memory.specs.Held.{bytes_of};

    ghost view = { λ d. bytes_of d.held };
}

impl Deposit {
    /// The bytes, which nobody shares yet; takes no memory.
    pub(crate) fn new(bytes: Bytes) -> Deposit
        ensures { result ≡ bytes }
    {
        Deposit {
            held: Held::Owned(bytes),
        }
    }

    /// Whether nobody shares the bytes yet.
    pub(crate) fn is_owned(&self) -> bool {
        matches!(&self.held, Held::Owned(_))
    }

    /// Readies the bytes to be shared, none of which is copied. Where memory runs out they stay owned.
    pub(crate) fn make_shared(&mut self, alloc: Global) -> Result<(), AllocError>
        ensures { self.new ≡ self.old }
    {
        let held = mem::replace(&mut self.held, Held::Owned(Bytes::new(alloc)));
        let (held, done) = readied(alloc, held);
        self.held = held;
        done
    }

    /// The bytes for an image: shared, or copied where they aren't ready for that.
    pub(crate) fn share(&self, alloc: Global) -> Result<DepositBytes, AllocError>
        ensures { IfOk result (λ shared. shared ≡ self.now) }
    {
        match &self.held {
            Held::Owned(bytes) => copied(alloc, bytes),
            Held::Shared(bytes) => bytes.share(),
        }
    }
}

/// What has the bytes, as something that can be shared, unless memory runs out.
fn readied(alloc: Global, held: Held) -> (Held, Result<(), AllocError>)
    ensures { bytes_of result.0 ≡ bytes_of held }
{
    match held {
        Held::Owned(bytes) => first_shared(alloc, bytes),
        Held::Shared(bytes) => (Held::Shared(bytes), Ok(())),
    }
}

/// Owned bytes, as something that can be shared, unless memory runs out.
fn first_shared(alloc: Global, bytes: Bytes) -> (Held, Result<(), AllocError>)
    ensures { bytes_of result.0 ≡ bytes }
{
    match DepositBytes::of_owned(alloc, bytes) {
        Ok(shared) => (Held::Shared(shared), Ok(())),
        Err(bytes) => (Held::Owned(bytes), Err(AllocError)),
    }
}

/// A copy of bytes, which can be shared.
fn copied(alloc: Global, bytes: &Bytes) -> Result<DepositBytes, AllocError>
    ensures { IfOk result (λ shared. shared ≡ bytes.now) }
{
    let copy = Bytes::copy_of(alloc, bytes.as_slice())?;
    match DepositBytes::of_owned(alloc, copy) {
        Ok(shared) => Ok(shared),
        Err(_) => Err(AllocError),
    }
}
