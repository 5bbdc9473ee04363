ghost use Rattle.std.specs.Prelude.{◌≡◌, ◌<◌, ◌-◌, ◌^◌, Some, None};

use std::marker::Model;

/// A number below 2^32 - 1, or none, in four bytes.
#[derive(Drop, Clone, Copy)]
pub(crate) struct Slot(u32);

impl Model for Slot {
    ghost use Rattle.std.specs.Prelude.{ℕ, Option};
    ghost use Rattle.dep_groups.specs.Slots.{content_of, number_of, number_same};
    ghost use Rattle.std.proofs.Common.{ap};

    ghost Value = { Option ℕ };

    ghost view = { λ s. content_of s.0 };

    ghost inverse = { λ o. record { 0 = number_of o } };

    ghost inverse_ok = { λ s h. ap (λ n. record { 0 = n }) (number_same s.0) };
}

impl Slot {
    pub(crate) fn none() -> Slot
        ensures { result ≡ None }
    {
        Slot(u32::MAX)
    }

    pub(crate) fn of(number: u32) -> Slot
        requires { number < 2 ^ 32 - 1 }
        ensures { result ≡ Some number }
    {
        Slot(number)
    }

    /// The number, if there is one.
    pub(crate) fn get(self) -> Option<u32>
        ensures { result ≡ self }
    {
        if self.0 == u32::MAX {
            return None;
        }
        Some(self.0)
    }
}
