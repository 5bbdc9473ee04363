ghost use Rattle.std.specs.Prelude.{◌≡◌};
ghost use Rattle.generators.specs.Rows.{spent_at};

use orc_ids::DylibId;

/// A unit that offers its names in a dylib.
#[derive(Drop)]
pub struct Generator<U> {
    pub unit: U,
    pub dylib: DylibId,
    /// It was used, or may not be used any more.
    pub spent: bool,
}

/// Whether the generator of this number is spent.
pub(crate) fn is_spent<U>(rows: &[Generator<U>], number: u32) -> bool
    ensures { result ≡ spent_at rows.now number }
{
    match rows.get(number as usize) {
        Some(row) => row.spent,
        None => false,
    }
}
