//! A notifier that can be told from others.
ghost use Rattle.std.specs.Prelude.{◌≡◌, None};

use orc_ids::Outcome;
use orc_io::Notify;

/// A notifier with its number, that keeps what it was told.
#[derive(Drop)]
pub struct LabNote {
    pub number: u32,
    pub outcome: Option<Outcome>,
}

impl LabNote {
    /// One that has heard nothing.
    pub fn new(number: u32) -> LabNote
        ensures number { result.number ≡ number }
        ensures unheard { result.outcome ≡ None }
    {
        LabNote {
            number,
            outcome: None,
        }
    }
}

impl Notify for LabNote {
    ghost heard = { λ n. n.outcome };

    ghost number = { λ n. n.number };

    fn told(&mut self, outcome: Outcome) {
        self.outcome = Some(outcome);
    }
}
