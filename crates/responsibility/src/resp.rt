ghost use Rattle.std.specs.Prelude.{◌≡◌};

use orc_ids::UnitId;
use std::marker::Model;

/// The responsibility for a unit, which must be spent.
pub struct Resp {
    unit: UnitId,
}

impl Model for Resp {
    ghost use Rattle.orc_ids.specs.declared.ids.UnitId.{UnitId};

    ghost Value = { UnitId };

    ghost view = { λ r. r.unit };
}

impl Resp {
    pub fn of(u: UnitId) -> Resp
        ensures { result ≡ u }
    {
        Resp { unit: u }
    }

    pub fn unit(&self) -> UnitId
        ensures { result ≡ self.now }
    {
        self.unit
    }

    /// Gives the responsibility up.
    pub fn spend(self) {
        let Resp { unit: _ } = self;
    }
}
