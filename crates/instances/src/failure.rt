//! What a failure hits is failed, and noted.

ghost use Rattle.std.specs.Prelude.{◌≡◌, ◌<◌, ℕ, true, false};
ghost use Rattle.session_model.specs.Change.{hits_failed};
ghost use Rattle.session_model.specs.Reach.{is_ready, is_hit};
ghost use Rattle.instances.specs.Table.{HasSameRooms, is_among};
ghost use Rattle.instances.specs.Sets.{AddsPlaced};
ghost use Rattle.instances.specs.Tied.{IsTied};

use crate::Instances;
use crate::inst_set::InstSet;
use dep_groups::Frontier;
use orc_ids::InstId;
use session_laws::{hit_is_tested, ready_is_tested};

/// What reaches one of the roots and isn't ready fails; what is ready stays so. Takes no memory.
pub(crate) fn fail_hits(
    instances: &mut Instances,
    frontier: &mut Frontier,
    changed: &mut InstSet,
    roots: &[InstId],
)
    requires tied { IsTied instances.old.rows frontier.old.entries }
    requires within { (i : ℕ) → is_among roots.now i ≡ true → i < frontier.old.places }
    requires unready { (i : ℕ) → is_among roots.now i ≡ true → is_ready instances.old.rows i ≡ false }
    ensures rows { instances.new.rows ≡ hits_failed (is_among roots.now) instances.old.rows }
    ensures rooms { HasSameRooms instances.old instances.new }
    ensures tied { IsTied instances.new.rows frontier.new.entries }
    ensures ready { (i : ℕ) → is_ready instances.new.rows i ≡ is_ready instances.old.rows i }
    ensures places { frontier.new.places ≡ frontier.old.places }
    ensures changed { AddsPlaced (is_hit instances.old.rows (is_among roots.now)) changed.old changed.new }
    ensures room { changed.new.places ≡ changed.old.places }
{
    // for their laws
    ready_is_tested();
    hit_is_tested();
    frontier.fail(roots);
    instances.fail(frontier.hits());
    changed.add_all(frontier.hits());
}
