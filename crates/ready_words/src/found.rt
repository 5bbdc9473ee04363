//! What a lookup at Ready found, for other passes to see.
ghost use Rattle.std.specs.Prelude.{◌≡◌, All};
ghost use Rattle.ready_words.specs.Found.{MayBePosted, posts_all, posts_one};
ghost use Rattle.turn_lock.specs.Handles.{view, turn_id, post_count, IsReady};

use orc_ids::InstId;
use orc_io::Notify;
use session_model::UnitKind;
use shared_session::{Pass, Shared, post};

/// Posts the address of each instance that was found, one store each, which wait for nobody. An address
/// of 0 is passed over.
pub fn post_found<U: UnitKind, N: Notify, const JMAX: usize>(
    shared: &Shared<U, N, JMAX>,
    pass: &mut Pass<U, N, JMAX>,
    found: &[Option<(InstId, u64)>],
)
    requires ready { IsReady (turn_id shared.now) pass.old }
    requires shown { All (MayBePosted U.meaning (post_count shared.now) (view pass.old).seen) found.now }
    ensures ready { IsReady (turn_id shared.now) pass.new }
    ensures posted { view pass.new ≡ posts_all found.now (view pass.old) }
{
    for one in found {
        post_one(shared, pass, *one);
    }
}

/// Posts what one name was found to be, unless its address is 0.
fn post_one<U: UnitKind, N: Notify, const JMAX: usize>(
    shared: &Shared<U, N, JMAX>,
    pass: &mut Pass<U, N, JMAX>,
    one: Option<(InstId, u64)>,
)
    requires ready { IsReady (turn_id shared.now) pass.old }
    requires shown { MayBePosted U.meaning (post_count shared.now) (view pass.old).seen one }
    ensures ready { IsReady (turn_id shared.now) pass.new }
    ensures posted { view pass.new ≡ posts_one one (view pass.old) }
{
    match one {
        Some((i, address)) if address != 0 => post(shared, pass, i, address),
        _ => {}
    }
}
