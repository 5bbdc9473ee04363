//! Ready words: what a pass sees of an instance without the turn.
ghost use Rattle.std.specs.Prelude.{◌≡◌, ◌<◌};
ghost use Rattle.shared_session.specs.Home.{IsPosted};
ghost use Rattle.shared_session.specs.ReadyWords.{IsWord};
ghost use Rattle.turn_lock.specs.Handles.{view, turn_id, post_count, IsReady};
ghost use Rattle.turn_lock.specs.Views.{notes};

use crate::shared::{Pass, Shared};
use orc_ids::{INSTANCE_LIMIT, InstId};
use orc_io::Notify;
use session_model::UnitKind;

/// How many posts a session is opened with that has any: one for each instance that it may have.
pub const POSTS: u64 = INSTANCE_LIMIT as u64;

/// Posts the address of an instance which the pass has seen ready: one store, which waits for nobody.
pub fn post<U: UnitKind, N: Notify, const JMAX: usize>(
    shared: &Shared<U, N, JMAX>,
    pass: &mut Pass<U, N, JMAX>,
    i: InstId,
    address: u64,
)
    requires ready { IsReady (turn_id shared.now) pass.old }
    requires there { i.0 < post_count shared.now }
    requires posted { IsPosted U.meaning (view pass.old).seen i.0 address }
    ensures ready { IsReady (turn_id shared.now) pass.new }
    ensures noted { view pass.new ≡ notes i.0 address (view pass.old) }
{
    shared.post(pass, i.0 as u64, address);
}

/// The address of an instance, if it was posted, or 0: two loads, which wait for nobody.
pub fn ready_word<U: UnitKind, N: Notify, const JMAX: usize>(
    shared: &Shared<U, N, JMAX>,
    pass: &mut Pass<U, N, JMAX>,
    i: InstId,
) -> u64
    requires ready { IsReady (turn_id shared.now) pass.old }
    requires there { i.0 < post_count shared.now }
    ensures ready { IsReady (turn_id shared.now) pass.new }
    ensures word { IsWord U.meaning JMAX i.0 result (view pass.old) (view pass.new) }
{
    shared.read_post(pass, i.0 as u64)
}
