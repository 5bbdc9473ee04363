ghost use Rattle.std.specs.Prelude.{◌≡◌, ◌<◌, ◌+◌, ◌^◌, OnOk};
ghost use Rattle.session_model.specs.State.{after, plain_entry};
ghost use Rattle.session_plain.specs.Meant.{meant, IsSmall, LiveFit, OffersFit};

use crate::applying::apply;
use crate::deciding::decide;
use crate::plain::PlainSession;
use crate::settling::settle;
use session_model::{Entry, UnitKind};
use std::alloc::{AllocError, Global};

/// The session after one more entry: what the reply changes is decided and done, the queries settle,
/// and the entry is counted. After an error the session is part way there.
pub fn enter<U: UnitKind>(
    alloc: Global,
    s: &mut PlainSession<U>,
    e: &Entry<U>,
) -> Result<(), AllocError>
    requires small { IsSmall s.old }
    requires live { LiveFit U.meaning s.old.units.items }
    requires offers { OffersFit U.meaning s.old.units.items s.old.rows.items }
    requires numbered { s.old.entries + 1 < 2 ^ 64 }
    ensures { OnOk result (meant U.meaning s.new ≡ after (meant U.meaning s.old) (plain_entry U.meaning e.now)) }
{
    let entries = s.entries + 1;
    let change = decide(alloc, s, e.seat, &e.event, &e.reply)?;
    apply(alloc, s, change)?;
    settle(alloc, s)?;
    s.entries = entries;
    Ok(())
}
