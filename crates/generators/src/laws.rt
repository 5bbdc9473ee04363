ghost use Rattle.generators.specs.Laws.{OffersAsTheSession};

use session_model::UnitKind;

/// The generator that offers a name is the session's, whatever the trackers are: a law, which does
/// nothing.
pub fn offers_as_the_session<U: UnitKind>()
    ensures { OffersAsTheSession U.meaning }
{}
