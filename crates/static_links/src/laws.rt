//! What follows of linked programs.

ghost use Rattle.static_links.specs.Laws.{ImageIsLinked, ProgramIsThere};

/// At each place of a chosen part, the image of a unit that was told the map's addresses is linked.
pub fn image_is_linked()
    ensures { ImageIsLinked }
{}

/// Where the objects that an entry needs lie apart, there is a linked program of it.
pub fn program_is_there()
    ensures { ProgramIsThere }
{}
