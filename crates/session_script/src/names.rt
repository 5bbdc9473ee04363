ghost use Rattle.std.specs.Prelude.{◌≡◌, OnOk, IfOk};
ghost use Rattle.session_script.specs.Texts.{mentioned, number_of};

use orc_ids::NameId;
use orc_names::Names;
use std::alloc::AllocError;

/// The number of a name. One that was read as a name is never too long.
pub fn intern(names: &mut Names, name: &[u8]) -> Result<NameId, AllocError>
    ensures known { OnOk result (names.new ≡ mentioned name.now names.old) }
    ensures number { IfOk result (λ id. id.0 ≡ number_of name.now names.new) }
{
    let Ok(id) = names.intern(name) else {
        return Err(AllocError);
    };
    Ok(id)
}
