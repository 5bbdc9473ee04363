//! The numbers of the texts of a session of these objects.
ghost use Rattle.std.specs.Prelude.{◌≡◌, ◌<◌, ◌^◌};
ghost use Rattle.generated_objects.specs.Graphs.{function_number};

use orc_ids::NameId;

/// How many dylibs a session has, whose names have the first numbers.
pub const DYLIBS: u32 = 4;

/// The number of the name of function `k`.
pub fn function_name(k: u32) -> NameId
    requires { k < 2 ^ 31 }
    ensures { result ≡ function_number k }
{
    NameId(DYLIBS + k)
}
