ghost use Rattle.std.specs.Prelude.{◌≡◌, ◌↔◌, IsTrue};

use orc_ids::{Group, InstId};

fn same_instances(a: &[InstId], b: &[InstId]) -> bool
    ensures { IsTrue result ↔ (a.now ≡ b.now) }
{
    if a.len() != b.len() {
        return false;
    }
    for (k, x) in a.iter().enumerate() {
        if x.0 != b[k].0 {
            return false;
        }
    }
    true
}

fn same_group(a: &Group, b: &Group) -> bool
    ensures { IsTrue result ↔ (a.now ≡ b.now) }
{
    same_instances(a.members.as_slice(), b.members.as_slice())
        && same_instances(a.deps.as_slice(), b.deps.as_slice())
}

/// Whether two lists of groups are the same.
pub fn same_groups(a: &[Group], b: &[Group]) -> bool
    ensures { IsTrue result ↔ (a.now ≡ b.now) }
{
    if a.len() != b.len() {
        return false;
    }
    for (k, x) in a.iter().enumerate() {
        if !same_group(x, &b[k]) {
            return false;
        }
    }
    true
}
