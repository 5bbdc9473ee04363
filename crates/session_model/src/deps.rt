ghost use Rattle.std.specs.Prelude.{◌≡◌, [], IfOk};

use orc_ids::{InstId, InstList};
use std::alloc::{AllocError, Global};
use std::marker::Model;
use std::sync::Arc;

/// What an instance depends on, by the numbers of instances. The members of a group share one list.
/// Contracts see the list.
#[derive(Drop)]
pub struct DepList {
    deps: Option<Arc<InstList, Global>>,
}

impl Model for DepList {
    ghost use Rattle.std.specs.Prelude.{List, []};
    ghost use Rattle.std.specs.Option.{option_map_or};
    ghost use Rattle.std.specs.Arc.{arc_value};
    ghost use Rattle.orc_ids.specs.declared.ids.InstId.{InstId};

    ghost Value = { List InstId };

    ghost view = { λ d. option_map_or arc_value d.deps [] };
}

impl DepList {
    /// No dependencies; takes no memory.
    pub fn new() -> DepList
        ensures { result ≡ [] }
    {
        DepList { deps: None }
    }

    /// A list that can be shared.
    pub fn from_items(alloc: Global, deps: InstList) -> Result<DepList, AllocError>
        ensures { IfOk result (λ shared. shared ≡ deps) }
    {
        Ok(DepList {
            deps: Some(Arc::new(alloc, deps)?),
        })
    }

    /// Another handle to the same list, whatever its length.
    pub fn share(&self) -> Result<DepList, AllocError>
        ensures { IfOk result (λ shared. shared ≡ self.now) }
    {
        let deps = match &self.deps {
            Some(deps) => Some(Arc::try_clone(deps)?),
            None => None,
        };
        Ok(DepList { deps })
    }

    pub fn as_slice(&self) -> &[InstId]
        ensures { result.now ≡ self.now }
    {
        match &self.deps {
            Some(deps) => deps.as_slice(),
            None => &[],
        }
    }
}
