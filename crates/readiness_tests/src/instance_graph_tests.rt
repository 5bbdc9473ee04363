ghost use Rattle.std.specs.Prelude.{◌≡◌, ◌<◌, ◌∷◌, [], true, false, None};
ghost use Rattle.orc_ids.specs.declared.ids.UnitName.TheVariants.{Absolute};
ghost use Rattle.instances.specs.Graph.{NoneEmitted, OffersBelow};

use instances::InstanceGraph;
use orc_ids::{DylibId, Group, InstId, Items, NameId, Shape, SymFlags, UnitId, UnitName, Wanted};
use session_model::{Standing, UnitKind};
use std::alloc::{AllocError, Global};
use std::collections::LinkedList;
use std::test::Fail;

const FLAGS: SymFlags = SymFlags {
    weak: false,
    common: false,
    exported: true,
    callable: true,
};

/// A unit that offers one name, at its start, and wants another one.
#[derive(Drop)]
struct One;

impl UnitKind for One {
    ghost meaning = { λ u. record {
      name = Absolute 0;
      offers = (record { 0 = 0 }, record { weak = false; common = false; exported = true; callable = true }) ∷ [];
      shape = λ live. None;
      address = λ k base. base;
      source = None;
      externals = λ live. record { name = record { 0 = 1 }; weak = true } ∷ [];
      image = λ live base bound. [];
      groups = λ live base bound own. record { members = own; deps = [] } ∷ [];
      refusal = λ live base bound. None;
    } };

    fn known(&self) {}

    fn count(&self) -> u32 {
        1
    }

    fn offer(&self, _k: u32) -> (NameId, SymFlags) {
        (NameId(0), FLAGS)
    }

    fn source(&self) -> Option<DylibId> {
        None
    }

    fn share(&self, _alloc: Global) -> Result<One, AllocError> {
        Ok(One)
    }

    fn name(&self) -> UnitName {
        UnitName::Absolute(0)
    }

    fn shape(&self, _live: &[bool]) -> Option<Shape> {
        None
    }

    fn address(&self, _k: u32, base: u64) -> u64 {
        base
    }

    fn externals(&self, alloc: Global, _live: &[bool]) -> Result<Vec<Wanted>, AllocError> {
        let wanted = Wanted {
            name: NameId(1),
            weak: true,
        };
        Ok(vec![in alloc; wanted]?)
    }
}

/// What is read of a graph.
#[derive(Clone, Copy)]
enum Said<'a> {
    /// Whether an instance is present.
    Present(u32, bool),
    /// Whether an instance is ready.
    Ready(u32, bool),
    /// Whether an instance has failed.
    Failed(u32, bool),
    /// The address of an instance.
    Address(u32, Option<u64>),
    /// The unsearched unit of an instance.
    Unsearched(u32, Option<UnitId>),
    /// These instances changed, and no others.
    Told(&'a [u32]),
}

/// These instances changed, and no others.
fn are_told(graph: &InstanceGraph, numbers: &[u32]) -> bool {
    for number in numbers {
        if !graph.changed().contains(&InstId(*number)) {
            return false;
        }
    }
    graph.changed().len() == numbers.len()
}

/// Whether that is read of the graph.
fn says(graph: &InstanceGraph, said: Said<'_>) -> bool {
    match said {
        Said::Present(i, present) => graph.present(InstId(i)) == present,
        Said::Ready(i, ready) => graph.ready(InstId(i)) == ready,
        Said::Failed(i, failed) => graph.failed(InstId(i)) == failed,
        Said::Address(i, address) => graph.address(InstId(i)) == address,
        Said::Unsearched(i, unit) => graph.unsearched_unit(InstId(i)) == unit,
        Said::Told(numbers) => are_told(graph, numbers),
    }
}

/// The number of the first of these that isn't read of the graph, from 0 on.
fn first_unsaid(graph: &InstanceGraph, sayings: &[Said<'_>]) -> Option<usize> {
    for (at, said) in sayings.iter().enumerate() {
        if !says(graph, *said) {
            return Some(at);
        }
    }
    None
}

/// A call on two units, or what is read of them by then.
#[derive(Clone, Copy)]
enum Step<'a> {
    /// The unit of this number is claimed.
    Claim(u32),
    /// These instances are replaced.
    Replace(&'a [InstId]),
    /// The unit of this number is removed.
    Remove(u32),
    /// What changed is forgotten.
    Clear,
    /// This is read.
    Says(Said<'a>),
}

/// Two units of one name each.
#[derive(Drop)]
struct Two {
    alloc: Global,
    graph: InstanceGraph,
    ghost units: { graph.units ≡ 2 },
}

impl Two {
    fn new(alloc: Global) -> Result<Two, AllocError> {
        let mut graph = InstanceGraph::new(alloc);
        graph.room(1)?;
        graph.define(DylibId(0), &[(NameId(0), FLAGS)], &[true]);
        graph.room(1)?;
        graph.define(DylibId(0), &[(NameId(1), FLAGS)], &[true]);
        Ok(Two { alloc, graph })
    }

    fn claim(&mut self, unit: u32) -> bool {
        if unit < 2 {
            self.graph.claim(UnitId(unit));
        }
        unit < 2
    }

    fn replace(&mut self, gone: &[InstId]) -> bool {
        self.graph.replace(gone);
        true
    }

    fn remove(&mut self, unit: u32) -> bool {
        if unit >= 2 {
            return false;
        }
        let mut gone = LinkedList::new(self.alloc);
        if gone.push_back(UnitId(unit)).is_err() {
            return false;
        }
        self.graph.remove(&gone);
        true
    }

    fn clear(&mut self) -> bool {
        self.graph.clear();
        true
    }

    /// Whether the call is made, or that is read.
    fn makes(&mut self, step: Step<'_>) -> bool {
        match step {
            Step::Claim(unit) => self.claim(unit),
            Step::Replace(gone) => self.replace(gone),
            Step::Remove(unit) => self.remove(unit),
            Step::Clear => self.clear(),
            Step::Says(said) => says(&self.graph, said),
        }
    }
}

/// The number of the first step that two units don't take so, from 0 on.
fn play(alloc: Global, steps: &[Step<'_>]) -> Result<Option<usize>, AllocError> {
    let mut units = Two::new(alloc)?;
    for (at, step) in steps.iter().enumerate() {
        if !units.makes(*step) {
            return Ok(Some(at));
        }
    }
    Ok(None)
}

#[test]
fn a_replaced_instance_is_told(rt: HostRuntime) -> Result<(), Fail> {
    let steps = [
        Step::Says(Said::Present(1, true)),
        Step::Says(Said::Unsearched(1, Some(UnitId(1)))),
        Step::Claim(1),
        Step::Says(Said::Unsearched(1, None)),
        Step::Says(Said::Told(&[])),
        Step::Replace(&[InstId(1), InstId(1), InstId(7)]),
        Step::Says(Said::Present(1, false)),
        Step::Says(Said::Told(&[1])),
        Step::Clear,
        Step::Says(Said::Told(&[])),
    ];
    assert_eq!(rt; play(rt.alloc(), &steps)?, None);
    Ok(())
}

#[test]
fn a_removed_unit_is_told(rt: HostRuntime) -> Result<(), Fail> {
    let steps = [
        Step::Remove(1),
        Step::Says(Said::Present(0, true)),
        Step::Says(Said::Present(1, false)),
        Step::Says(Said::Failed(1, true)),
        Step::Says(Said::Told(&[1])),
    ];
    assert_eq!(rt; play(rt.alloc(), &steps)?, None);
    Ok(())
}

/// Resolves the first unit at 64.
fn resolve_first(graph: &mut InstanceGraph)
    requires there { 0 < graph.old.units }
    requires offers { OffersBelow 0 1 graph.old.rows }
    requires unemitted { NoneEmitted 0 graph.old.rows }
    ensures there { 0 < graph.new.units }
    ensures unemitted { NoneEmitted 0 graph.new.rows }
{
    graph.resolve(UnitId(0), &One, 64);
}

/// Emits the first unit, depending on nothing.
fn emit_first(graph: &mut InstanceGraph, alloc: Global) -> Result<(), AllocError>
    requires there { 0 < graph.old.units }
    requires unemitted { NoneEmitted 0 graph.old.rows }
{
    let group = Group {
        members: graph.own(UnitId(0))?,
        deps: Items::new(alloc),
    };
    graph.emit(UnitId(0), &[group])
}

/// What isn't read of a unit before it is emitted, and what isn't then.
fn emitted_unsaid(
    alloc: Global,
    before: &[Said<'_>],
    after: &[Said<'_>],
) -> Result<[Option<usize>; 2], AllocError> {
    let mut graph = InstanceGraph::new(alloc);
    graph.room(1)?;
    graph.define(DylibId(0), &[(NameId(0), FLAGS)], &[true]);
    let unsaid = first_unsaid(&graph, before);
    resolve_first(&mut graph);
    emit_first(&mut graph, alloc)?;
    Ok([unsaid, first_unsaid(&graph, after)])
}

/// What isn't read of a unit that has failed.
fn failed_unsaid(alloc: Global, sayings: &[Said<'_>]) -> Result<Option<usize>, AllocError> {
    let mut graph = InstanceGraph::new(alloc);
    graph.room(1)?;
    graph.define(DylibId(0), &[(NameId(0), FLAGS)], &[true]);
    graph.fail(UnitId(0));
    Ok(first_unsaid(&graph, sayings))
}

#[test]
fn an_emitted_unit_is_ready_and_told(rt: HostRuntime) -> Result<(), Fail> {
    let before = [Said::Ready(0, false)];
    let after = [
        Said::Ready(0, true),
        Said::Address(0, Some(64)),
        Said::Told(&[0]),
    ];
    assert_eq!(rt; emitted_unsaid(rt.alloc(), &before, &after)?, [None, None]);
    Ok(())
}

#[test]
fn a_failed_unit_is_told(rt: HostRuntime) -> Result<(), Fail> {
    let sayings = [
        Said::Failed(0, true),
        Said::Present(0, true),
        Said::Told(&[0]),
    ];
    assert_eq!(rt; failed_unsaid(rt.alloc(), &sayings)?, None);
    Ok(())
}
