ghost use Rattle.std.specs.Prelude.{◌≡◌, ◌<◌, ◌≤◌, ◌+◌, ◌-◌, ◌^◌, ◌++◌, ◌∷◌, ℕ, [], OnOk, length, vec_len, vec_capacity};
ghost use Rattle.dep_groups.specs.Frontier.{numbers};
ghost use Rattle.dep_groups.specs.Nodes.{node_of, spare, room_in, nodes_in, start_of, AreFlat, IsEnough};
ghost use Rattle.dep_groups.specs.Spans.{IsSpan};
ghost use Rattle.dep_groups.specs.Shape.{deps_of};
ghost use Rattle.dep_groups.specs.Marks.{members_of};

use orc_ids::{Group, InstId};
use std::alloc::{AllocError, Global};
use std::marker::Model;

/// Where the members and the dependencies of a group end in their tables.
#[derive(Drop, Clone, Copy)]
pub(crate) struct End {
    members: u32,
    deps: u32,
}

/// Groups by number: the members of all in one table, what they depend on in another, and where those
/// of each group end. They begin where those of the group before it end. Contracts see the groups, and
/// how much more there is room for.
#[derive(Drop)]
pub(crate) struct Nodes {
    members: Vec<InstId>,
    deps: Vec<u32>,
    ends: Vec<End>,
}

impl Model for Nodes {
    ghost use Rattle.dep_groups.specs.Nodes.{NodeList};

    ghost Value = { NodeList };

    ghost use Rattle.dep_groups.specs.Nodes.{nodes_in, room_in, AreFlat};

    ghost view = { λ n. record { items = nodes_in n.members.items n.deps.items n.ends.items; room = room_in n.ends n.members n.deps } };

    ghost invariant = { λ n. AreFlat n.members.items n.deps.items n.ends.items };
}

/// Makes room in a table, where all that comes into it can have numbers below 2^32 - 1.
pub(crate) fn make_room<T>(table: &mut Vec<T>, more: usize) -> Result<(), AllocError>
    ensures items { table.new.items ≡ table.old.items }
    ensures len { vec_len table.new ≡ vec_len table.old }
    ensures room { OnOk result (more ≤ spare (vec_capacity table.new) (vec_len table.new)) }
{
    if more > (u32::MAX as usize).saturating_sub(table.len()) {
        return Err(AllocError);
    }
    table.reserve(more)
}

/// Appends members to their table.
fn push_members(table: &mut Vec<InstId>, members: &[InstId])
    requires room { vec_len table.old + length members.now ≤ vec_capacity table.old }
    ensures items { table.new.items ≡ table.old.items ++ members.now }
    ensures len { vec_len table.new ≡ vec_len table.old + length members.now }
    ensures capacity { vec_capacity table.new ≡ vec_capacity table.old }
{
    for member in members {
        table.push_reserved(*member);
    }
}

/// Appends the numbers of dependencies to their table.
fn push_deps(table: &mut Vec<u32>, deps: &[InstId])
    requires room { vec_len table.old + length deps.now ≤ vec_capacity table.old }
    ensures items { table.new.items ≡ table.old.items ++ numbers deps.now }
    ensures len { vec_len table.new ≡ vec_len table.old + length deps.now }
    ensures capacity { vec_capacity table.new ≡ vec_capacity table.old }
{
    for instance in deps {
        table.push_reserved(instance.0);
    }
}

/// Makes the room in the tables for groups with so many members and dependencies in all.
fn reserve_in(
    members: &mut Vec<InstId>,
    deps: &mut Vec<u32>,
    ends: &mut Vec<End>,
    groups: usize,
    member_count: usize,
    dep_count: usize,
) -> Result<(), AllocError>
    ensures members { members.new.items ≡ members.old.items }
    ensures deps { deps.new.items ≡ deps.old.items }
    ensures ends { ends.new.items ≡ ends.old.items }
    ensures room { OnOk result (IsEnough (room_in ends.new members.new deps.new) groups member_count dep_count) }
{
    make_room(ends, groups)?;
    make_room(members, member_count)?;
    make_room(deps, dep_count)
}

/// Appends a group to the tables; its number.
fn push_to(
    members: &mut Vec<InstId>,
    deps: &mut Vec<u32>,
    ends: &mut Vec<End>,
    group: &Group,
) -> u32
    requires flat { AreFlat members.old.items deps.old.items ends.old.items }
    requires room { IsEnough (room_in ends.old members.old deps.old) 1 (length group.now.members) (length group.now.deps) }
    ensures flat { AreFlat members.new.items deps.new.items ends.new.items }
    ensures number { result ≡ length (nodes_in members.old.items deps.old.items ends.old.items) }
    ensures few { result < 2 ^ 32 - 1 }
    ensures items { nodes_in members.new.items deps.new.items ends.new.items ≡ nodes_in members.old.items deps.old.items ends.old.items ++ node_of group.now ∷ [] }
    ensures room { (g m d : ℕ) → IsEnough (room_in ends.old members.old deps.old) (g + 1) (length group.now.members + m) (length group.now.deps + d) → IsEnough (room_in ends.new members.new deps.new) g m d }
{
    let number = ends.len() as u32;
    push_members(members, group.members.as_slice());
    push_deps(deps, group.deps.as_slice());
    ends.push_reserved(End {
        members: members.len() as u32,
        deps: deps.len() as u32,
    });
    number
}

/// Where the members and the dependencies of a group begin.
fn start_of(ends: &[End], group: usize) -> End
    requires { group ≤ length ends.now }
    ensures { result ≡ start_of ends.now group }
{
    if group == 0 {
        return End {
            members: 0,
            deps: 0,
        };
    }
    ends[group - 1]
}

/// Where a group lies in the tables; past the last group nothing does.
#[derive(Drop, Clone, Copy)]
struct Span {
    start: End,
    end: End,
}

/// Where a group lies in the tables.
fn span_of(ends: &[End], group: u32) -> Span
    ensures { IsSpan ends.now group result }
{
    match ends.get(group as usize) {
        Some(end) => Span {
            start: start_of(ends, group as usize),
            end: *end,
        },
        None => Span {
            start: End {
                members: 0,
                deps: 0,
            },
            end: End {
                members: 0,
                deps: 0,
            },
        },
    }
}

impl Nodes {
    /// No group; takes no memory.
    pub(crate) fn new(alloc: Global) -> Nodes
        ensures { result.items ≡ [] }
    {
        Nodes {
            members: Vec::new(alloc),
            deps: Vec::new(alloc),
            ends: Vec::new(alloc),
        }
    }

    /// How many groups there are.
    pub(crate) fn len(&self) -> usize
        ensures { result ≡ length self.now.items }
    {
        self.ends.len()
    }

    /// Makes the room for groups with so many members and dependencies in all.
    pub(crate) fn reserve(
        &mut self,
        groups: usize,
        members: usize,
        deps: usize,
    ) -> Result<(), AllocError>
        ensures items { self.new.items ≡ self.old.items }
        ensures room { OnOk result (IsEnough self.new.room groups members deps) }
    {
        reserve_in(
            &mut self.members,
            &mut self.deps,
            &mut self.ends,
            groups,
            members,
            deps,
        )
    }

    /// Adds a group; its number.
    pub(crate) fn push(&mut self, group: &Group) -> u32
        requires { IsEnough self.old.room 1 (length group.now.members) (length group.now.deps) }
        ensures number { result ≡ length self.old.items }
        ensures few { result < 2 ^ 32 - 1 }
        ensures items { self.new.items ≡ self.old.items ++ node_of group.now ∷ [] }
        ensures room { (g m d : ℕ) → IsEnough self.old.room (g + 1) (length group.now.members + m) (length group.now.deps + d) → IsEnough self.new.room g m d }
    {
        push_to(&mut self.members, &mut self.deps, &mut self.ends, group)
    }

    /// The members of a group.
    pub(crate) fn members_of(&self, group: u32) -> &[InstId]
        ensures { result.now ≡ members_of self.now.items group }
    {
        let span = span_of(&self.ends, group);
        &self.members[span.start.members as usize..span.end.members as usize]
    }

    /// What a group depends on.
    pub(crate) fn deps_of(&self, group: u32) -> &[u32]
        ensures { result.now ≡ deps_of self.now.items group }
    {
        let span = span_of(&self.ends, group);
        &self.deps[span.start.deps as usize..span.end.deps as usize]
    }
}
