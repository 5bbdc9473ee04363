//! Who has a generator now, through whichever trackers it came: trees over the trackers, of which each root
//! knows whose its tree is. The lower of two trees hangs under the higher one, so that a tree of the height
//! `h` has as many trackers as two to the power of `h`, and none is higher than `HEIGHT`.

ghost use Rattle.std.specs.Prelude.{◌≡◌, ◌<◌, ◌++◌, ◌∷◌, [], None, Some, ◌+◌, slice_get, vec_len, set, IfOk, OnOk, OnErr};
ghost use Rattle.tracker.specs.Holders.{climbed, hanging, holder_of, hung_under, root_at, up_of, CanJoin, IsJoined, IsLonger, put};

use std::alloc::{AllocError, Global};

/// More than the height of any tree.
pub(crate) const HEIGHT: u32 = 17;

/// A node of a tree; there is one for each tracker that was made.
#[derive(Clone, Copy)]
pub(crate) struct Node {
    pub up: Option<u32>,
    pub rank: u32,
    pub tracker: u32,
}

/// The root that hangs below another one, and how high that one is then.
#[derive(Clone, Copy)]
pub(crate) struct Hanging {
    pub below: u32,
    pub above: u32,
    pub rank: u32,
}

#[derive(Drop)]
pub(crate) struct Holders {
    pub nodes: Vec<Node>,
    /// The root of each tracker that is there.
    pub roots: Vec<u32>,
    /// A node of each generator.
    pub homes: Vec<Option<u32>>,
}

/// The node above this one, or itself at the top.
fn up(nodes: &[Node], n: u32) -> u32
    ensures { result ≡ up_of nodes.now n }
{
    match nodes.get(n as usize) {
        Some(node) => node.up.unwrap_or(n),
        None => n,
    }
}

/// The root above the node.
fn climb(nodes: &[Node], start: u32) -> u32
    ensures { result ≡ climbed HEIGHT nodes.now start }
{
    let mut n = start;
    for step in 0..HEIGHT {
        n = up(nodes, n);
    }
    n
}

/// Which of two roots of these heights hangs below the other one.
fn hang(a: u32, x: u32, b: u32, y: u32) -> Hanging
    requires low { x < HEIGHT }
    ensures { result ≡ hanging a x b y }
{
    if x < y {
        Hanging {
            below: a,
            above: b,
            rank: y,
        }
    } else if y < x {
        Hanging {
            below: b,
            above: a,
            rank: x,
        }
    } else {
        Hanging {
            below: a,
            above: b,
            rank: x + 1,
        }
    }
}

/// The node is below another one now.
fn lower(nodes: &mut Vec<Node>, n: u32, above: u32)
    ensures { nodes.new.items ≡ hung_under n above nodes.old.items }
{
    let Some(node) = nodes.as_slice().get(n as usize).copied() else {
        return;
    };
    nodes[n as usize] = Node {
        up: Some(above),
        rank: node.rank,
        tracker: node.tracker,
    };
}

/// The node is a root now, of this height and with this tracker's.
fn raise(nodes: &mut Vec<Node>, n: u32, rank: u32, tracker: u32)
    ensures { nodes.new.items ≡ put n (record { up = None; rank = rank; tracker = tracker }) nodes.old.items }
{
    if (n as usize) < nodes.as_slice().len() {
        nodes[n as usize] = Node {
            up: None,
            rank,
            tracker,
        };
    }
}

/// The root of the tracker's tree is this one.
fn crown(roots: &mut Vec<u32>, t: u32, root: u32)
    ensures { roots.new.items ≡ put t root roots.old.items }
{
    if (t as usize) < roots.as_slice().len() {
        roots[t as usize] = root;
    }
}

/// One more generator, which has no home.
fn add_homeless(homes: &mut Vec<Option<u32>>) -> Result<(), AllocError>
    ensures longer { IsLonger homes.old.items homes.new.items }
    ensures count { OnOk result (vec_len homes.new ≡ vec_len homes.old + 1) }
{
    homes.push(None)?;
    Ok(())
}

/// The generators are numbered at least up to this one, as soon as it has a home.
fn reach(homes: &mut Vec<Option<u32>>, g: u32) -> Result<(), AllocError>
    ensures longer { IsLonger homes.old.items homes.new.items }
    ensures ok { OnOk result (g < vec_len homes.new) }
{
    for _ in homes.as_slice().len()..g as usize + 1 {
        add_homeless(homes)?;
    }
    Ok(())
}

impl Holders {
    /// No trees; takes no memory.
    pub fn new(alloc: Global) -> Holders
        ensures nodes { result.nodes.items ≡ [] }
        ensures roots { result.roots.items ≡ [] }
        ensures homes { result.homes.items ≡ [] }
    {
        Holders {
            nodes: Vec::new(alloc),
            roots: Vec::new(alloc),
            homes: Vec::new(alloc),
        }
    }

    /// A tree for the next tracker.
    pub fn make(&mut self, t: u32) -> Result<(), AllocError>
        ensures nodes { OnOk result (self.new.nodes.items ≡ self.old.nodes.items ++ record { up = None; rank = 0; tracker = t } ∷ []) }
        ensures roots { OnOk result (self.new.roots.items ≡ self.old.roots.items ++ t ∷ []) }
        ensures homes { self.new.homes.items ≡ self.old.homes.items }
        ensures same { OnErr result (self.new.nodes.items ≡ self.old.nodes.items) }
        ensures still { OnErr result (self.new.roots.items ≡ self.old.roots.items) }
    {
        self.nodes.reserve(1)?;
        self.roots.reserve(1)?;
        self.nodes.push_reserved(Node {
            up: None,
            rank: 0,
            tracker: t,
        });
        self.roots.push_reserved(t);
        Ok(())
    }

    /// The root of the tracker's tree, and its height.
    fn root(&self, t: u32) -> Option<(u32, u32)>
        ensures { result ≡ root_at self.now.nodes.items self.now.roots.items t }
    {
        let root = *self.roots.as_slice().get(t as usize)?;
        let node = *self.nodes.as_slice().get(root as usize)?;
        Some((root, node.rank))
    }

    /// The tracker at the root above the generator's home.
    pub fn find(&self, g: u32) -> Option<u32>
        ensures { result ≡ holder_of self.now.nodes.items self.now.homes.items g }
    {
        let home = (*self.homes.as_slice().get(g as usize)?)?;
        let root = climb(self.nodes.as_slice(), home);
        let node = self.nodes.as_slice().get(root as usize)?;
        Some(node.tracker)
    }

    /// The trees of two trackers are one, of the second; the first has none any more. Takes no memory.
    pub fn join(&mut self, from: u32, to: u32)
        requires { CanJoin self.old.nodes.items self.old.roots.items from to }
        ensures joined { IsJoined self.old.nodes.items self.old.roots.items from to self.new.nodes.items self.new.roots.items }
        ensures homes { self.new.homes.items ≡ self.old.homes.items }
    {
        let (a, x) = self.root(from).unwrap();
        let (b, y) = self.root(to).unwrap();
        let Hanging { below, above, rank } = hang(a, x, b, y);
        lower(&mut self.nodes, below, above);
        raise(&mut self.nodes, above, rank, to);
        crown(&mut self.roots, to, above);
    }

    /// Makes the place for a generator's home in the tracker's tree, at its root.
    pub fn room(&mut self, g: u32, t: u32) -> Result<u32, AllocError>
        requires { t < vec_len self.old.roots }
        ensures root { IfOk result (λ root. slice_get self.old.roots.items t ≡ Some root) }
        ensures place { OnOk result (g < vec_len self.new.homes) }
        ensures longer { IsLonger self.old.homes.items self.new.homes.items }
        ensures nodes { self.new.nodes.items ≡ self.old.nodes.items }
        ensures roots { self.new.roots.items ≡ self.old.roots.items }
    {
        let root = self.roots[t as usize];
        reach(&mut self.homes, g)?;
        Ok(root)
    }

    /// The generator's home is at this root; takes no memory.
    pub fn settle(&mut self, g: u32, root: u32)
        requires { g < vec_len self.old.homes }
        ensures homes { self.new.homes.items ≡ set self.old.homes.items g (Some root) }
        ensures nodes { self.new.nodes.items ≡ self.old.nodes.items }
        ensures roots { self.new.roots.items ≡ self.old.roots.items }
    {
        self.homes[g as usize] = Some(root);
    }
}
