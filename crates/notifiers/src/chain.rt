ghost use Rattle.std.specs.Prelude.{◌≡◌, [], ◌∷◌, ◌++◌, reverse, IfSome, IfNone};
ghost use Rattle.notifiers.specs.Chains.{chained};

use crate::notice::Notice;
use std::marker::Model;
use std::mem::replace;

/// A chain of notices. Each node was made with its notifier.
#[derive(Drop)]
pub(crate) enum Link<N> {
    End,
    More(Notice<N>, Box<Link<N>>),
}

/// A chain of the same nodes in the other order.
fn reversed<N>(chain: Link<N>) -> Link<N>
    ensures { chained result ≡ reverse (chained chain) }
{
    let mut rest = chain;
    let mut done = Link::End;
    while let Link::More(notice, mut node) = rest {
        rest = replace(&mut *node, done);
        done = Link::More(notice, node);
    }
    done
}

/// A list of notices, first in, first out: the first ones in order, and the others from the last on.
pub(crate) struct Queue<N> {
    front: Link<N>,
    back: Link<N>,
}

impl<N> Model for Queue<N> {
    ghost use Rattle.std.specs.Prelude.{List, ◌++◌, reverse};
    ghost use Rattle.notifiers.specs.declared.notice.Notice.{Notice};

    ghost Value = { List (Notice N) };

    ghost use Rattle.notifiers.specs.Chains.{chained};

    ghost view = { λ q. chained q.front ++ reverse (chained q.back) };
}

impl<N: Drop> Queue<N> {
    /// No notices.
    pub(crate) fn new() -> Queue<N>
        ensures { result ≡ [] }
    {
        Queue {
            front: Link::End,
            back: Link::End,
        }
    }

    /// Adds a notice at the end, in this node.
    pub(crate) fn push(&mut self, notice: Notice<N>, node: Box<Link<N>>)
        ensures { self.new ≡ self.old ++ notice ∷ [] }
    {
        let mut node = node;
        *node = replace(&mut self.back, Link::End);
        self.back = Link::More(notice, node);
    }

    /// Takes out the first notice, with its node.
    pub(crate) fn pop(&mut self) -> Option<(Notice<N>, Box<Link<N>>)>
        ensures first { IfSome result (λ p. self.old ≡ p.0 ∷ self.new) }
        ensures empty { IfNone result (self.old ≡ []) }
        ensures stays { IfNone result (self.new ≡ []) }
    {
        if let Link::End = self.front {
            self.front = reversed(replace(&mut self.back, Link::End));
        }
        match replace(&mut self.front, Link::End) {
            Link::End => None,
            Link::More(notice, mut node) => {
                self.front = replace(&mut *node, Link::End);
                Some((notice, node))
            }
        }
    }

    /// Gives up the list.
    pub(crate) fn end(self) {
        let Queue {
            front: _front,
            back: _back,
        } = self;
    }
}
