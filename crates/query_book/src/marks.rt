ghost use Rattle.std.specs.Prelude.{◌≡◌, ℕ, ◌+◌, ◌-◌, ◌^◌, ◌<◌, ◌≤◌, ◌++◌, ◌∷◌, ◌==◌, ◌&&◌, ◌||◌, [], true, false, length, vec_len, vec_capacity, OnOk, if◌then◌else◌};
ghost use Rattle.std.specs.List.Sorted.{IsNonDecreasing};
ghost use Rattle.query_book.specs.Counts.{count};
ghost use Rattle.query_book.specs.Marks.{left_at, found_at, one_if};

use std::alloc::{AllocError, Global};
use std::marker::Model;

/// How many of its matches a query still waits for, and whether it was found to be met.
#[derive(Clone, Copy)]
pub(crate) struct Mark {
    pub(crate) left: usize,
    pub(crate) found: bool,
}

/// The marks of the queries, and the numbers of those that were found to be met and haven't settled.
#[derive(Drop)]
pub(crate) struct Marks {
    marks: Vec<Mark>,
    met: Vec<u32>,
}

impl Model for Marks {
    ghost use Rattle.std.specs.Prelude.{◌&&◌, nat_lt, vec_len, vec_capacity};
    ghost use Rattle.query_book.specs.Marks.{Marking, IsMarked};

    ghost Value = { Marking };

    ghost view = { λ m. record { marks = m.marks.items; met = m.met.items; has_room = nat_lt (vec_len m.marks) (vec_capacity m.marks) && nat_lt (vec_len m.marks) (vec_capacity m.met) } };

    ghost invariant = { λ m. IsMarked m.marks.items m.met.items (vec_capacity m.met) };
}

impl Marks {
    /// No marks; takes no memory.
    pub(crate) fn new(alloc: Global) -> Marks
        ensures marks { result.marks ≡ [] }
        ensures met { result.met ≡ [] }
    {
        Marks {
            marks: Vec::new(alloc),
            met: Vec::new(alloc),
        }
    }

    /// Makes the room for the mark of one more query.
    pub(crate) fn room(&mut self) -> Result<(), AllocError>
        ensures room { OnOk result (self.new.has_room ≡ true) }
        ensures marks { self.new.marks ≡ self.old.marks }
        ensures met { self.new.met ≡ self.old.met }
    {
        self.marks.reserve(1)?;
        self.met.reserve(self.marks.len() + 1)?;
        Ok(())
    }

    /// Adds the mark of the next query; takes no memory.
    pub(crate) fn add(&mut self, left: usize, found: bool)
        requires room { self.old.has_room ≡ true }
        requires few { length self.old.marks < 2 ^ 32 }
        ensures marks { self.new.marks ≡ self.old.marks ++ record { left = left; found = found } ∷ [] }
        ensures met { self.new.met ≡ (if found then self.old.met ++ length self.old.marks ∷ [] else self.old.met) }
    {
        let query = self.marks.len() as u32;
        self.marks.push_reserved(Mark { left, found });
        if found {
            self.met.push_reserved(query);
        }
    }

    /// A query was found to be met.
    pub(crate) fn mark(&mut self, query: u32)
        requires { query < length self.old.marks }
        ensures size { length self.new.marks ≡ length self.old.marks }
        ensures lefts { (k : ℕ) → left_at self.new.marks k ≡ left_at self.old.marks k }
        ensures founds { (k : ℕ) → found_at self.new.marks k ≡ (found_at self.old.marks k || query == k) }
        ensures met { (k : ℕ) → count k self.new.met + one_if (found_at self.old.marks k) ≡ count k self.old.met + one_if (found_at self.new.marks k) }
    {
        let at = query as usize;
        if !self.marks[at].found {
            self.marks[at].found = true;
            self.met.push_reserved(query);
        }
    }

    /// One match of a query has come to its level.
    pub(crate) fn one_less(&mut self, query: u32)
        requires { 0 < left_at self.old.marks query }
        ensures size { length self.new.marks ≡ length self.old.marks }
        ensures lefts { (k : ℕ) → left_at self.new.marks k ≡ left_at self.old.marks k - one_if (query == k) }
        ensures founds { (k : ℕ) → found_at self.new.marks k ≡ (found_at self.old.marks k || (query == k && left_at self.new.marks k == 0)) }
        ensures met { (k : ℕ) → count k self.new.met + one_if (found_at self.old.marks k) ≡ count k self.old.met + one_if (found_at self.new.marks k) }
    {
        let left = self.take_one(query as usize);
        if left == 0 {
            self.mark(query);
        }
    }

    /// Counts one match less.
    fn take_one(&mut self, at: usize) -> usize
        requires { 0 < left_at self.old.marks at }
        ensures left { result ≡ left_at self.new.marks at }
        ensures size { length self.new.marks ≡ length self.old.marks }
        ensures lefts { (k : ℕ) → left_at self.new.marks k ≡ left_at self.old.marks k - one_if (at == k) }
        ensures founds { (k : ℕ) → found_at self.new.marks k ≡ found_at self.old.marks k }
        ensures met { self.new.met ≡ self.old.met }
    {
        self.marks[at].left -= 1;
        self.marks[at].left
    }

    /// Puts the numbers that were found to be met in rising order.
    pub(crate) fn sort(&mut self)
        ensures marks { self.new.marks ≡ self.old.marks }
        ensures met { (k : ℕ) → count k self.new.met ≡ count k self.old.met }
        ensures once { (k : ℕ) → count k self.new.met ≤ 1 }
        ensures sorted { IsNonDecreasing self.new.met }
    {
        self.met.sort_unstable();
    }

    /// The numbers that were found to be met and haven't settled.
    pub(crate) fn met(&self) -> &[u32]
        ensures { result.now ≡ self.now.met }
    {
        self.met.as_slice()
    }

    /// Those that were found to be met have settled.
    pub(crate) fn clear(&mut self)
        ensures marks { self.new.marks ≡ self.old.marks }
        ensures met { self.new.met ≡ [] }
    {
        self.met.clear();
    }
}
