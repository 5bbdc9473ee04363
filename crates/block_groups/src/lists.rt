ghost use Rattle.std.specs.Prelude.{◌≡◌, ◌<◌, ℕ, [], true, Contains, length, IfOk, OnOk};
ghost use Rattle.block_groups.specs.Lists.{row, IsAdded, IsPushed};

use std::alloc::{AllocError, Global};
use std::marker::Model;

/// A list for each number below some count. Contracts see the list of them.
#[derive(Drop)]
pub(crate) struct Lists<T> {
    rows: Vec<Vec<T>>,
}

impl<T> Model for Lists<T> {
    ghost use Rattle.std.specs.Prelude.{List, map};

    ghost Value = { List (List T) };

    ghost view = { λ l. map (λ v. v.items) l.rows.items };
}

impl<T: Copy> Lists<T> {
    /// So many empty lists.
    pub(crate) fn new(alloc: Global, count: usize) -> Result<Lists<T>, AllocError>
        ensures whole { IfOk result (λ lists. length lists ≡ count) }
        ensures empty { IfOk result (λ lists. (k : ℕ) → row lists k ≡ []) }
    {
        let mut rows = Vec::new(alloc);
        for _ in 0..count {
            rows.push(Vec::new(alloc))?;
        }
        Ok(Lists { rows })
    }

    /// Puts an element at the end of a list.
    pub(crate) fn push(&mut self, k: usize, x: T) -> Result<(), AllocError>
        requires { k < length self.old }
        ensures { OnOk result (IsPushed self.old k x self.new) }
    {
        self.rows[k].push(x)?;
        Ok(())
    }

    pub(crate) fn row(&self, k: usize) -> &[T]
        requires { k < length self.now }
        ensures { result.now ≡ row self.now k }
    {
        self.rows[k].as_slice()
    }
}

/// Whether a list ends with a number.
fn ends_with(list: &[u32], x: u32) -> bool
    ensures { result ≡ true → Contains list.now x }
{
    match list.last() {
        Some(last) => *last == x,
        None => false,
    }
}

impl Lists<u32> {
    /// Puts a number into a list, unless it is the last one there: those that come in order are so there once.
    pub(crate) fn add(&mut self, k: usize, x: u32) -> Result<(), AllocError>
        requires { k < length self.old }
        ensures { OnOk result (IsAdded self.old k x self.new) }
    {
        if ends_with(self.row(k), x) {
            return Ok(());
        }
        self.push(k, x)
    }
}
