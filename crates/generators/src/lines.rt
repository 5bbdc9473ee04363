//! For each name of a dylib those who offer it, in line: a hash table has the line of a name, as the
//! turns that wait, and another one who joined a line at a turn.

ghost use Rattle.std.specs.Prelude.{◌≡◌, ◌+◌, ◌-◌, ◌≤◌, ◌<◌, ◌^◌, ℕ, None, Some, nat_eq, slice_get, unwrap_or, IfSome, OnOk};
ghost use Rattle.std.specs.HashMap.{spare};
ghost use Rattle.std.specs.Map.{lookup};
ghost use Rattle.generators.specs.Lines.{nobody, joined_by, from_unspent, without_spent, same_line, line_at, turn_at, waiting_from, queue_at, HasRoom, ChangesLines, AreSameLines, PutsLine, PutsTurn};
ghost use Rattle.generators.specs.Rows.{spent_at};

use crate::generator::{Generator, is_spent};
use orc_ids::{DylibId, NameId};
use std::alloc::{AllocError, Global};
use std::collections::HashMap;

/// The turns of a line that wait: so many, from the first on.
#[derive(Clone, Copy)]
pub(crate) struct Line {
    first: u32,
    waiting: u32,
}

/// The lines by dylib and name.
type LineMap = HashMap<(u32, u32), Line>;

/// Who joined, by dylib, name and turn.
type TurnMap = HashMap<(u32, u32, u32), u32>;

#[derive(Drop)]
pub(crate) struct Lines {
    lines: LineMap,
    turns: TurnMap,
}

/// The line of the name, in which nobody waits where there is none.
fn line_of(lines: &LineMap, d: DylibId, name: NameId) -> Line
    ensures { result ≡ line_at lines.now.entries d.0 name.0 }
{
    match lines.get(&(d.0, name.0)) {
        Some(line) => *line,
        None => Line {
            first: 0,
            waiting: 0,
        },
    }
}

/// Puts the line of the name; takes no memory, since there is room, or a line of the name.
fn put_line(lines: &mut LineMap, d: DylibId, name: NameId, line: Line)
    requires { lookup (same_line (d.0, name.0)) lines.old.entries ≡ None → 0 < spare lines.old }
    ensures lines { PutsLine d.0 name.0 line lines.old.entries lines.new.entries }
    ensures spare { spare lines.old ≤ spare lines.new + 1 }
{
    match lines.insert((d.0, name.0), line) {
        Ok(_) => {}
        Err(_) => {}
    }
}

/// Who joined the line at this turn.
fn turn_of(turns: &TurnMap, d: DylibId, name: NameId, turn: u32) -> u32
    ensures { result ≡ turn_at turns.now.entries d.0 name.0 turn }
{
    match turns.get(&(d.0, name.0, turn)) {
        Some(who) => *who,
        None => 0,
    }
}

/// Puts who joins the line at this turn; takes no memory, since there is room.
fn put_turn(turns: &mut TurnMap, d: DylibId, name: NameId, turn: u32, who: u32)
    requires { 0 < spare turns.old }
    ensures turns { PutsTurn d.0 name.0 turn who turns.old.entries turns.new.entries }
    ensures spare { spare turns.old ≤ spare turns.new + 1 }
{
    match turns.insert((d.0, name.0, turn), who) {
        Ok(_) => {}
        Err(_) => {}
    }
}

/// How many spent ones stand at the head of the line.
fn spent_ahead<U>(
    turns: &TurnMap,
    d: DylibId,
    name: NameId,
    line: Line,
    rows: &[Generator<U>],
) -> u32
    requires { line.first + line.waiting < 2 ^ 32 }
    ensures few { result ≤ line.waiting }
    ensures unspent { waiting_from turns.now.entries d.0 name.0 (line.first + result) (line.waiting - result)
        ≡ from_unspent (spent_at rows.now) (waiting_from turns.now.entries d.0 name.0 line.first line.waiting) }
{
    for k in 0..line.waiting {
        if !is_spent(rows, turn_of(turns, d, name, line.first + k)) {
            return k;
        }
    }
    line.waiting
}

impl Lines {
    /// No lines; takes no memory.
    pub fn new(alloc: Global) -> Lines
        ensures { (d name : ℕ) → queue_at result d name ≡ nobody }
    {
        Lines {
            lines: HashMap::new(alloc),
            turns: HashMap::new(alloc),
        }
    }

    /// Makes the room for so many more to join.
    pub fn room(&mut self, count: usize) -> Result<(), AllocError>
        ensures queues { AreSameLines self.old self.new }
        ensures ok { OnOk result (HasRoom count self.new) }
    {
        self.lines.reserve(count)?;
        self.turns.reserve(count)
    }

    /// Who waits longest in the line of the name.
    pub fn first(&self, d: DylibId, name: NameId) -> Option<u32>
        ensures { result ≡ slice_get (queue_at self.now d.0 name.0).waiting 0 }
    {
        let line = line_of(&self.lines, d, name);
        if line.waiting == 0 {
            return None;
        }
        Some(turn_of(&self.turns, d, name, line.first))
    }

    /// One more joins the line of the name, at its end; takes no memory, since there is room.
    pub fn join(&mut self, d: DylibId, name: NameId, who: u32)
        requires room { HasRoom 1 self.old }
        requires few { (queue_at self.old d.0 name.0).joined + 1 < 2 ^ 32 }
        ensures queues { ChangesLines d.0 (nat_eq name.0) (joined_by who) self.old self.new }
        ensures room { (n : ℕ) → HasRoom (n + 1) self.old → HasRoom n self.new }
    {
        let line = line_of(&self.lines, d, name);
        put_turn(&mut self.turns, d, name, line.first + line.waiting, who);
        put_line(
            &mut self.lines,
            d,
            name,
            Line {
                first: line.first,
                waiting: line.waiting + 1,
            },
        );
    }

    /// The spent ones at the head of the line of the name leave it; takes no memory.
    pub fn pass<U>(&mut self, d: DylibId, name: NameId, rows: &[Generator<U>])
        requires { (queue_at self.old d.0 name.0).joined < 2 ^ 32 }
        ensures { ChangesLines d.0 (nat_eq name.0) (without_spent (spent_at rows.now)) self.old self.new }
    {
        let Some(line) = self.lines.get(&(d.0, name.0)).copied() else {
            return;
        };
        let ahead = spent_ahead(&self.turns, d, name, line, rows);
        put_line(
            &mut self.lines,
            d,
            name,
            Line {
                first: line.first + ahead,
                waiting: line.waiting - ahead,
            },
        );
    }
}
