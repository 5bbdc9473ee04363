ghost use Rattle.std.specs.Prelude.{◌≡◌, true, map, unwrap_or, Ok, OnOk, IfOk, IfErr};
ghost use Rattle.session_script.specs.Known.{IsRefusal};
ghost use Rattle.session_script.specs.Client.{client_line, define_line, looked_up, looking_up, lookup_line, watch_line, move_line, remove_line, run_by, run_line, peek_line, client_word, call_line};

use crate::error::{Refusal, ScriptWhy};
use crate::forms::{Form, all_fit, is_level, is_name, is_symbol, level_of, read_fuel};
use crate::limits::{ARG_LIMIT, CLIENT_LIMIT};
use crate::lists::arguments;
use crate::reader::Reader;
use crate::script::{ClientLine, LookupLine};
use crate::setup::are_names;
use crate::words::split;
use orc_ids::{ORDER_LIMIT, WANTED_LIMIT};

/// The first word of a client's line.
#[derive(Clone, Copy)]
pub enum ClientWord {
    Define,
    Lookup,
    Watch,
    Move,
    Remove,
    Run,
    Peek,
}

/// The line that a word begins.
pub fn client_word(word: &[u8]) -> Option<ClientWord>
    ensures { result ≡ client_word word.now }
{
    if word == b"define".as_slice() {
        return Some(ClientWord::Define);
    }
    if word == b"lookup".as_slice() {
        return Some(ClientWord::Lookup);
    }
    if word == b"watch".as_slice() {
        return Some(ClientWord::Watch);
    }
    if word == b"move".as_slice() {
        return Some(ClientWord::Move);
    }
    if word == b"remove".as_slice() {
        return Some(ClientWord::Remove);
    }
    if word == b"run".as_slice() {
        return Some(ClientWord::Run);
    }
    if word == b"peek".as_slice() {
        return Some(ClientWord::Peek);
    }
    None
}

impl Reader {
    pub fn read_client(&mut self, operands: &[&[u8]]) -> Result<(), Refusal>
        ensures read { OnOk result (client_line self.old (map (λ w. w.now) operands.now) ≡ Ok self.new) }
        ensures refused { IfErr result (λ e. IsRefusal (client_line self.old (map (λ w. w.now) operands.now)) e) }
    {
        if !operands.is_empty() {
            return Err(Refusal::Line(ScriptWhy::Count));
        }
        if self.client_count() >= CLIENT_LIMIT {
            return Err(Refusal::Line(ScriptWhy::TooMany));
        }
        self.begin_client()?;
        Ok(())
    }

    pub fn read_define(&mut self, operands: &[&[u8]]) -> Result<(), Refusal>
        ensures read { OnOk result (define_line self.old (map (λ w. w.now) operands.now) ≡ Ok self.new) }
        ensures refused { IfErr result (λ e. IsRefusal (define_line self.old (map (λ w. w.now) operands.now)) e) }
    {
        let (dylib, tracker, file) = self.read_file(operands)?;
        self.push_call(ClientLine::Define(dylib, tracker, file))
    }

    pub fn read_lookup(&mut self, operands: &[&[u8]]) -> Result<(), Refusal>
        ensures read { OnOk result (lookup_line self.old (map (λ w. w.now) operands.now) ≡ Ok self.new) }
        ensures refused { IfErr result (λ e. IsRefusal (lookup_line self.old (map (λ w. w.now) operands.now)) e) }
    {
        let line = self.look_up(true, operands)?;
        self.push_call(ClientLine::Lookup(line))
    }

    pub fn read_watch(&mut self, operands: &[&[u8]]) -> Result<(), Refusal>
        ensures read { OnOk result (watch_line self.old (map (λ w. w.now) operands.now) ≡ Ok self.new) }
        ensures refused { IfErr result (λ e. IsRefusal (watch_line self.old (map (λ w. w.now) operands.now)) e) }
    {
        let note = self.note();
        let line = self.look_up(self.has_note(), operands)?;
        self.take_note();
        self.push_call(ClientLine::Watch(note, line))
    }

    /// A lookup, where a note is left for it or none is needed.
    fn look_up(&mut self, noted: bool, operands: &[&[u8]]) -> Result<LookupLine, Refusal>
        ensures read { IfOk result (λ line. looking_up self.old noted (map (λ w. w.now) operands.now) ≡ Ok (self.new, line)) }
        ensures refused { IfErr result (λ e. IsRefusal (looking_up self.old noted (map (λ w. w.now) operands.now)) e) }
    {
        let [level, order, words @ ..] = operands else {
            return Err(Refusal::Line(ScriptWhy::Count));
        };
        if words.is_empty() {
            return Err(Refusal::Line(ScriptWhy::Count));
        }
        let items = split(self.alloc(), order, b',')?;
        self.read_looked_up(noted, level, &items, words)
    }

    fn read_looked_up(
        &mut self,
        noted: bool,
        level: &[u8],
        items: &[&[u8]],
        words: &[&[u8]],
    ) -> Result<LookupLine, Refusal>
        ensures read { IfOk result (λ line. looked_up self.old noted level.now (map (λ w. w.now) items.now) (map (λ w. w.now) words.now) ≡ Ok (self.new, line)) }
        ensures refused { IfErr result (λ e. IsRefusal (looked_up self.old noted level.now (map (λ w. w.now) items.now) (map (λ w. w.now) words.now)) e) }
    {
        if !all_fit(Form::Wanted, words) {
            return Err(Refusal::Line(ScriptWhy::Name));
        }
        if !(is_level(level) && all_fit(Form::Item, items)) {
            return Err(Refusal::Line(ScriptWhy::Order));
        }
        if !self.are_declared(items) {
            return Err(Refusal::Line(ScriptWhy::Unknown));
        }
        if !noted {
            return Err(Refusal::Line(ScriptWhy::NoNote));
        }
        if !(items.len() <= ORDER_LIMIT && words.len() <= WANTED_LIMIT) {
            return Err(Refusal::Line(ScriptWhy::TooMany));
        }
        let order = self.order(items)?;
        let wanted = self.all_wanted(words)?;
        Ok(LookupLine {
            level: level_of(level),
            order,
            wanted,
        })
    }

    pub fn read_move(&mut self, operands: &[&[u8]]) -> Result<(), Refusal>
        ensures read { OnOk result (move_line self.old (map (λ w. w.now) operands.now) ≡ Ok self.new) }
        ensures refused { IfErr result (λ e. IsRefusal (move_line self.old (map (λ w. w.now) operands.now)) e) }
    {
        let [t, to] = operands else {
            return Err(Refusal::Line(ScriptWhy::Count));
        };
        if !are_names(t, to) {
            return Err(Refusal::Line(ScriptWhy::Name));
        }
        if !(self.has_tracker(t) && self.has_tracker(to)) {
            return Err(Refusal::Line(ScriptWhy::Unknown));
        }
        let (from, to) = (self.tracker(t), self.tracker(to));
        self.push_call(ClientLine::Move(from, to))
    }

    pub fn read_remove(&mut self, operands: &[&[u8]]) -> Result<(), Refusal>
        ensures read { OnOk result (remove_line self.old (map (λ w. w.now) operands.now) ≡ Ok self.new) }
        ensures refused { IfErr result (λ e. IsRefusal (remove_line self.old (map (λ w. w.now) operands.now)) e) }
    {
        let [t] = operands else {
            return Err(Refusal::Line(ScriptWhy::Count));
        };
        if !is_name(t) {
            return Err(Refusal::Line(ScriptWhy::Name));
        }
        if !self.has_tracker(t) {
            return Err(Refusal::Line(ScriptWhy::Unknown));
        }
        let tracker = self.tracker(t);
        self.push_call(ClientLine::Remove(tracker))
    }

    pub fn read_run(&mut self, operands: &[&[u8]]) -> Result<(), Refusal>
        ensures read { OnOk result (run_line self.old (map (λ w. w.now) operands.now) ≡ Ok self.new) }
        ensures refused { IfErr result (λ e. IsRefusal (run_line self.old (map (λ w. w.now) operands.now)) e) }
    {
        let [name, fuel, words @ ..] = operands else {
            return Err(Refusal::Line(ScriptWhy::Count));
        };
        if words.len() > ARG_LIMIT {
            return Err(Refusal::Line(ScriptWhy::Count));
        }
        self.read_run_by(name, fuel, words)
    }

    fn read_run_by(&mut self, name: &[u8], fuel: &[u8], words: &[&[u8]]) -> Result<(), Refusal>
        ensures read { OnOk result (run_by self.old name.now fuel.now (map (λ w. w.now) words.now) ≡ Ok self.new) }
        ensures refused { IfErr result (λ e. IsRefusal (run_by self.old name.now fuel.now (map (λ w. w.now) words.now)) e) }
    {
        if !is_symbol(name) {
            return Err(Refusal::Line(ScriptWhy::Name));
        }
        let fuel = read_fuel(fuel);
        if !(fuel.is_some() && all_fit(Form::Argument, words)) {
            return Err(Refusal::Line(ScriptWhy::Number));
        }
        let args = arguments(self.alloc(), words)?;
        let name = self.mention_name(name)?;
        self.push_call(ClientLine::Run(name, fuel.unwrap_or(0), args))
    }

    pub fn read_peek(&mut self, operands: &[&[u8]]) -> Result<(), Refusal>
        ensures read { OnOk result (peek_line self.old (map (λ w. w.now) operands.now) ≡ Ok self.new) }
        ensures refused { IfErr result (λ e. IsRefusal (peek_line self.old (map (λ w. w.now) operands.now)) e) }
    {
        let [name] = operands else {
            return Err(Refusal::Line(ScriptWhy::Count));
        };
        if !is_symbol(name) {
            return Err(Refusal::Line(ScriptWhy::Name));
        }
        let name = self.mention_name(name)?;
        self.push_call(ClientLine::Peek(name))
    }

    /// A line of a client, by its first word.
    pub fn read_call(&mut self, word: &[u8], operands: &[&[u8]]) -> Result<(), Refusal>
        ensures read { OnOk result (call_line self.old (client_word word.now) (map (λ w. w.now) operands.now) ≡ Ok self.new) }
        ensures refused { IfErr result (λ e. IsRefusal (call_line self.old (client_word word.now) (map (λ w. w.now) operands.now)) e) }
    {
        match client_word(word) {
            Some(ClientWord::Define) => self.read_define(operands),
            Some(ClientWord::Lookup) => self.read_lookup(operands),
            Some(ClientWord::Watch) => self.read_watch(operands),
            Some(ClientWord::Move) => self.read_move(operands),
            Some(ClientWord::Remove) => self.read_remove(operands),
            Some(ClientWord::Run) => self.read_run(operands),
            Some(ClientWord::Peek) => self.read_peek(operands),
            None => Err(Refusal::Line(ScriptWhy::Word)),
        }
    }
}
