ghost use Rattle.std.specs.Prelude.{◌≡◌, ◌≤◌, ◌&&◌, ◌++◌, ◌∷◌, [], map, length, Ok, OnOk, IfOk, IfErr};
ghost use Rattle.session_script.specs.Words.{is_name};
ghost use Rattle.session_script.specs.Known.{IsRefusal};
ghost use Rattle.session_script.specs.Setup.{dylib_line, order_line, tracker_line, file_line, placed_file, object_line, generator_line, placed_symbols, absolute_line, alias_line, aliased, with_alias, setup_word, setup_line};
ghost use Rattle.session_script.specs.declared.error.Refusal.TheVariants.{NoMemory};

use crate::error::{Refusal, ScriptWhy};
use crate::forms::{Form, all_fit, is_file, is_name, is_symbol};
use crate::reader::Reader;
use crate::script::{AliasLine, SetupLine};
use crate::words::cut;
use orc_ids::{DYLIB_LIMIT, DylibId, ORDER_LIMIT, TrackId};

/// The first word of a line of the setup.
#[derive(Clone, Copy)]
pub enum SetupWord {
    Dylib,
    Order,
    Tracker,
    Object,
    Absolute,
    Generator,
    Alias,
}

/// The line that a word begins.
pub fn setup_word(word: &[u8]) -> Option<SetupWord>
    ensures { result ≡ setup_word word.now }
{
    if word == b"dylib".as_slice() {
        return Some(SetupWord::Dylib);
    }
    if word == b"order".as_slice() {
        return Some(SetupWord::Order);
    }
    if word == b"tracker".as_slice() {
        return Some(SetupWord::Tracker);
    }
    if word == b"object".as_slice() {
        return Some(SetupWord::Object);
    }
    if word == b"absolute".as_slice() {
        return Some(SetupWord::Absolute);
    }
    if word == b"generator".as_slice() {
        return Some(SetupWord::Generator);
    }
    if word == b"alias".as_slice() {
        return Some(SetupWord::Alias);
    }
    None
}

/// Whether both words may name a dylib or a tracker.
pub fn are_names(d: &[u8], t: &[u8]) -> bool
    ensures { result ≡ (is_name d.now && is_name t.now) }
{
    is_name(d) && is_name(t)
}

impl Reader {
    pub fn read_dylib(&mut self, operands: &[&[u8]]) -> Result<(), Refusal>
        ensures read { OnOk result (dylib_line self.old (map (λ w. w.now) operands.now) ≡ Ok self.new) }
        ensures refused { IfErr result (λ e. IsRefusal (dylib_line self.old (map (λ w. w.now) operands.now)) e) }
    {
        let [d] = operands else {
            return Err(Refusal::Line(ScriptWhy::Count));
        };
        if !is_name(d) {
            return Err(Refusal::Line(ScriptWhy::Name));
        }
        if self.has_dylib(d) {
            return Err(Refusal::Line(ScriptWhy::Taken));
        }
        if self.dylib_count() >= DYLIB_LIMIT {
            return Err(Refusal::Line(ScriptWhy::TooMany));
        }
        let name = self.mention_name(d)?;
        self.declare_dylib(d)?;
        self.push_setup(SetupLine::Dylib(name))
    }

    pub fn read_tracker(&mut self, operands: &[&[u8]]) -> Result<(), Refusal>
        ensures read { OnOk result (tracker_line self.old (map (λ w. w.now) operands.now) ≡ Ok self.new) }
        ensures refused { IfErr result (λ e. IsRefusal (tracker_line self.old (map (λ w. w.now) operands.now)) e) }
    {
        let [d, t] = operands else {
            return Err(Refusal::Line(ScriptWhy::Count));
        };
        if !are_names(d, t) {
            return Err(Refusal::Line(ScriptWhy::Name));
        }
        if self.has_tracker(t) {
            return Err(Refusal::Line(ScriptWhy::Taken));
        }
        if !self.has_dylib(d) {
            return Err(Refusal::Line(ScriptWhy::Unknown));
        }
        let dylib = self.dylib(d);
        self.declare_tracker(t)?;
        let tracker = self.tracker(t);
        self.push_setup(SetupLine::Tracker(dylib, tracker))
    }

    pub fn read_order(&mut self, operands: &[&[u8]]) -> Result<(), Refusal>
        ensures read { OnOk result (order_line self.old (map (λ w. w.now) operands.now) ≡ Ok self.new) }
        ensures refused { IfErr result (λ e. IsRefusal (order_line self.old (map (λ w. w.now) operands.now)) e) }
    {
        let [d, items @ ..] = operands else {
            return Err(Refusal::Line(ScriptWhy::Count));
        };
        if items.is_empty() {
            return Err(Refusal::Line(ScriptWhy::Count));
        }
        if !is_name(d) {
            return Err(Refusal::Line(ScriptWhy::Name));
        }
        if !all_fit(Form::Item, items) {
            return Err(Refusal::Line(ScriptWhy::Order));
        }
        if !(self.has_dylib(d) && self.are_declared(items)) {
            return Err(Refusal::Line(ScriptWhy::Unknown));
        }
        if items.len() > ORDER_LIMIT {
            return Err(Refusal::Line(ScriptWhy::TooMany));
        }
        let order = self.order(items)?;
        let dylib = self.dylib(d);
        self.push_setup(SetupLine::Order(dylib, order))
    }

    pub fn read_object(&mut self, operands: &[&[u8]]) -> Result<(), Refusal>
        ensures read { OnOk result (object_line self.old (map (λ w. w.now) operands.now) ≡ Ok self.new) }
        ensures refused { IfErr result (λ e. IsRefusal (object_line self.old (map (λ w. w.now) operands.now)) e) }
    {
        let (dylib, tracker, file) = self.read_file(operands)?;
        self.push_setup(SetupLine::Object(dylib, tracker, file))
    }

    pub fn read_generator(&mut self, operands: &[&[u8]]) -> Result<(), Refusal>
        ensures read { OnOk result (generator_line self.old (map (λ w. w.now) operands.now) ≡ Ok self.new) }
        ensures refused { IfErr result (λ e. IsRefusal (generator_line self.old (map (λ w. w.now) operands.now)) e) }
    {
        let (dylib, tracker, file) = self.read_file(operands)?;
        self.push_setup(SetupLine::Generator(dylib, tracker, file))
    }

    /// A dylib, a tracker and a file.
    pub fn read_file(&mut self, operands: &[&[u8]]) -> Result<(DylibId, TrackId, u32), Refusal>
        ensures read { IfOk result (λ r. file_line self.old (map (λ w. w.now) operands.now) ≡ Ok (self.new, r)) }
        ensures refused { IfErr result (λ e. IsRefusal (file_line self.old (map (λ w. w.now) operands.now)) e) }
    {
        match operands {
            [d, t, file] => self.place_file(d, t, file),
            _ => Err(Refusal::Line(ScriptWhy::Count)),
        }
    }

    fn place_file(
        &mut self,
        d: &[u8],
        t: &[u8],
        file: &[u8],
    ) -> Result<(DylibId, TrackId, u32), Refusal>
        ensures read { IfOk result (λ r. placed_file self.old d.now t.now file.now ≡ Ok (self.new, r)) }
        ensures refused { IfErr result (λ e. IsRefusal (placed_file self.old d.now t.now file.now) e) }
    {
        if !(are_names(d, t) && is_file(file)) {
            return Err(Refusal::Line(ScriptWhy::Name));
        }
        if !self.knows(d, t) {
            return Err(Refusal::Line(ScriptWhy::Unknown));
        }
        let (dylib, tracker) = (self.dylib(d), self.tracker(t));
        let file = self.mention_file(file)?;
        Ok((dylib, tracker, file))
    }

    pub fn read_absolute(&mut self, operands: &[&[u8]]) -> Result<(), Refusal>
        ensures read { OnOk result (absolute_line self.old (map (λ w. w.now) operands.now) ≡ Ok self.new) }
        ensures refused { IfErr result (λ e. IsRefusal (absolute_line self.old (map (λ w. w.now) operands.now)) e) }
    {
        let [d, t, definitions @ ..] = operands else {
            return Err(Refusal::Line(ScriptWhy::Count));
        };
        if definitions.is_empty() {
            return Err(Refusal::Line(ScriptWhy::Count));
        }
        self.place_symbols(d, t, definitions)
    }

    fn place_symbols(&mut self, d: &[u8], t: &[u8], definitions: &[&[u8]]) -> Result<(), Refusal>
        ensures read { OnOk result (placed_symbols self.old d.now t.now (map (λ w. w.now) definitions.now) ≡ Ok self.new) }
        ensures refused { IfErr result (λ e. IsRefusal (placed_symbols self.old d.now t.now (map (λ w. w.now) definitions.now)) e) }
    {
        if !(are_names(d, t) && all_fit(Form::Defined, definitions)) {
            return Err(Refusal::Line(ScriptWhy::Name));
        }
        if !all_fit(Form::Addressed, definitions) {
            return Err(Refusal::Line(ScriptWhy::Number));
        }
        if !self.are_new(definitions)? {
            return Err(Refusal::Line(ScriptWhy::Taken));
        }
        if !self.knows(d, t) {
            return Err(Refusal::Line(ScriptWhy::Unknown));
        }
        let (dylib, tracker) = (self.dylib(d), self.tracker(t));
        let defined = self.all_defined(definitions)?;
        self.push_setup(SetupLine::Absolute(dylib, tracker, defined))
    }

    pub fn read_alias(&mut self, operands: &[&[u8]]) -> Result<(), Refusal>
        ensures read { OnOk result (alias_line self.old (map (λ w. w.now) operands.now) ≡ Ok self.new) }
        ensures refused { IfErr result (λ e. IsRefusal (alias_line self.old (map (λ w. w.now) operands.now)) e) }
    {
        match operands {
            [d, t, definition] => self.read_aliased(d, t, definition),
            _ => Err(Refusal::Line(ScriptWhy::Count)),
        }
    }

    #[tactic(auto, unfolding(crate::specs::Setup::aliased))]
    fn read_aliased(&mut self, d: &[u8], t: &[u8], definition: &[u8]) -> Result<(), Refusal>
        ensures read { OnOk result (aliased self.old d.now t.now definition.now ≡ Ok self.new) }
        ensures refused { IfErr result (λ e. IsRefusal (aliased self.old d.now t.now definition.now) e) }
    {
        let (name, rest) = cut(definition, b'=');
        let (source, target) = cut(rest, b':');
        if !(are_names(d, t) && is_symbol(name) && is_name(source) && is_symbol(target)) {
            return Err(Refusal::Line(ScriptWhy::Name));
        }
        if !(self.knows(d, t) && self.has_dylib(source)) {
            return Err(Refusal::Line(ScriptWhy::Unknown));
        }
        self.alias(d, t, name, source, target)
    }

    fn alias(
        &mut self,
        d: &[u8],
        t: &[u8],
        name: &[u8],
        source: &[u8],
        target: &[u8],
    ) -> Result<(), Refusal>
        ensures known { OnOk result (self.new ≡ with_alias self.old d.now t.now name.now source.now target.now) }
        ensures err { IfErr result (λ e. e ≡ NoMemory) }
    {
        let dylib = self.dylib(d);
        let tracker = self.tracker(t);
        let source = self.dylib(source);
        let name = self.mention_name(name)?;
        let target = self.mention_name(target)?;
        self.push_setup(SetupLine::Alias(AliasLine {
            dylib,
            tracker,
            name,
            source,
            target,
        }))
    }

    /// A line of the setup, by its first word.
    pub fn read_setup(&mut self, word: &[u8], operands: &[&[u8]]) -> Result<(), Refusal>
        ensures read { OnOk result (setup_line self.old (setup_word word.now) (map (λ w. w.now) operands.now) ≡ Ok self.new) }
        ensures refused { IfErr result (λ e. IsRefusal (setup_line self.old (setup_word word.now) (map (λ w. w.now) operands.now)) e) }
    {
        match setup_word(word) {
            Some(SetupWord::Dylib) => self.read_dylib(operands),
            Some(SetupWord::Order) => self.read_order(operands),
            Some(SetupWord::Tracker) => self.read_tracker(operands),
            Some(SetupWord::Object) => self.read_object(operands),
            Some(SetupWord::Absolute) => self.read_absolute(operands),
            Some(SetupWord::Generator) => self.read_generator(operands),
            Some(SetupWord::Alias) => self.read_alias(operands),
            None => Err(Refusal::Line(ScriptWhy::Word)),
        }
    }
}
