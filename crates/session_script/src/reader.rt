ghost use Rattle.std.specs.Prelude.{◌≡◌, ◌≢◌, ◌<◌, ◌+◌, ◌++◌, ◌∷◌, [], true, false, map, length, nat_lt, OnOk, IfOk, IfErr};
ghost use Rattle.session_script.specs.declared.error.ScriptWhy.TheVariants as why;
ghost use Rattle.session_script.specs.declared.error.Refusal.TheVariants as refusal;
ghost use Rattle.session_script.specs.Texts.{has};
ghost use Rattle.session_script.specs.Known.{nothing_known, dylib_in, tracker_in, file_in, name_in, with_file, with_name, with_setup, with_call};
ghost use Rattle.session_script.specs.Words.{is_file, unmarked};
ghost use Rattle.session_script.specs.Forms.{are_declared, order_of, wanted_in, symbol_part};
ghost use Rattle.session_script.specs.Setup.{are_known, are_new, has_room, with_names, defined_in};
ghost use Rattle.session_script.specs.Client.{client_count, with_client_ended, with_client};
ghost use Rattle.session_script.specs.Scripts.{script_of_ended};

use crate::error::{Refusal, ScriptWhy};
use crate::files::FileTable;
use crate::limits::FILE_LIMIT;
use crate::lists;
use crate::names::intern;
use crate::script::{ClientLine, Order, Script, SetupLine};
use crate::table::TextTable;
use orc_ids::{DylibId, Items, NameId, TrackId, Wanted};
use orc_names::{NameHasher, Names};
use std::alloc::{AllocError, Global};
use std::marker::Model;
use std::mem;

/// What the lines so far have said.
#[derive(Drop)]
pub struct Reader {
    alloc: Global,
    hasher: NameHasher,
    notes: u32,
    watches: u32,
    dylibs: TextTable,
    trackers: TextTable,
    files: FileTable,
    names: Names,
    setup: Vec<SetupLine>,
    begun: bool,
    earlier: Vec<Items<ClientLine>>,
    current: Vec<ClientLine>,
}

impl Model for Reader {
    ghost use Rattle.session_script.specs.Known.{Known};

    ghost Value = { Known };

    ghost view = { λ r. record {
      notes = r.notes;
      watches = r.watches;
      dylibs = r.dylibs;
      trackers = r.trackers;
      files = r.files;
      names = r.names;
      setup = r.setup.items;
      begun = r.begun;
      earlier = r.earlier.items;
      current = r.current.items;
    } };
}

impl Reader {
    /// Before the first line.
    pub fn new(alloc: Global, hasher: NameHasher, notes: u32) -> Reader
        ensures { result ≡ nothing_known notes }
    {
        Reader {
            alloc,
            hasher,
            notes,
            watches: 0,
            dylibs: TextTable::with_hasher(alloc, hasher),
            trackers: TextTable::with_hasher(alloc, hasher),
            files: FileTable::with_hasher(alloc, hasher),
            names: Names::with_hasher(alloc, hasher),
            setup: Vec::new(alloc),
            begun: false,
            earlier: Vec::new(alloc),
            current: Vec::new(alloc),
        }
    }

    pub fn alloc(&self) -> Global {
        self.alloc
    }

    pub fn has_dylib(&self, d: &[u8]) -> bool
        ensures { result ≡ has d.now self.now.dylibs }
    {
        self.dylibs.has(d)
    }

    pub fn dylib_count(&self) -> usize
        ensures { result ≡ length self.now.dylibs }
    {
        self.dylibs.len()
    }

    pub fn dylib(&self, d: &[u8]) -> DylibId
        ensures { result ≡ dylib_in self.now d.now }
    {
        DylibId(self.dylibs.number_of(d))
    }

    pub fn has_tracker(&self, t: &[u8]) -> bool
        ensures { result ≡ has t.now self.now.trackers }
    {
        self.trackers.has(t)
    }

    pub fn tracker(&self, t: &[u8]) -> TrackId
        ensures { result ≡ tracker_in self.now t.now }
    {
        TrackId(self.trackers.number_of(t))
    }

    /// Whether the dylib and the tracker are declared.
    pub fn knows(&self, d: &[u8], t: &[u8]) -> bool
        ensures { result ≡ are_known self.now d.now t.now }
    {
        self.has_dylib(d) && self.has_tracker(t)
    }

    /// A dylib that is new.
    pub fn declare_dylib(&mut self, d: &[u8]) -> Result<(), AllocError>
        requires { has d.now self.old.dylibs ≡ false }
        ensures { OnOk result (self.new ≡ record (self.old) { dylibs = self.old.dylibs ++ d.now ∷ [] }) }
    {
        self.dylibs.mention(d)?;
        Ok(())
    }

    /// A tracker that is new.
    pub fn declare_tracker(&mut self, t: &[u8]) -> Result<(), AllocError>
        requires { has t.now self.old.trackers ≡ false }
        ensures { OnOk result (self.new ≡ record (self.old) { trackers = self.old.trackers ++ t.now ∷ [] }) }
    {
        self.trackers.mention(t)?;
        Ok(())
    }

    /// The number of a file, where there is room for one more or it was mentioned before.
    pub fn mention_file(&mut self, file: &[u8]) -> Result<u32, Refusal>
        requires { is_file file.now ≡ true }
        ensures room { OnOk result (has_room self.old file.now ≡ true) }
        ensures known { OnOk result (self.new ≡ with_file self.old file.now) }
        ensures number { IfOk result (λ number. number ≡ file_in self.new file.now) }
        ensures refused { IfErr result (λ e. e ≢ refusal.NoMemory → (e ≡ refusal.Line why.TooMany) × (has_room self.old file.now ≡ false)) }
    {
        if !self.files.has(file) && self.files.len() >= FILE_LIMIT {
            return Err(Refusal::Line(ScriptWhy::TooMany));
        }
        let number = self.files.mention(file)?;
        Ok(number)
    }

    /// The number of a name.
    pub fn mention_name(&mut self, name: &[u8]) -> Result<NameId, AllocError>
        ensures known { OnOk result (self.new ≡ with_name self.old name.now) }
        ensures number { IfOk result (λ id. id ≡ name_in self.new name.now) }
    {
        intern(&mut self.names, name)
    }

    /// Whether the dylib of each item is declared.
    pub fn are_declared(&self, items: &[&[u8]]) -> bool
        ensures { result ≡ are_declared self.now.dylibs (map (λ w. w.now) items.now) }
    {
        lists::are_declared(&self.dylibs, items)
    }

    /// The search order of items whose dylibs are declared.
    pub fn order(&self, items: &[&[u8]]) -> Result<Order, AllocError>
        ensures { IfOk result (λ order. order ≡ order_of self.now.dylibs (map (λ w. w.now) items.now)) }
    {
        lists::order_of(self.alloc, &self.dylibs, items)
    }

    /// The wanted names, with numbers in their order.
    pub fn all_wanted(&mut self, words: &[&[u8]]) -> Result<Items<Wanted>, AllocError>
        ensures known { OnOk result (self.new ≡ with_names self.old (map unmarked (map (λ w. w.now) words.now))) }
        ensures wanted { IfOk result (λ wanted. wanted ≡ map (wanted_in self.new.names) (map (λ w. w.now) words.now)) }
    {
        lists::all_wanted(self.alloc, &mut self.names, words)
    }

    /// Whether no definition's symbol is that of an earlier one.
    pub fn are_new(&self, definitions: &[&[u8]]) -> Result<bool, AllocError>
        ensures { IfOk result (λ new. new ≡ are_new [] (map (λ w. w.now) definitions.now)) }
    {
        let mut seen = TextTable::with_hasher(self.alloc, self.hasher);
        lists::are_new(&mut seen, definitions)
    }

    /// The definitions, whose names have numbers in their order.
    pub fn all_defined(&mut self, definitions: &[&[u8]]) -> Result<Items<(NameId, u64)>, AllocError>
        ensures known { OnOk result (self.new ≡ with_names self.old (map symbol_part (map (λ w. w.now) definitions.now))) }
        ensures defined { IfOk result (λ all. all ≡ map (defined_in self.new) (map (λ w. w.now) definitions.now)) }
    {
        lists::all_defined(self.alloc, &mut self.names, definitions)
    }

    pub fn push_setup(&mut self, line: SetupLine) -> Result<(), Refusal>
        ensures known { OnOk result (self.new ≡ with_setup self.old line) }
        ensures err { IfErr result (λ e. e ≡ refusal.NoMemory) }
    {
        self.setup.push(line)?;
        Ok(())
    }

    /// Whether a client was begun.
    pub fn has_client(&self) -> bool
        ensures { result ≡ self.now.begun }
    {
        self.begun
    }

    /// How many clients were begun.
    pub fn client_count(&self) -> usize
        ensures { result ≡ client_count self.now }
    {
        if self.begun {
            self.earlier.len() + 1
        } else {
            0
        }
    }

    /// The lines that come are those of one more client.
    pub fn begin_client(&mut self) -> Result<(), AllocError>
        ensures { OnOk result (self.new ≡ with_client self.old) }
    {
        self.end_client()?;
        self.begun = true;
        Ok(())
    }

    /// The current lines are those of an earlier client, if one was begun.
    pub fn end_client(&mut self) -> Result<(), AllocError>
        ensures { OnOk result (self.new ≡ with_client_ended self.old) }
    {
        let lines = mem::replace(&mut self.current, Vec::new(self.alloc));
        if self.begun {
            self.earlier.push(Items::from_vec(lines))?;
        }
        Ok(())
    }

    pub fn push_call(&mut self, line: ClientLine) -> Result<(), Refusal>
        ensures known { OnOk result (self.new ≡ with_call self.old line) }
        ensures err { IfErr result (λ e. e ≡ refusal.NoMemory) }
    {
        self.current.push(line)?;
        Ok(())
    }

    /// The note of the line that watches next.
    pub fn note(&self) -> u32
        ensures { result ≡ self.now.watches }
    {
        self.watches
    }

    /// Whether there is a note for the line that watches next.
    pub fn has_note(&self) -> bool
        ensures { result ≡ nat_lt self.now.watches self.now.notes }
    {
        self.watches < self.notes
    }

    /// The next note is taken.
    pub fn take_note(&mut self)
        requires { self.old.watches < self.old.notes }
        ensures { self.new ≡ record (self.old) { watches = self.old.watches + 1 } }
    {
        prove!(self.watches < self.notes);
        self.watches += 1;
    }

    /// The script of what the lines said, of which the last client was ended.
    pub fn into_script(self) -> Script
        ensures { result ≡ script_of_ended self }
    {
        let Reader {
            alloc,
            setup,
            begun,
            earlier,
            files,
            names,
            ..
        } = self;
        let clients = if begun { earlier } else { Vec::new(alloc) };
        Script {
            setup: Items::from_vec(setup),
            clients: Items::from_vec(clients),
            files,
            names,
        }
    }
}
