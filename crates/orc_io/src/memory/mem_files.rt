ghost use Rattle.std.specs.Prelude.{◌≡◌, ◌+◌, ◌≤◌, ◌↔◌, ◌⊎◌, ◌++◌, ◌∷◌, [], None, Some, OnOk, OnErr, IfOk, IfSome, IsErrOf, List, ℕ, length, IsSomeAnd, ◌<◌};
ghost use Rattle.std.specs.HashMap.{get_by_text};
ghost use Rattle.orc_io.specs.Causes.{Rose, is_fault};
ghost use Rattle.orc_io.specs.Contents.{HasContent, IsLongerThan, IsMissing, KeepsOtherFiles};
ghost use Rattle.orc_io.specs.Plans.{NextIsListed, CountsCall};

use crate::errors::{FileError, is_fault};
use crate::files::Files;
use crate::limits::FILE_LIMIT;
use crate::memory::fault_plan::FaultPlan;
use crate::memory::file_table::{FileTable, copy_within_limit, put_file};
use crate::reads::Reads;
use orc_ids::Bytes;
use std::alloc::{AllocError, Global};
use std::collections::HashMap;

/// Files in memory. They tell what they hold, a name that was never given is missing, and they fail
/// at the calls of `read_file` that they are made with.
#[derive(Drop)]
pub struct MemFiles {
    contents: FileTable,
    pub plan: FaultPlan,
    reads: Reads,
}

impl MemFiles {
    /// No files, whose reads with these numbers fail, counted from 0.
    pub fn new(alloc: Global, failing: Vec<u64>) -> MemFiles
        ensures none { IfSome (⟦<MemFiles as Files>⟧.holds result) (λ contents.
            (name : List ℕ) → contents name ≡ None) }
        ensures failing { result.plan.failing.items ≡ failing.items }
        ensures calls { result.plan.calls ≡ 0 }
        ensures faults { ⟦<MemFiles as Files>⟧.faults result ≡ 0 }
        ensures read { ⟦<MemFiles as Files>⟧.reads result ≡ [] }
    {
        MemFiles {
            contents: HashMap::new(alloc),
            plan: FaultPlan::new(failing),
            reads: Reads::new(),
        }
    }

    /// Puts a file under a name, in place of what the name had. It is no call that may be planned to fail.
    pub fn put(&mut self, alloc: Global, name: &str, bytes: Bytes) -> Result<(), AllocError>
        ensures there { OnOk result (HasContent (⟦<MemFiles as Files>⟧.holds self.new) name.now bytes) }
        ensures others { OnOk result (KeepsOtherFiles (⟦<MemFiles as Files>⟧.holds self.old)
            (⟦<MemFiles as Files>⟧.holds self.new) name.now) }
        ensures err { OnErr result (⟦<MemFiles as Files>⟧.holds self.new ≡ ⟦<MemFiles as Files>⟧.holds self.old) }
        ensures plan { self.new.plan ≡ self.old.plan }
        ensures read { ⟦<MemFiles as Files>⟧.reads self.new ≡ ⟦<MemFiles as Files>⟧.reads self.old }
    {
        put_file(alloc, &mut self.contents, name, bytes)
    }
}

impl Files for MemFiles {
    ghost holds = { λ f. Some (λ name. get_by_text f.contents name) };

    ghost faults = { λ f. f.plan.faults };

    ghost reads = { λ f. f.reads.list };

    /// Fails exactly where the number of the call is listed, or the file is missing.
    fn read_file(&mut self, alloc: Global, name: &str) -> Result<Bytes, FileError>
        ensures content { IfOk result (λ bytes.
            HasContent (⟦<MemFiles as Files>⟧.holds self.old) name.now bytes) }
        ensures within { IfOk result (λ bytes. length bytes ≤ FILE_LIMIT) }
        ensures too_long { IsErrOf result FileError.TooLong →
            IsLongerThan FILE_LIMIT (⟦<MemFiles as Files>⟧.holds self.old) name.now }
        ensures failed { IsErrOf result FileError.Failed → Rose self.old.plan.faults self.new.plan.faults }
        ensures counted { self.old.plan.faults ≤ self.new.plan.faults }
        ensures once { self.new.plan.faults ≤ self.old.plan.faults + 1 }
        ensures passed { (IsErrOf result FileError.Failed → ⊥) → self.new.plan.faults ≡ self.old.plan.faults }
        ensures read { ⟦<MemFiles as Files>⟧.reads self.new ≡
            ⟦<MemFiles as Files>⟧.reads self.old ++ (name.now, is_fault result) ∷ [] }
        ensures same { ⟦<MemFiles as Files>⟧.holds self.new ≡ ⟦<MemFiles as Files>⟧.holds self.old }

        ensures listed_or_missing { IsErrOf result FileError.Failed ↔
            (NextIsListed self.old.plan ⊎ IsMissing (⟦<MemFiles as Files>⟧.holds self.old) name.now) }
        ensures call { CountsCall self.old.plan self.new.plan }
    {
        let answer = read_planned(alloc, &mut self.plan, &self.contents, name);
        self.reads = self.reads.and(name, is_fault(&answer));
        answer
    }
}

/// The contents of a name in a table, unless the plan's next call is to fail. That the table has no
/// such name is a fault too.
fn read_planned(
    alloc: Global,
    plan: &mut FaultPlan,
    table: &FileTable,
    name: &str,
) -> Result<Bytes, FileError>
    ensures content { IfOk result (λ bytes. get_by_text table.now name.now ≡ Some bytes) }
    ensures within { IfOk result (λ bytes. length bytes ≤ FILE_LIMIT) }
    ensures too_long { IsErrOf result FileError.TooLong →
        IsSomeAnd (get_by_text table.now name.now) (λ bytes. FILE_LIMIT < length bytes) }
    ensures counted { plan.old.faults ≤ plan.new.faults }
    ensures once { plan.new.faults ≤ plan.old.faults + 1 }
    ensures passed { (IsErrOf result FileError.Failed → ⊥) → plan.new.faults ≡ plan.old.faults }
    ensures failed { IsErrOf result FileError.Failed → Rose plan.old.faults plan.new.faults }
    ensures listed_or_missing { IsErrOf result FileError.Failed ↔
        (NextIsListed plan.old ⊎ (get_by_text table.now name.now ≡ None)) }
    ensures call { CountsCall plan.old plan.new }
{
    plan.begin()?;
    match table.get(name) {
        None => Err(plan.fail().into()),
        Some(bytes) => copy_within_limit(alloc, bytes),
    }
}
