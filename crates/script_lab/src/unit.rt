//! A unit that is given by lists, and has code.
ghost use Rattle.std.specs.Prelude.{◌≡◌, ◌%◌, slice_index_or, IfOk};
ghost use Rattle.std.specs.Option.{option_map_or};
ghost use Rattle.execution_session.specs.Holding.{IsFinished};
ghost use Rattle.session_model.specs.Meaning.{FitsUnit};
ghost use Rattle.script_lab.specs.Units.{code_bytes, code_of};

use execution_session::Finished;
use link_worker::{FinishError, LinkedUnit};
use orc_ids::{Bytes, DylibId, Groups, InstId, NameId, Place, Shape, SymFlags, UnitName, Wanted};
use session_check::{KnownUnit, Sample};
use session_model::UnitKind;
use std::alloc::{AllocError, Global};

/// A unit that is given by lists. Its bytes are code, which a run can begin at any of its names, and
/// which answers a number.
#[derive(Drop)]
pub struct LabUnit {
    pub known: KnownUnit,
    pub answer: u8,
}

/// A byte of the code.
fn code_byte(answer: u8, k: u64) -> u8
    ensures { result ≡ slice_index_or (code_of answer) (k % 8) 0 }
{
    match k % 8 {
        0 => 0x13,
        1 => 0x05,
        2 => answer % 16 * 16,
        3 => answer / 16,
        4 => 0x67,
        5 => 0x80,
        _ => 0,
    }
}

/// So many bytes of the code.
fn code_bytes(alloc: Global, answer: u8, need: u64) -> Result<Bytes, AllocError>
    ensures { IfOk result (λ bytes. bytes ≡ code_bytes answer need) }
{
    let mut bytes = Vec::new(alloc);
    for k in 0..need {
        bytes.push(code_byte(answer, k))?;
    }
    Ok(Bytes::from_vec(bytes))
}

/// How many bytes a unit of this shape has.
fn byte_count(shape: Option<Shape>) -> u64
    ensures { result ≡ option_map_or (λ s. s.need) shape 0 }
{
    match shape {
        Some(shape) => shape.need,
        None => 0,
    }
}

impl LabUnit {
    ghost use Rattle.script_lab.specs.Units.{lab_meaning};

    /// What its emission hands in, if no edge is out of range.
    fn made(
        &self,
        alloc: Global,
        live: &[bool],
        base: u64,
        bound: &[Option<(InstId, u64)>],
        own: &[InstId],
    ) -> Result<Finished, AllocError>
        requires fits { FitsUnit (lab_meaning self.now) live.now bound.now own.now }
        requires allowed { (lab_meaning self.now).refusal live.now base bound.now ≡ None }
        ensures { IfOk result (IsFinished (lab_meaning self.now) live.now base bound.now own.now) }
    {
        let need = byte_count(self.known.shape(live));
        Ok(Finished {
            groups: self.known.groups(alloc, live, base, bound, own)?,
            bytes: code_bytes(alloc, self.answer, need)?,
        })
    }
}

impl UnitKind for LabUnit {
    ghost use Rattle.script_lab.specs.Units.{lab_meaning};

    ghost meaning = { lab_meaning };

    fn known(&self) {
        self.known.known();
    }

    fn count(&self) -> u32 {
        self.known.count()
    }

    fn offer(&self, k: u32) -> (NameId, SymFlags) {
        self.known.offer(k)
    }

    fn share(&self, alloc: Global) -> Result<LabUnit, AllocError> {
        Ok(LabUnit {
            known: self.known.share(alloc)?,
            answer: self.answer,
        })
    }

    fn source(&self) -> Option<DylibId> {
        self.known.source()
    }

    fn name(&self) -> UnitName {
        self.known.name()
    }

    fn shape(&self, live: &[bool]) -> Option<Shape> {
        self.known.shape(live)
    }

    fn address(&self, k: u32, base: u64) -> u64 {
        self.known.address(k, base)
    }

    fn externals(&self, alloc: Global, live: &[bool]) -> Result<Vec<Wanted>, AllocError> {
        self.known.externals(alloc, live)
    }
}

impl Sample for LabUnit {
    fn groups(
        &self,
        alloc: Global,
        live: &[bool],
        base: u64,
        bound: &[Option<(InstId, u64)>],
        own: &[InstId],
    ) -> Result<Groups, AllocError> {
        self.known.groups(alloc, live, base, bound, own)
    }

    fn refusal(
        &self,
        live: &[bool],
        base: u64,
        bound: &[Option<(InstId, u64)>],
    ) -> Option<(Place, u32, i64)> {
        self.known.refusal(live, base, bound)
    }
}

impl LinkedUnit for LabUnit {
    fn finish(
        &self,
        alloc: Global,
        live: &[bool],
        base: u64,
        bound: &[Option<(InstId, u64)>],
        own: &[InstId],
    ) -> Result<Finished, FinishError> {
        if let Some((place, kind, v)) = self.known.refusal(live, base, bound) {
            return Err(FinishError::Refused(place, kind, v));
        }
        match self.made(alloc, live, base, bound, own) {
            Ok(made) => Ok(made),
            Err(AllocError) => Err(FinishError::NoMemory),
        }
    }
}
