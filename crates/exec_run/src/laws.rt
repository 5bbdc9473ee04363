ghost use Rattle.exec_run.specs.Larger.{LargerMemory};
ghost use Rattle.exec_run.specs.Run.{OneEnd};

/// Two ends of one run are equal, and so is what it wrote: a law, which does nothing.
pub fn runs_have_one_end()
    ensures { OneEnd }
{}

/// Where a run touches nothing but mapped bytes, it has the same end and output on each memory
/// that agrees on those bytes: a law, which does nothing.
pub fn larger_memory()
    ensures { LargerMemory }
{}
