//! Chains of aliases.

ghost use Rattle.session_laws.specs.Chains.{ChainsEnd, ComingIsTested};

/// Every chain of waiting aliases ends.
pub fn chains_end()
    ensures { ChainsEnd }
{}

/// The test of where a chain comes to is the chain.
pub fn coming_is_tested()
    ensures { ComingIsTested }
{}
