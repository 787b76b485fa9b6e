//! The law of separation of quotients, which are positions divided by whole numbers.
#![tactic(auto)]

ghost use Rattle.quotient_laws.specs.Separation.{QuotientsAreSeparated};

/// Between two different quotients lie fractions, each before the next, as many as one likes. The function does nothing: its
/// contract is the law.
pub fn separation_law()
    ensures { QuotientsAreSeparated }
{}
