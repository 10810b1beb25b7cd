//! Sample plans: what the definition of the verdict says of them, as one proved statement, and what the checker answers, as tests.
#![tactic(auto)]

ghost use Rattle.checker_samples.specs.Samples.{Samples};

#[cfg(test)]
mod tests;

/// The definition gives the known verdicts on the sample plans.
pub fn sample_verdicts_stand()
    ensures { Samples }
{}
