//! Sample rings: what the definitions say of their figures, plans and verdicts, in one proved statement.
#![tactic(auto)]

ghost use Rattle.sample_rings.specs.SampleRings.{SampleRings};

/// The definitions give the known figures, plans and verdicts of the sample rings, in one statement.
pub fn sample_rings_stand()
    ensures { SampleRings }
{}
