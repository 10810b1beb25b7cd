//! Sample rings: what the definitions say of them, as one proved statement, and what the library's calls answer, as tests.
#![tactic(auto)]

ghost use Rattle.samples.specs.Samples.{SampleFigures};

#[cfg(test)]
mod tests;

/// The definitions give the known figures of the sample rings.
pub fn sample_figures_stand()
    ensures { SampleFigures }
{}
