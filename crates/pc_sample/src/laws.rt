//! A law of the definitions, which holds of every number.
ghost use Rattle.pc_sample.specs.Laws.{SamplesAreShort};

/// Every sample is short.
pub fn laws_of_samples()
    ensures { SamplesAreShort }
{}
