// What is promised of the reader, a function for each statement of specs/Promise.antt: its clause is the statement, and
// its body is empty.
#![tactic(auto)]

ghost use Rattle.reader.specs.Promise.{CutRefused, StumpRefused, ModelFormed, OneEncoding, ModelDetermines};
ghost use Rattle.reader.specs.Promise.{EncodingReads, SizeLimits};

/// Demand 1: a readable file that is cut is refused with 2 at the start of the record that is cut or missing.
#[tactic(auto, using(crate::proofs::Promise::cuts_are_refused))]
pub fn cut_refused()
    ensures { CutRefused }
{}

/// Demand 1: bytes with a whole readable file behind them are refused.
#[tactic(auto, using(crate::proofs::Promise::stumps_are_refused))]
pub fn stump_refused()
    ensures { StumpRefused }
{}

/// The model of a readable file is well formed and within the limits.
#[tactic(auto, using(crate::proofs::Promise::models_are_formed))]
pub fn model_formed()
    ensures { ModelFormed }
{}

/// A readable file is the encoding of its model.
#[tactic(auto, using(crate::proofs::Promise::encodings_are_one))]
pub fn one_encoding()
    ensures { OneEncoding }
{}

/// Two readable files with the same model are equal.
#[tactic(auto, using(crate::proofs::Promise::models_determine))]
pub fn model_determines()
    ensures { ModelDetermines }
{}

/// A model that a file can say has a readable encoding, of bytes, whose model it is.
#[tactic(auto, using(crate::proofs::Promise::encodings_read))]
pub fn encoding_reads()
    ensures { EncodingReads }
{}

/// A readable file has from 9 to 2,637 bytes.
#[tactic(auto, using(crate::proofs::Promise::sizes_are_limited))]
pub fn size_limits()
    ensures { SizeLimits }
{}
