// What is promised of the writer, a function for each statement of specs/Promise.antt: its clause is the statement, and
// its body is empty.
#![tactic(auto)]

ghost use Rattle.writer.specs.Promise.{SuccessAppends, ModelRoundTrip, FileRoundTrip, BrownoutRefused};
ghost use Rattle.writer.specs.Promise.{NothingBehindCut};

/// After a success the used part is the old one with the record behind it, and the reader accepts it or stops cleanly.
#[tactic(auto, using(crate::proofs::Promise::success_appends))]
pub fn success_appends()
    ensures { SuccessAppends }
{}

/// Writing a model and reading it gives the same model.
#[tactic(auto, using(crate::proofs::Promise::model_comes_back))]
pub fn model_round_trip()
    ensures { ModelRoundTrip }
{}

/// Reading a file and writing its records gives the same bytes.
#[tactic(auto, using(crate::proofs::Promise::file_comes_back))]
pub fn file_round_trip()
    ensures { FileRoundTrip }
{}

/// A brownout: what a success left, cut before its end, is refused with 2 at the record that is cut or missing.
#[tactic(auto, using(crate::proofs::Promise::brownouts_are_refused))]
pub fn brownout_refused()
    ensures { BrownoutRefused }
{}

/// Behind a record that is cut inside the writer adds nothing: 2 at that record, and the buffer as it was.
#[tactic(auto, using(crate::proofs::Promise::nothing_is_added))]
pub fn nothing_behind_cut()
    ensures { NothingBehindCut }
{}
