// What is promised of the printed result, a function for each statement of specs/Promise.antt: its clause is the
// statement, and its body is empty.
#![tactic(auto)]

ghost use Rattle.report.specs.Promise.{ExampleIsPrinted, LongIsRefused};

/// Document 01's example prints document 01's nine lines.
#[tactic(auto, using(crate::proofs::Promise::example_printed))]
pub fn example_is_printed()
    ensures { ExampleIsPrinted }
{}

/// A longer input than 4,096 bytes prints `refused 1 0`, and so do its first 4,097 bytes.
#[tactic(auto, using(crate::proofs::Promise::long_refused))]
pub fn long_is_refused()
    ensures { LongIsRefused }
{}
