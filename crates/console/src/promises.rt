// What is promised of the text that is written, a function for each statement of specs/Promise.antt: its clause is the
// statement, and its body is empty.
#![tactic(auto)]

ghost use Rattle.console.specs.Promise.{LinesArePrinted, WalkFindsNodes, WrittenIsPrinted, AnswerIsWritten};

/// The lines that the verdict and the area of an analysis in at least 8,192 entries give are the printed result.
#[tactic(auto, using(crate::proofs::Promise::lines_printed))]
pub fn lines_are_printed()
    ensures { LinesArePrinted }
{}

/// The walk from the first node of a readable file gives every node's text in turn.
#[tactic(auto, using(crate::proofs::Promise::walk_finds))]
pub fn walk_finds_nodes()
    ensures { WalkFindsNodes }
{}

/// With the verdict and the area of an analysis in at least 8,192 entries, what is written is the printed result.
#[tactic(auto, using(crate::proofs::Promise::written_printed))]
pub fn written_is_printed()
    ensures { WrittenIsPrinted }
{}

/// For a readable file the text that is written for any bytes is the one that is written for a file.
#[tactic(auto, using(crate::proofs::Promise::answer_written))]
pub fn answer_is_written()
    ensures { AnswerIsWritten }
{}
