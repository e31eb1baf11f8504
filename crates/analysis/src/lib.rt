// The analysis of a file: the answer, and the lists of its nodes in a lent working area.
#![tactic(auto)]

ghost use Rattle.std.specs.Prelude.{◌≡◌};
ghost use Rattle.reader.specs.File.{file_model};
ghost use Rattle.verdict.specs.Answers.{verdict_of};
ghost use Rattle.analysis.specs.Analysis.{analysis_of, area_after, is_pass, pass_of, sections_after};

pub mod promises;

use reader::ReadFile;
use tests::{Reason, Refusal};
use verdict::Verdict;

// Whether the answer is a pass.
#[tactic(auto, unfolding(crate::specs::Analysis::is_pass))]
fn is_pass(a: Result<Verdict, Refusal>) -> bool
    ensures { result ≡ is_pass a }
{
    matches!(a, Ok(Verdict::Pass { .. }))
}

// The analysis of a readable file: room, the pass over the nodes, and zeros in the sections after a stop.
fn pass_over(file: ReadFile, area: &mut [u32]) -> Result<Verdict, Refusal>
    ensures answer { verdict_of result ≡ pass_of (file_model file.entry.bytes.now) area.old }
    ensures area { area.new ≡ sections_after (file_model file.entry.bytes.now) area.old }
{
    let need = 256 * file.nodes as usize;
    let is_short = area.len() < need;
    if is_short {
        return Err(Refusal {
            reason: Reason::NoRoom,
            place: 0,
        });
    }
    let answer = verdict::sweep(file, area);
    if !is_pass(answer) {
        area[..need].fill(0);
    }
    answer
}

// The analysis of a file: the answer, and the lists of its nodes in the working area.
pub fn analyse(bytes: &[u8], area: &mut [u32]) -> Result<Verdict, Refusal>
    ensures answer { verdict_of result ≡ analysis_of bytes.now area.old }
    ensures area { area.new ≡ area_after bytes.now area.old }
{
    let file = ReadFile::read(bytes)?;
    pass_over(file, area)
}
