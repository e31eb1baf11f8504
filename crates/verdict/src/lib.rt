// The pass over the nodes of a readable file, in order, to the first that gives anything.
#![tactic(auto)]

ghost use Rattle.std.specs.Prelude.{◌≡◌, ◌&&◌, ◌*◌, ◌≤◌, length};
ghost use Rattle.events.specs.Sets.{room, included};
ghost use Rattle.network.specs.Loops.{any_of};
ghost use Rattle.network.specs.Lists.{first_of};
ghost use Rattle.network.specs.Verdict.{has_empty_first, verdict};
ghost use Rattle.records.specs.Kinds.{hide_kind, is};
ghost use Rattle.reader.specs.File.{file_model};
ghost use Rattle.verdict.specs.Answers.{verdict_of};
ghost use Rattle.verdict.specs.Sweeping.{swept_to, through, BehindKept};

use events::EventSet;
use reader::{ReadFile, Readable};
use records::{Kind, Record};
use tests::{Reason, Refusal};

// The verdict on a file that is not refused: pass with the bound, or inconclusive with the node.
#[derive(Clone, Copy, Debug, PartialEq, Eq)]
pub enum Verdict {
    Pass { bound: u64 },
    Inconclusive(u32),
}

// Whether some pair of the list has an empty F.
fn has_empty_first(xs: &[u32]) -> bool
    ensures { result ≡ has_empty_first xs.now }
{
    xs.iter().any(|x| entries::first_of(*x).is_empty())
}

// Whether the node is a hide whose flag is up: whether F−A of some pair of its operand's list is empty.
fn is_swallowing_hide(r: Record, xs: &[u32]) -> bool
    ensures { result ≡ (is hide_kind r && any_of (λ x. included room (first_of x) r.set) xs.now) }
{
    let set = EventSet::from_bits(r.set);
    r.is(Kind::Hide) && xs.iter().any(|x| entries::first_of(*x).is_included(set))
}

// The pass over the nodes of a readable file, one behind another; what a stop leaves in the sections its caller clears.
pub fn sweep(file: ReadFile, area: &mut [u32]) -> Result<Verdict, Refusal>
    requires { 256 * file.nodes ≤ length area.old }
    ensures answer { verdict_of result ≡ verdict (file_model file.entry.bytes.now) }
    ensures area { area.new ≡ swept_to (file_model file.entry.bytes.now)
        (through (file_model file.entry.bytes.now) (verdict (file_model file.entry.bytes.now))) area.old }
    ensures behind { BehindKept (file_model file.entry.bytes.now) area.old area.new }
{
    // By hand: counts beside the area; if slices of it are kept, what it is at the end stays open in the proof.
    let mut counts = [0usize; 32];
    let mut place = places::node_place(file.bytes, 0);
    let readable = Readable { bytes: file.bytes };
    'nodes: {
        for k in 0..file.nodes {
            let r = places::record_at(file.bytes, place);
            let (sections, rest) = area.split_at_mut(256 * k as usize);
            let o = nodes::operands_of(r, &counts, sections);
            if has_empty_first(o.left) || has_empty_first(o.right) {
                break 'nodes Err(Refusal {
                    reason: Reason::EmptyFirst,
                    place: k as usize,
                });
            }
            if nodes::is_spinning_leaf(readable, r) || is_swallowing_hide(r, o.left) {
                break 'nodes Ok(Verdict::Inconclusive(k));
            }
            let Some(count) = nodes::build(readable, file.events, r, o, rest) else {
                break 'nodes Err(Refusal {
                    reason: Reason::TooManyPairs,
                    place: k as usize,
                });
            };
            counts[k as usize] = count;
            place += records::size_of(r.kind);
        }
        Ok(Verdict::Pass {
            bound: places::bound_of(file.bytes),
        })
    }
}
