// The tests on a record, in document 01's order, and the first that hits.
#![tactic(auto)]

ghost use Rattle.std.specs.Prelude.{◌≡◌, cond, Ok, Err};
ghost use Rattle.tests.specs.Tests.{bad_kind, cut_short, misplaced, too_many, not_free, bad_operand, not_above};
ghost use Rattle.tests.specs.Tests.{ninth_event, unused_node, bad_end};
ghost use Rattle.tests.specs.Reasons.{number_of};
ghost use Rattle.tests.specs.FirstHit.{first_hit};

use events::EventSet;
use progress::Progress;
use records::{Kind, Record};

// Why a file is not read, a record not added, or a model not judged: document 01's table of refusal numbers.
#[derive(Clone, Copy, Debug, PartialEq, Eq)]
pub enum Reason {
    TooLong,
    CutShort,
    UnknownKind,
    Misplaced,
    OutOfRange,
    BadOperand,
    NotAbove,
    TooMany,
    BadEnd,
    NinthEvent,
    TooManyPairs,
    EmptyFirst,
    NoRoom,
}

impl Reason {
    // Document 01's number of a reason.
    pub fn number(self) -> u32
        ensures { result ≡ number_of self }
    {
        match self {
            Reason::TooLong => 1,
            Reason::CutShort => 2,
            Reason::UnknownKind => 3,
            Reason::Misplaced => 4,
            Reason::OutOfRange => 5,
            Reason::BadOperand => 6,
            Reason::NotAbove => 7,
            Reason::TooMany => 8,
            Reason::BadEnd => 9,
            Reason::NinthEvent => 10,
            Reason::TooManyPairs => 11,
            Reason::EmptyFirst => 12,
            Reason::NoRoom => 13,
        }
    }
}

// A reason, and the place: of a record, of a node, or 0.
#[derive(Clone, Copy, Debug, PartialEq, Eq)]
pub struct Refusal {
    pub reason: Reason,
    pub place: usize,
}

// By hand: g and r stay two parameters, for several tests read one of them alone.

// 3: kind not 1 to 8.
fn bad_kind(r: Record) -> bool
    ensures { result ≡ bad_kind r }
{
    Kind::try_from(r.kind).is_err()
}

// 2: the record has more bytes than are left.
fn cut_short(r: Record, left: usize) -> bool
    ensures { result ≡ cut_short r left }
{
    left < records::size_of(r.kind)
}

// 4: no header first, a second header, a step before any machine, a machine or step after a node, a node before any
// machine, an end before any node.
fn is_misplaced(g: &Progress, r: Record) -> bool
    ensures { result ≡ misplaced g.now r }
{
    (g.n == 0 && !r.is(Kind::Header))
        || (r.is(Kind::Header) && g.n != 0)
        || (r.is(Kind::Step) && g.machines == 0)
        || ((r.is(Kind::Machine) || r.is(Kind::Step)) && g.nodes != 0)
        || (r.is_node() && g.machines == 0)
        || (r.is(Kind::End) && g.nodes == 0)
}

// 8: thirteenth machine or leaf, 513th step, 33rd node.
fn too_many(g: &Progress, r: Record) -> bool
    ensures { result ≡ too_many g.now r }
{
    (r.is(Kind::Machine) && 12 <= g.machines)
        || (r.is(Kind::Leaf) && 12 <= g.leaves)
        || (r.is(Kind::Step) && 512 <= g.steps)
        || (r.is_node() && 32 <= g.nodes)
}

// Not an earlier node, or already used.
fn not_free(g: &Progress, k: u32) -> bool
    ensures { result ≡ not_free g.now k }
{
    g.nodes <= k || g.used.contains(k)
}

// 6: operand not an earlier node, or already used; a join naming one node twice.
fn bad_operand(g: &Progress, r: Record) -> bool
    ensures { result ≡ bad_operand g.now r }
{
    match Kind::try_from(r.kind) {
        Ok(Kind::Join) => not_free(g, r.left) || not_free(g, r.right) || r.left == r.right,
        Ok(Kind::Hide | Kind::Rename) => not_free(g, r.left),
        _ => false,
    }
}

// 7: step not above the one before it in its machine.
fn not_above(g: &Progress, r: Record) -> bool
    ensures { result ≡ not_above g.now r }
{
    r.is(Kind::Step) && r.key() < g.floor
}

// 10: ninth different event in one machine.
fn ninth_event(g: &Progress, r: Record) -> bool
    ensures { result ≡ ninth_event g.now r }
{
    r.is(Kind::Step) && 8 < progress::with_member(g.events, r.label).count()
}

// A node other than the last unused.
fn unused_node(g: &Progress) -> bool
    ensures { result ≡ unused_node g.now }
{
    let wanted = EventSet::full(progress::one_less(g.nodes));
    !wanted.is_included(g.used)
}

// 9: end with a wrong byte count, a node other than the last unused, or bytes after it.
fn bad_end(g: &Progress, r: Record, left: usize) -> bool
    ensures { result ≡ bad_end g.now r left }
{
    r.is(Kind::End) && (r.number as usize != g.place || unused_node(g) || Kind::End.size() < left)
}

// One test: its reason, if it hits.
fn test(hit: bool, reason: Reason) -> Result<(), Reason>
    ensures { result ≡ cond hit (Err reason) (Ok tt) }
{
    if hit { Err(reason) } else { Ok(()) }
}

// The reason of the first test that hits: 3, 2, 4, 8, 5, 6, 7, 10, 9.
#[tactic(auto, unfolding(crate::specs::FirstHit::first_hit))]
pub fn first_hit(g: &Progress, r: Record, left: usize) -> Result<(), Reason>
    ensures { result ≡ first_hit g.now r left }
{
    test(bad_kind(r), Reason::UnknownKind)?;
    test(cut_short(r, left), Reason::CutShort)?;
    test(is_misplaced(g, r), Reason::Misplaced)?;
    test(too_many(g, r), Reason::TooMany)?;
    test(ranges::out_of_range(g, r), Reason::OutOfRange)?;
    test(bad_operand(g, r), Reason::BadOperand)?;
    test(not_above(g, r), Reason::NotAbove)?;
    test(ninth_event(g, r), Reason::NinthEvent)?;
    test(bad_end(g, r, left), Reason::BadEnd)
}
