// The lines of the printed result: each function gives document 01's text of one.
#![tactic(auto)]

ghost use Rattle.std.specs.Prelude.{◌≡◌, [], ◌∷◌, ◌++◌, ◌<◌, ◌≤◌, ◌+◌, length};
ghost use Rattle.network.specs.Verdict.{refused};
ghost use Rattle.report.specs.Text.{decimal, hex_digit, hex, kind_name, line, first_line, node_line, pair_line};
ghost use Rattle.report.specs.Text.{pair_count};
ghost use Rattle.report.specs.Said.{verdict_by};

pub mod promises;
pub mod refusals;

use itoa::Buffer;
use records::Kind;
pub use refusals::{AnyRefusal, Numbered};
use std::marker::Model;
use verdict::Verdict;

// A line, its line feed included: at most 40 bytes, with zeros behind them.
// By hand: no Display, whose `fmt` may fail; that a line can't fail is what `first_line` and the others promise. And no
// `ArrayVec`, which is not `Copy`.
#[derive(Clone, Copy, Debug, PartialEq, Eq)]
pub struct Line {
    bytes: [u8; 40],
    count: usize,
}

// Clauses see the line's text.
impl Model for Line {
    ghost use Rattle.std.specs.Prelude.{List, ℕ, length, take};
    ghost use Rattle.std.proofs.Common.{sym};
    ghost use Rattle.report.specs.Text.{framed};
    ghost use Rattle.report.specs.Framing.{Framed, framed_count};

    ghost Value = { List ℕ };

    ghost view = { λ l. take l.count l.bytes };

    ghost invariant = { λ l. Framed l.count l.bytes };

    ghost inverse = { λ t. record { bytes = framed t; count = length t } };

    ghost inverse_ok = { λ l h i. record { bytes = sym h.text_first i; count = framed_count h i } };
}

impl Line {
    // The line with no byte.
    #[tactic(auto, using(crate::proofs::Framed::framed_none))]
    fn new() -> Line
        ensures { result ≡ [] }
    {
        Line {
            bytes: [0; 40],
            count: 0,
        }
    }

    // A word behind what the line has.
    #[tactic(auto, using(crate::proofs::Framed::word_first, crate::proofs::Framed::word_framed))]
    fn push(&mut self, word: &[u8])
        requires { length self.old + length word.now ≤ 40 }
        ensures { self.new ≡ self.old ++ word.now }
    {
        let end = self.count + word.len();
        self.bytes[self.count..end].copy_from_slice(word);
        self.count = end;
    }

    /// The line's bytes.
    pub fn as_slice(&self) -> &[u8]
        ensures bytes { result.now ≡ self.now }
        ensures fits { length result.now ≤ 40 }
    {
        &self.bytes[..self.count]
    }
}

// The line of a verdict on the network: its word and its number.
fn verdict_line(word: &str, n: u64) -> Line
    requires { length word.now ≤ 18 }
    ensures { result ≡ line (word.now ∷ decimal n ∷ []) }
{
    let mut digits = Buffer::new();
    let mut line = Line::new();
    line.push(word.as_bytes());
    line.push(b" ");
    line.push(digits.format(n).as_bytes());
    line.push(b"\n");
    line
}

// The line of a refusal: its number, as it is printed, and its place; for every number, also one that no reason has.
pub fn refused_line(number: u32, place: usize) -> Line
    ensures { result ≡ first_line (refused number place) }
{
    let mut digits = Buffer::new();
    let mut refusal = Line::new();
    refusal.push(b"refused ");
    refusal.push(digits.format(number).as_bytes());
    refusal.push(b" ");
    refusal.push(digits.format(place).as_bytes());
    refusal.push(b"\n");
    refusal
}

// The first line: `pass` and the bound, `inconclusive` and the node, or `refused`, the number and the place.
#[tactic(auto, unfolding(crate::specs::Said::verdict_by, crate::specs::Text::first_line))]
pub fn first_line<R: Numbered>(a: Result<Verdict, R>) -> Line
    ensures { result ≡ first_line (verdict_by R.number_of R.place_of a) }
{
    match a {
        Ok(Verdict::Pass { bound }) => verdict_line("pass", bound),
        Ok(Verdict::Inconclusive(k)) => verdict_line("inconclusive", k as u64),
        Err(refusal) => {
            let AnyRefusal { number, place } = refusal.said();
            refused_line(number, place)
        }
    }
}

// The name of a node's kind; no letters for any other number.
// By hand: a number, since the clause of `node_line` is for every number.
#[tactic(auto, unfolding(crate::specs::Text::kind_name))]
fn kind_name(kind: u32) -> &'static str
    ensures name { result.now ≡ kind_name kind }
    ensures short { length result.now ≤ 6 }
{
    match Kind::try_from(kind) {
        Ok(Kind::Leaf) => "leaf",
        Ok(Kind::Join) => "join",
        Ok(Kind::Hide) => "hide",
        Ok(Kind::Rename) => "rename",
        Ok(Kind::Header | Kind::Machine | Kind::Step | Kind::End) | Err(_) => "",
    }
}

// A node's line: its number, the name of its kind, and how many pairs it has.
// By hand: the kind is a number, since the clause is for every number.
pub fn node_line(k: u32, kind: u32, pairs: usize) -> Line
    ensures { result ≡ node_line k kind pairs }
{
    let mut node = Line::new();
    let mut digits = Buffer::new();
    node.push(digits.format(k).as_bytes());
    node.push(b" ");
    node.push(kind_name(kind).as_bytes());
    node.push(b" ");
    node.push(digits.format(pairs).as_bytes());
    node.push(b"\n");
    node
}

// The lower-case hex digit d.
#[tactic(auto, unfolding(crate::specs::Text::hex_digit))]
fn hex_digit(d: u32) -> u8
    requires { d < 16 }
    ensures { result ≡ hex_digit d }
{
    char::from_digit(d, 16).unwrap() as u8
}

// A set's four hex digits.
// By hand: hex digits of core are a Display's, which may fail.
#[tactic(auto, unfolding(crate::specs::Text::hex))]
fn hex(set: u32) -> [u8; 4]
    ensures { result ≡ hex set }
{
    [
        hex_digit(set / 4096 % 16),
        hex_digit(set / 256 % 16),
        hex_digit(set / 16 % 16),
        hex_digit(set % 16),
    ]
}

// A pair's line: F, then C, of its entry.
pub fn pair_line(x: u32) -> Line
    ensures { result ≡ pair_line x }
{
    let f = x / 65536;
    let c = x % 65536;
    let mut pair = Line::new();
    pair.push(&hex(f));
    pair.push(b" ");
    pair.push(&hex(c));
    pair.push(b"\n");
    pair
}

// How many pairs a section has: its entries before the first zero.
pub fn pair_count(section: &[u32]) -> usize
    ensures { result ≡ pair_count section.now }
{
    section
        .iter()
        .position(|x| *x == 0)
        .unwrap_or(section.len())
}
