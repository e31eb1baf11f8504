//! A pair as one entry of a list, and what one entry, or a left and a right one, yields at a node.
#![tactic(auto)]

ghost use Rattle.std.specs.Prelude.{◌≡◌};
ghost use Rattle.events.specs.Sets.{room, image, all_sources};
ghost use Rattle.network.specs.Network.{sends};
ghost use Rattle.network.specs.Rules.{joined_c};
ghost use Rattle.network.specs.Lists.{pack, first_of, second_of};
ghost use Rattle.network.specs.Lists.{hide_candidate, rename_candidate};
ghost use Rattle.entries.specs.Entries.{width, narrow, Together, Alone};

use events::EventSet;

// The events of a set that an entry has room for.
#[tactic(auto, using(crate::proofs::Entries::narrow_is))]
fn narrow(s: EventSet) -> EventSet
    ensures { result ≡ narrow s }
{
    s & EventSet::full(16)
}

/// The entry of the pair (f, c): of each set the events that an entry has room for.
// By hand: an entry is a number in lent areas, F × 65536 + C, so it is made of the numbers of its sets.
#[tactic(auto, using(crate::proofs::Entries::narrow_below), unfolding(network::specs::Lists::pack))]
pub fn entry_of(f: EventSet, c: EventSet) -> u32
    ensures { result ≡ pack (narrow f) (narrow c) }
{
    narrow(f).bits() * 65536 + narrow(c).bits()
}

/// The first set of an entry.
#[tactic(auto, unfolding(network::specs::Lists::first_of))]
pub fn first_of(x: u32) -> EventSet
    ensures { result ≡ first_of x }
{
    EventSet::from_bits(x / 65536)
}

// The second set of an entry.
#[tactic(auto, unfolding(network::specs::Lists::second_of))]
fn second_of(x: u32) -> EventSet
    ensures { result ≡ second_of x }
{
    EventSet::from_bits(x % 65536)
}

/// What is offered to a list: an entry, if it is to be kept.
// By hand: no Option, since the clauses of `together` and `alone` say the entry also where it is not kept.
#[derive(Clone, Copy)]
pub struct Candidate {
    pub kept: bool,
    pub entry: u32,
}

// C of a join's clause (a).
fn joined_c(c1: EventSet, c2: EventSet, a: EventSet) -> EventSet
    ensures { result ≡ joined_c room a c1 c2 }
{
    let within = (c1 & a) | (c2 & a);
    let outside = (c1 - a) & (c2 - a);
    within | outside
}

/// A join's clause (a): what a left entry x and a right entry y yield together.
pub fn together(x: u32, y: u32, a: EventSet) -> Candidate
    ensures { Together a x y result.kept result.entry }
{
    let f = first_of(x) | first_of(y);
    let c = joined_c(second_of(x), second_of(y), a);
    Candidate {
        kept: f.is_disjoint(c),
        entry: entry_of(f, c),
    }
}

/// A join's clauses (b) and (c): what an entry of one side yields alone.
#[tactic(auto, using(crate::proofs::Candidates::alone_in))]
pub fn alone(x: u32, a: EventSet) -> Candidate
    ensures { Alone a x result.kept result.entry }
{
    Candidate {
        kept: first_of(x).is_disjoint(a),
        entry: x,
    }
}

/// What an operand's entry yields at a hide of a.
#[tactic(auto, using(crate::proofs::Candidates::hidden_is))]
pub fn hidden(x: u32, a: EventSet) -> u32
    ensures { result ≡ hide_candidate width a x }
{
    entry_of(first_of(x) - a, second_of(x) | a)
}

// The image of a set of events: the targets of its events below 16.
#[tactic(auto, using(crate::proofs::Images::sent_steps))]
fn image_of(s: EventSet, targets: [u32; 16]) -> EventSet
    ensures { result ≡ image width (sends targets) s }
{
    let mut image = EventSet::EMPTY;
    for (e, target) in targets.iter().enumerate() {
        if s.contains(e as u32) {
            image = image | EventSet::single(*target);
        }
    }
    narrow(image)
}

// The events below 16 all of whose sources lie in the set: those that no event outside it is sent to.
#[tactic(auto, using(crate::proofs::Images::all_sources_is))]
fn all_sources(s: EventSet, targets: [u32; 16]) -> EventSet
    ensures { result ≡ all_sources width (sends targets) s }
{
    image_of(s.complement(16), targets).complement(16)
}

/// What an operand's entry yields at a rename.
#[tactic(auto, using(crate::proofs::Images::renamed_is))]
pub fn renamed(x: u32, targets: [u32; 16]) -> u32
    ensures { result ≡ rename_candidate width targets x }
{
    entry_of(
        image_of(first_of(x), targets),
        all_sources(second_of(x), targets),
    )
}
