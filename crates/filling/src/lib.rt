//! What takes the candidates of a node, one after another; and one node's list while it is filled: sorted insertion
//! into 256 entries, over at a 257th; and its section.
#![tactic(auto)]

ghost use Rattle.std.specs.Prelude.{◌≡◌, ℕ, Bool, ◌+◌, ◌<◌, ◌≤◌, [], fold, length, take, drop, insert};
ghost use Rattle.network.specs.Lists.{keep_if};
ghost use Rattle.filling.specs.Collecting.{StaysOnceOver};
ghost use Rattle.filling.specs.Building.{fits, pairs_of, went_over, stored, padded};

use entries::Candidate;
use std::marker::Model;

/// What takes the candidates of a node, one after another.
pub trait Collector {
    // What the collector is after one entry more.
    ghost after: { Self → ℕ → Self };

    ghost is_over: { Self → Bool };

    /// One entry more.
    fn offer(&mut self, x: u32)
        ensures { self.new ≡ after self.old x };

    /// Whether no further entry can change the collector.
    fn is_over(&self) -> bool
        ensures { result ≡ is_over self.now };

    // What each `impl` must prove.
    ghost stays: { StaysOnceOver after is_over };
}

/// The candidate offered, if it is to be kept.
pub fn offer_candidate<C: Collector>(out: &mut C, c: Candidate)
    ensures { out.new ≡ fold C.after out.old (keep_if c.kept c.entry) }
{
    if c.kept {
        out.offer(c.entry);
    }
}

/// How many pairs a list has, and whether a 257th was offered to it.
// By hand: no Option, since the clauses of `tally` say the count of a list that is over too.
#[derive(Clone, Copy)]
pub struct Tally {
    pub count: usize,
    pub over: bool,
}

/// A node's list: its pairs ascending in the first `count` entries, then zeros; over once a 257th was offered.
// By hand: an array with its count, since a node's list is built as `[0; 256]`, a form of document 01; a flag beside it,
// since the pairs of a list that is over stay.
#[derive(Clone, Copy)]
pub struct PairList {
    entries: [u32; 256],
    count: usize,
    over: bool,
}

impl Model for PairList {
    ghost use Rattle.std.specs.Prelude.{length, take};
    ghost use Rattle.filling.specs.Building.{Filling, state_of, pairs_of, went_over, padded, Held};
    ghost use Rattle.std.proofs.Common.{sym};
    ghost use Rattle.filling.specs.Fields.{held_made};

    ghost Value = { Filling };

    ghost view = { λ l. state_of l.over (take l.count l.entries) };

    ghost invariant = { λ l. Held l.count l.entries };

    ghost inverse = { λ f. record { entries = padded (pairs_of f); count = length (pairs_of f); over = went_over f } };

    ghost inverse_ok = { λ l h i. record {
      entries = sym (held_made l.over h).entries_are i;
      count = sym (held_made l.over h).count_is i;
      over = sym (held_made l.over h).over_is i;
    } };
}

// x put in at `at` among the first `count` entries.
// By hand: the array with its count, as in `PairList`.
#[tactic(auto, using(crate::proofs::Places::front_is, crate::proofs::Places::back_is))]
fn insert_at(entries: &mut [u32; 256], at: usize, count: usize, x: u32)
    requires within { at ≤ count }
    requires room { count < 256 }
    ensures front { take (count + 1) entries.new ≡ insert (take count entries.old) at x }
    ensures back { drop (count + 1) entries.new ≡ drop (count + 1) entries.old }
{
    entries[count] = x;
    entries[at..count + 1].rotate_right(1);
}

impl Collector for PairList {
    ghost use Rattle.filling.specs.Building.{offer, went_over, stays_over};

    ghost after = { offer };

    ghost is_over = { went_over };

    ghost stays = { stays_over };

    // x put at its place, unless it is there; over if it would be the 257th. A list that is over stays as it is.
    #[tactic(auto, using(crate::proofs::Fillings::over_offer))]
    fn offer(&mut self, x: u32) {
        if self.over {
            return;
        }
        let count = self.count;
        let Err(at) = self.entries[..count].binary_search(&x) else {
            return;
        };
        let is_full = count == 256;
        if is_full {
            self.over = true;
            return;
        }
        insert_at(&mut self.entries, at, count, x);
        self.count += 1;
    }

    #[tactic(auto, using(crate::specs::Fields::state_over))]
    fn is_over(&self) -> bool {
        self.over
    }
}

/// The entries into a section; into one shorter than 256, as much as it has room for.
#[tactic(auto, using(crate::proofs::Storing::stored_part))]
pub fn store(entries: &[u32; 256], section: &mut [u32])
    ensures { section.new ≡ stored entries.now section.old }
{
    let room = section.len().min(256);
    section[..room].copy_from_slice(&entries[..room]);
}

impl PairList {
    /// The list with no pair.
    #[tactic(auto, using(crate::proofs::Fillings::held_new), unfolding(crate::specs::Building::state_of))]
    pub fn new() -> PairList
        ensures { result ≡ fits [] }
    {
        PairList {
            entries: [0; 256],
            count: 0,
            over: false,
        }
    }

    /// Its pairs, ascending.
    #[tactic(auto, using(crate::specs::Fields::state_pairs))]
    pub fn pairs(&self) -> &[u32]
        ensures { result.now ≡ pairs_of self.now }
    {
        &self.entries[..self.count]
    }

    /// How many pairs it has, and whether it is over.
    #[tactic(auto, using(crate::proofs::Fillings::tally))]
    pub fn tally(&self) -> Tally
        ensures count { result.count ≡ length (pairs_of self.now) }
        ensures over { result.over ≡ went_over self.now }
    {
        Tally {
            count: self.count,
            over: self.over,
        }
    }

    /// The pairs and zeros behind them into a section; of one shorter than 256, as much as it has room for.
    #[tactic(auto, using(crate::specs::Fields::state_pairs))]
    pub fn store(&self, section: &mut [u32])
        ensures { section.new ≡ stored (padded (pairs_of self.now)) section.old }
    {
        store(&self.entries, section);
    }
}
