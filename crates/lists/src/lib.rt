//! The list of a join, a hide or a rename, from the lists of its operands: loops that offer the candidates to any
//! collector and are left when that is over (a join's first loop after the row in which it came over).
#![tactic(auto)]

ghost use mathlib.Core.List.{map, flat_map};
ghost use Rattle.std.specs.Prelude.{◌≡◌, fold};
ghost use Rattle.network.specs.Lists.{alone_candidate, join_candidates, hide_candidate, rename_candidate};
ghost use Rattle.entries.specs.Entries.{width};
ghost use Rattle.filling.specs.Building.{filled};
ghost use Rattle.lists.specs.Promise.{PackedIsFound, FoundIsPacked, JoinGivesRule, HideGivesRule, RenameGivesRule};
ghost use Rattle.lists.specs.Promise.{ListsInside, OrderDoesNotMatter, OverStaysOver};

use events::EventSet;
use filling::{Collector, PairList, offer_candidate};

/// Offers a join's candidates over a: by left then right, then left alone, then right alone.
pub fn offer_join<C: Collector>(out: &mut C, xs: &[u32], ys: &[u32], a: EventSet)
    ensures { out.new ≡ fold C.after out.old (join_candidates width a xs.now ys.now) }
{
    'left: for x in xs {
        if out.is_over() {
            return;
        }
        'right: for y in ys {
            offer_candidate(out, entries::together(*x, *y, a));
        }
    }
    offer_alone(out, xs, a);
    offer_alone(out, ys, a);
}

// Offers what the entries of one side yield alone at a join over a.
fn offer_alone<C: Collector>(out: &mut C, xs: &[u32], a: EventSet)
    ensures { out.new ≡ fold C.after out.old (flat_map (alone_candidate width a) xs.now) }
{
    for x in xs {
        if out.is_over() {
            return;
        }
        offer_candidate(out, entries::alone(*x, a));
    }
}

// By hand: a loop each for a hide, a rename and one side alone; over a closure the clause would be about its answers.
/// Offers what each entry of the operand's list yields at a hide of a.
pub fn offer_hide<C: Collector>(out: &mut C, xs: &[u32], a: EventSet)
    ensures { out.new ≡ fold C.after out.old (map (hide_candidate width a) xs.now) }
{
    for x in xs {
        if out.is_over() {
            return;
        }
        out.offer(entries::hidden(*x, a));
    }
}

/// Offers what each entry of the operand's list yields at a rename.
pub fn offer_rename<C: Collector>(out: &mut C, xs: &[u32], targets: [u32; 16])
    ensures { out.new ≡ fold C.after out.old (map (rename_candidate width targets) xs.now) }
{
    for x in xs {
        if out.is_over() {
            return;
        }
        out.offer(entries::renamed(*x, targets));
    }
}

// By hand: three times a new list, offers to it, and the list; one function over a closure that offers is no plainer.
/// The list of a join over a, from the lists of its two operands.
#[tactic(auto, using(filling::proofs::Loops::fold_filled))]
pub fn join(xs: &[u32], ys: &[u32], a: EventSet) -> PairList
    ensures { result ≡ filled (join_candidates width a xs.now ys.now) }
{
    let mut list = PairList::new();
    offer_join(&mut list, xs, ys, a);
    list
}

/// The list of a hide of a, from its operand's list.
#[tactic(auto, using(filling::proofs::Loops::fold_filled))]
pub fn hide(xs: &[u32], a: EventSet) -> PairList
    ensures { result ≡ filled (map (hide_candidate width a) xs.now) }
{
    let mut list = PairList::new();
    offer_hide(&mut list, xs, a);
    list
}

/// The list of a rename, from its operand's list.
#[tactic(auto, using(filling::proofs::Loops::fold_filled))]
pub fn rename(xs: &[u32], targets: [u32; 16]) -> PairList
    ensures { result ≡ filled (map (rename_candidate width targets) xs.now) }
{
    let mut list = PairList::new();
    offer_rename(&mut list, xs, targets);
    list
}

// The crate's promises, a function for each statement of specs/Promise.antt: its clause is the statement.

/// What is packed into an entry is found again.
#[tactic(auto, using(crate::proofs::Promise::packed_is_found))]
pub fn packed_is_found()
    ensures { PackedIsFound }
{}

/// Every entry is what its two sets pack to.
#[tactic(auto, using(crate::proofs::Promise::found_is_packed))]
pub fn found_is_packed()
    ensures { FoundIsPacked }
{}

/// A join of lists of n events gives the list of its rule for n events, or is over.
#[tactic(auto, using(crate::proofs::Promise::join_gives_rule))]
pub fn join_gives_rule()
    ensures { JoinGivesRule }
{}

/// So does a hide.
#[tactic(auto, using(crate::proofs::Promise::hide_gives_rule))]
pub fn hide_gives_rule()
    ensures { HideGivesRule }
{}

/// So does a rename.
#[tactic(auto, using(crate::proofs::Promise::rename_gives_rule))]
pub fn rename_gives_rule()
    ensures { RenameGivesRule }
{}

/// The entries of every node's list have n events.
#[tactic(auto, using(crate::proofs::Promise::lists_inside))]
pub fn lists_inside()
    ensures { ListsInside }
{}

/// The order in which candidates come, and repeats, do not matter.
#[tactic(auto, using(crate::proofs::Promise::order_does_not_matter))]
pub fn order_does_not_matter()
    ensures { OrderDoesNotMatter }
{}

/// A list that is over stays over.
#[tactic(auto, using(crate::proofs::Promise::over_stays_over))]
pub fn over_stays_over()
    ensures { OverStaysOver }
{}
