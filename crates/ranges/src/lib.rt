// Test 5: whether a number of a record lies outside its range.
#![tactic(auto)]

ghost use Rattle.std.specs.Prelude.{◌≡◌};
ghost use Rattle.ranges.specs.Ranges.{outside, wrong_set, wrong_target, wrong_targets, wrong_step, out_of_range};

use events::EventSet;
use progress::Progress;
use records::{Kind, Record};

// A number outside least to most.
fn is_outside(least: u32, most: u32, x: u32) -> bool
    ensures { result ≡ outside least most x }
{
    !(least..=most).contains(&x)
}

// A set bit not below n.
fn wrong_set(n: u32, set: u32) -> bool
    ensures { result ≡ wrong_set n set }
{
    let s = EventSet::from_bits(set);
    !s.is_included(EventSet::full(n))
}

// For i below n, a target not below n; for other i, a target that is not i.
fn wrong_target(n: u32, i: u32, target: u32) -> bool
    ensures { result ≡ wrong_target n i target }
{
    if i < n { n <= target } else { target != i }
}

fn wrong_targets(n: u32, targets: [u32; 16]) -> bool
    ensures { result ≡ wrong_targets n 0 targets }
{
    targets
        .iter()
        .enumerate()
        .any(|(i, target)| wrong_target(n, i as u32, *target))
}

// A state or the label of a step outside its range.
fn wrong_step(g: &Progress, r: Record) -> bool
    ensures { result ≡ wrong_step g.now r }
{
    g.states <= r.from || (g.n <= r.label && r.label != records::SILENT) || g.states <= r.to
}

// 5: n, state count, state, label, machine number, target or set outside its range.
pub fn out_of_range(g: &Progress, r: Record) -> bool
    ensures { result ≡ out_of_range g.now r }
{
    match Kind::try_from(r.kind) {
        Ok(Kind::Header) => is_outside(1, 16, r.number),
        Ok(Kind::Machine) => is_outside(1, 32, r.number),
        Ok(Kind::Step) => wrong_step(g, r),
        Ok(Kind::Leaf) => g.machines <= r.number,
        Ok(Kind::Join | Kind::Hide) => wrong_set(g.n, r.set),
        Ok(Kind::Rename) => wrong_targets(g.n, r.targets),
        Ok(Kind::End) | Err(_) => false,
    }
}
