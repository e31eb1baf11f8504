// What has been read so far of a model file, and taking one record more.
#![tactic(auto)]

ghost use Rattle.std.specs.Prelude.{◌≡◌, ◌-◌};
ghost use Rattle.progress.specs.Progress.{start, with, used_with, take_record, Within};

use events::EventSet;
use records::{Kind, Record};

// What has been read so far.
#[derive(Clone, Copy, Debug, PartialEq, Eq)]
pub struct Progress {
    pub place: usize,
    pub n: u32,
    pub machines: u32,
    // of the latest machine
    pub states: u32,
    // over all machines
    pub steps: u32,
    // one above the latest machine's last step as one number; 0 before its first
    pub floor: u64,
    // the set of the latest machine's events
    pub events: EventSet,
    pub nodes: u32,
    pub leaves: u32,
    // the set of the nodes that are operands
    pub used: EventSet,
}

// The set with x in it; a silent label adds none.
pub fn with_member(set: EventSet, x: u32) -> EventSet
    ensures { result ≡ with set x }
{
    set | EventSet::single(x)
}

// One less; 0 where there is none.
pub fn one_less(k: u32) -> u32
    ensures { result ≡ k - 1 }
{
    k.saturating_sub(1)
}

// The operands used so far, with those of r.
#[tactic(auto, unfolding(crate::specs::Progress::used_with))]
fn used_with(g: Progress, r: Record) -> EventSet
    ensures { result ≡ used_with g r }
{
    match Kind::try_from(r.kind) {
        Ok(Kind::Join) => with_member(with_member(g.used, r.left), r.right),
        Ok(Kind::Hide | Kind::Rename) => with_member(g.used, r.left),
        _ => g.used,
    }
}

impl Progress {
    // Nothing read yet.
    #[tactic(auto, unfolding(crate::specs::Progress::start))]
    pub fn start() -> Progress
        ensures { result ≡ start }
    {
        Progress {
            place: 0,
            n: 0,
            machines: 0,
            states: 0,
            steps: 0,
            floor: 0,
            events: EventSet::EMPTY,
            nodes: 0,
            leaves: 0,
            used: EventSet::EMPTY,
        }
    }

    // What is read so far once r is taken.
    #[tactic(auto, using(records::proofs::Sizes::size_most), unfolding(crate::specs::Progress::take_record))]
    pub fn take(self, r: Record) -> Progress
        requires { Within self }
        ensures { result ≡ take_record self r }
    {
        let mut next = self;
        next.place += records::size_of(r.kind);
        next.used = used_with(self, r);
        match Kind::try_from(r.kind) {
            Ok(Kind::Header) => Progress {
                n: r.number,
                ..next
            },
            Ok(Kind::Machine) => Progress {
                machines: next.machines + 1,
                states: r.number,
                floor: 0,
                events: EventSet::EMPTY,
                ..next
            },
            Ok(Kind::Step) => Progress {
                steps: next.steps + 1,
                floor: r.key() + 1,
                events: with_member(next.events, r.label),
                ..next
            },
            Ok(Kind::Leaf) => Progress {
                nodes: next.nodes + 1,
                leaves: next.leaves + 1,
                ..next
            },
            Ok(Kind::Join | Kind::Hide | Kind::Rename) => Progress {
                nodes: next.nodes + 1,
                ..next
            },
            Ok(Kind::End) | Err(_) => next,
        }
    }
}
