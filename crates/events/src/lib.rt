//! Sets of events by value, with room for 32 events: bit e of the number for event e.
#![tactic(auto)]

ghost use Rattle.std.specs.Prelude.{◌≡◌, min};
ghost use Rattle.events.specs.Sets.{room, has, is_empty, full, single, union, intersection, difference};
ghost use Rattle.events.specs.Sets.{complement, disjoint, included, count};
ghost use Rattle.events.specs.Laws.{SetLaws};

use std::marker::Model;
use std::ops::{BitAnd, BitOr, Sub};

/// A set of events.
#[derive(Clone, Copy, Debug, PartialEq, Eq)]
pub struct EventSet {
    bits: u32,
}

// Clauses see the number whose bit e stands for event e.
impl Model for EventSet {
    ghost use Rattle.std.specs.Prelude.{ℕ, ◌<◌, ◌^◌};

    ghost Value = { ℕ };

    ghost view = { λ s. s.bits };

    ghost invariant = { λ s. s.bits < 2 ^ 32 };

    ghost inverse = { λ n. record { bits = n } };
}

impl EventSet {
    /// The empty set.
    pub const EMPTY: EventSet = EventSet { bits: 0 };

    /// The set whose number has bit e for event e.
    pub fn from_bits(bits: u32) -> EventSet
        ensures { result ≡ bits }
    {
        EventSet { bits }
    }

    /// The number with bit e for event e.
    pub fn bits(self) -> u32
        ensures { result ≡ self }
    {
        let EventSet { bits } = self;
        bits
    }

    /// The full set of n events; of all 32 where n is more.
    #[tactic(auto, using(crate::proofs::Machine::full_is, crate::proofs::Machine::one_shifted))]
    pub fn full(n: u32) -> EventSet
        ensures { result ≡ full (min n room) }
    {
        match 1u32.checked_shl(n) {
            Some(next) => EventSet { bits: next - 1 },
            None => EventSet { bits: u32::MAX },
        }
    }

    /// The set of event e alone; the empty set where there is no room for e.
    #[tactic(auto, using(crate::proofs::Machine::single_shifted, crate::proofs::Machine::single_beyond))]
    pub fn single(e: u32) -> EventSet
        ensures { result ≡ single room e }
    {
        EventSet {
            bits: 1u32.checked_shl(e).unwrap_or(0),
        }
    }

    /// The events below n that are not in the set; for n above 32 as for 32.
    #[tactic(auto, using(crate::proofs::Widths::difference_widen, crate::proofs::Members::set_of_below))]
    pub fn complement(self, n: u32) -> EventSet
        ensures { result ≡ complement (min n room) self }
    {
        EventSet::full(n) - self
    }

    /// Whether event e is in the set; of an event that there is no room for, false.
    #[tactic(auto, using(crate::proofs::Tests::contains_is))]
    pub fn contains(self, e: u32) -> bool
        ensures { result ≡ has self e }
    {
        !self.is_disjoint(EventSet::single(e))
    }

    /// Whether every event of the set is in t.
    pub fn is_included(self, t: EventSet) -> bool
        ensures { result ≡ included room self t }
    {
        (self - t).is_empty()
    }

    /// Whether no event is in both sets.
    pub fn is_disjoint(self, t: EventSet) -> bool
        ensures { result ≡ disjoint room self t }
    {
        (self & t).is_empty()
    }

    /// Whether the set has no event.
    pub fn is_empty(self) -> bool
        ensures { result ≡ is_empty self }
    {
        self.bits == 0
    }

    /// How many events the set has.
    #[tactic(auto, using(crate::proofs::Machine::count_is))]
    pub fn count(self) -> u32
        ensures { result ≡ count room self }
    {
        self.bits.count_ones()
    }
}

/// The events in one set or the other.
#[tactic(auto, using(crate::proofs::Machine::union_is))]
impl BitOr for EventSet {
    type Output = EventSet;

    ghost bitor_gives = { λ s t r. r ≡ union room s t };

    fn bitor(self, t: EventSet) -> EventSet {
        EventSet {
            bits: self.bits | t.bits,
        }
    }
}

/// The events in both sets.
#[tactic(auto, using(crate::proofs::Machine::intersection_is))]
impl BitAnd for EventSet {
    type Output = EventSet;

    ghost bitand_gives = { λ s t r. r ≡ intersection room s t };

    fn bitand(self, t: EventSet) -> EventSet {
        EventSet {
            bits: self.bits & t.bits,
        }
    }
}

/// The events of the first set that are not in the second.
#[tactic(auto, using(crate::proofs::Machine::difference_is))]
impl Sub for EventSet {
    type Output = EventSet;

    ghost sub_gives = { λ s t r. r ≡ difference room s t };

    fn sub(self, t: EventSet) -> EventSet {
        EventSet {
            bits: self.bits & !t.bits,
        }
    }
}

/// What each operation on sets means, event by event.
#[tactic(auto, using(crate::proofs::Laws::set_laws))]
pub fn set_laws()
    ensures { SetLaws }
{}
