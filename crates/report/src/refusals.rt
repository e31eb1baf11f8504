// A refusal as it is printed, of whatever type it is: its number and its place.
#![tactic(auto)]

ghost use Rattle.std.specs.Prelude.{◌≡◌, ℕ};

use tests::Refusal;

// A refusal with any number, also one that no reason has.
#[derive(Clone, Copy, Debug, PartialEq, Eq)]
pub struct AnyRefusal {
    pub number: u32,
    pub place: usize,
}

// What says a refusal: a number and a place.
pub trait Numbered: Copy {
    ghost number_of: { Self → ℕ };

    ghost place_of: { Self → ℕ };

    // The number and the place that are printed.
    fn said(self) -> AnyRefusal
        ensures number { result.number ≡ number_of self }
        ensures place { result.place ≡ place_of self };
}

impl Numbered for Refusal {
    ghost use Rattle.tests.specs.Reasons.{number_of as number_of_reason};

    ghost number_of = { λ f. number_of_reason f.reason };

    ghost place_of = { λ f. f.place };

    fn said(self) -> AnyRefusal {
        let Refusal { reason, place } = self;
        AnyRefusal {
            number: reason.number(),
            place,
        }
    }
}

impl Numbered for AnyRefusal {
    ghost number_of = { λ f. f.number };

    ghost place_of = { λ f. f.place };

    fn said(self) -> AnyRefusal {
        self
    }
}
