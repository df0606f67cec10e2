// Why a call is refused.
ghost use Rattle.std.specs.Prelude.{◌≡◌};
ghost use Rattle.envelopes.specs.Refusals.{number as number_of, of_moment};

use tokens::time::MomentRefusal;

// An enum of this layer's own, though meters refuse with 8, 10 and 11 too: one for both would give each caller cases
// that cannot come.
/// Each is the number under which customers know it.
#[derive(Clone, Copy, PartialEq, Eq, Debug)]
pub enum Refusal {
    Rate = 1,
    Maximum = 2,
    Volume = 3,
    NinthFlow = 4,
    SumOfRates = 5,
    BothFlags = 6,
    Buckets = 7,
    NoTokens = 8,
    Rank = 9,
    BeforeLatest = 10,
    AfterDayEnd = 11,
}

impl Refusal {
    /// The number under which customers know the refusal.
    pub fn number(self) -> u8
        ensures { result ≡ number_of self }
    {
        self as u8
    }
}

impl From<MomentRefusal> for Refusal {
    ghost from_gives = { λ cause refusal. refusal ≡ of_moment cause };

    fn from(cause: MomentRefusal) -> Self {
        match cause {
            MomentRefusal::TooEarly => Refusal::BeforeLatest,
            MomentRefusal::TooLate => Refusal::AfterDayEnd,
        }
    }
}
