// The rate and the burst of a meter, which never change, and what follows from them alone.
ghost use Rattle.std.specs.Prelude.{◌≡◌, ◌*◌, ◌≤◌};
ghost use Rattle.tokens.specs.Meters.{fresh, new_told};
ghost use Rattle.tokens.specs.Refusals.{told_by};
ghost use Rattle.tokens.specs.Units.{grains as in_grains, day_end, highest_rate, largest_burst};

use crate::refusal::Refusal;
use crate::time::Time;
use crate::units::{GRAINS_PER_TOKEN, HIGHEST_RATE, LARGEST_BURST};

#[derive(Clone, Copy)]
pub(crate) struct Limits {
    rate: u64,
    burst: u64,
    ghost some_rate: { 1 ≤ rate },
    ghost rate_bound: { rate ≤ highest_rate },
    ghost some_burst: { 1 ≤ burst },
    ghost burst_bound: { burst ≤ largest_burst },
}

impl Limits {
    // Refuses a rate or a burst that no meter takes.
    pub(crate) fn new(rate: u64, burst: u64) -> Result<Self, Refusal>
        ensures { told_by (λ l. fresh l.rate l.burst) result ≡ new_told rate burst }
    {
        if !(1..=HIGHEST_RATE).contains(&rate) || !(1..=LARGEST_BURST).contains(&burst) {
            return Err(Refusal::RateOrBurst);
        }
        Ok(Limits { rate, burst })
    }

    // The level of a full meter.
    pub(crate) fn full(&self) -> u64
        ensures value { result ≡ in_grains self.now.burst }
        ensures bound { result ≤ in_grains largest_burst }
    {
        GRAINS_PER_TOKEN * self.burst
    }

    // What the rate brings in a time, in grains.
    #[tactic(auto, using(crate::proofs::Products::day_of_grains))]
    pub(crate) fn gained(&self, time: Time) -> u64
        ensures value { result ≡ self.now.rate * time.micros }
        ensures bound { result ≤ highest_rate * day_end }
    {
        self.rate * time.micros
    }
}
