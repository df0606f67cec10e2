// The continuous token bucket: a meter that stores its level.
ghost use Rattle.std.specs.Prelude.{◌≡◌, ◌-◌, ◌≤◌};
ghost use Rattle.tokens.specs.Meters.{grown};
ghost use Rattle.tokens.specs.Units.{grains as in_grains, day_end};
ghost use Rattle.std.proofs.Common.{rules};

use crate::checks::packet_moment;
use crate::limits::Limits;
use crate::meter::Meter;
use crate::refusal::Refusal;
use crate::time::Time;
use crate::units::grains;

#[derive(Clone, Copy)]
pub struct TokenBucket {
    limits: Limits,
    latest: Time,
    level: u64,
    ghost level_bound: { level ≤ in_grains limits.burst },
}

impl TokenBucket {
    // The level at a moment that is not before the latest one.
    fn level_at(&self, moment: Time) -> u64
        ensures { result ≡ grown self.now.limits.rate self.now.limits.burst self.now.level (moment.micros - self.now.latest.micros) }
    {
        let uncapped = self.level + self.limits.gained(moment.since(self.latest));
        uncapped.min(self.limits.full())
    }
}

impl Meter for TokenBucket {
    ghost meaning = { λ m. record { rate = m.limits.rate; burst = m.limits.burst; latest = m.latest.micros; level = m.level } };

    ghost sound = { Prim.search rules };

    fn new(rate: u64, burst: u64) -> Result<Self, Refusal> {
        let limits = Limits::new(rate, burst)?;
        let level = limits.full();
        Ok(TokenBucket {
            limits,
            latest: Time::start(),
            level,
        })
    }

    fn charge(&mut self, tokens: u32, moment: u64) -> Result<bool, Refusal> {
        let moment = packet_moment(self.latest, tokens, moment)?;
        let amount = grains(tokens);
        let level = self.level_at(moment);
        let passes = amount <= level;
        self.latest = moment;
        self.level = if passes { level - amount } else { level };
        Ok(passes)
    }

    fn wait(&mut self, moment: u64) -> Result<(), Refusal> {
        let moment = self.latest.next(moment)?;
        self.level = self.level_at(moment);
        self.latest = moment;
        Ok(())
    }
}
