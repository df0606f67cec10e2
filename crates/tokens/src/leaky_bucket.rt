// The leaky bucket: a meter that stores its backlog, which is what is missing from a full one.
ghost use Rattle.std.specs.Prelude.{◌≡◌, ◌-◌, ◌*◌, ◌≤◌};
ghost use Rattle.tokens.specs.Units.{grains as in_grains, day_end};
ghost use Rattle.std.proofs.Common.{rules};

use crate::checks::packet_moment;
use crate::limits::Limits;
use crate::meter::Meter;
use crate::refusal::Refusal;
use crate::time::Time;
use crate::units::grains;

#[derive(Clone, Copy)]
pub struct LeakyBucket {
    limits: Limits,
    latest: Time,
    backlog: u64,
    ghost backlog_bound: { backlog ≤ in_grains limits.burst },
}

impl LeakyBucket {
    // What has not yet drained at a moment that is not before the latest one.
    fn backlog_at(&self, moment: Time) -> u64
        ensures { result ≡ self.now.backlog - self.now.limits.rate * (moment.micros - self.now.latest.micros) }
    {
        let drained = self.limits.gained(moment.since(self.latest));
        self.backlog.saturating_sub(drained)
    }
}

impl Meter for LeakyBucket {
    ghost meaning = { λ m. record { rate = m.limits.rate; burst = m.limits.burst; latest = m.latest.micros; level = in_grains m.limits.burst - m.backlog } };

    ghost sound = { Prim.search rules };

    fn new(rate: u64, burst: u64) -> Result<Self, Refusal> {
        let limits = Limits::new(rate, burst)?;
        Ok(LeakyBucket {
            limits,
            latest: Time::start(),
            backlog: 0,
        })
    }

    fn charge(&mut self, tokens: u32, moment: u64) -> Result<bool, Refusal> {
        let moment = packet_moment(self.latest, tokens, moment)?;
        let backlog = self.backlog_at(moment);
        let filled = backlog + grains(tokens);
        let passes = filled <= self.limits.full();
        self.latest = moment;
        self.backlog = if passes { filled } else { backlog };
        Ok(passes)
    }

    fn wait(&mut self, moment: u64) -> Result<(), Refusal> {
        let moment = self.latest.next(moment)?;
        self.backlog = self.backlog_at(moment);
        self.latest = moment;
        Ok(())
    }
}
