// Virtual scheduling: a meter that stores when the next packet is due, its theoretical arrival time. Times the
// rate, so that it is whole grains.
ghost use Rattle.std.specs.Prelude.{◌≡◌, ◌+◌, ◌-◌, ◌*◌, ◌≤◌};
ghost use Rattle.tokens.specs.Units.{grains as in_grains, day_end, highest_rate};
ghost use Rattle.std.proofs.Common.{rules};

use crate::checks::packet_moment;
use crate::limits::Limits;
use crate::meter::Meter;
use crate::refusal::Refusal;
use crate::time::Time;
use crate::units::grains;

#[derive(Clone, Copy)]
pub struct VirtualScheduling {
    limits: Limits,
    latest: Time,
    due: u64,
    ghost due_bound: { due ≤ in_grains limits.burst + limits.rate * latest.micros },
}

impl VirtualScheduling {
    // A moment that is not before the latest one, times the rate; and how that compares with the latest one.
    #[tactic(auto, using(crate::proofs::Products::gained_since_start))]
    fn arrival(&self, moment: Time) -> u64
        requires { self.now.latest.micros ≤ moment.micros }
        ensures value { result ≡ self.now.limits.rate * moment.micros }
        ensures parts { result ≡ self.now.limits.rate * self.now.latest.micros + self.now.limits.rate * (moment.micros - self.now.latest.micros) }
        ensures bound { result ≤ highest_rate * day_end }
    {
        self.limits.gained(moment)
    }
}

impl Meter for VirtualScheduling {
    ghost meaning = { λ m. record { rate = m.limits.rate; burst = m.limits.burst; latest = m.latest.micros; level = in_grains m.limits.burst - (m.due - m.limits.rate * m.latest.micros) } };

    ghost sound = { Prim.search rules };

    fn new(rate: u64, burst: u64) -> Result<Self, Refusal> {
        let limits = Limits::new(rate, burst)?;
        Ok(VirtualScheduling {
            limits,
            latest: Time::start(),
            due: 0,
        })
    }

    fn charge(&mut self, tokens: u32, moment: u64) -> Result<bool, Refusal> {
        let moment = packet_moment(self.latest, tokens, moment)?;
        let arrival = self.arrival(moment);
        let next = self.due.max(arrival) + grains(tokens);
        let passes = next <= arrival + self.limits.full();
        self.latest = moment;
        if passes {
            self.due = next;
        }
        Ok(passes)
    }

    fn wait(&mut self, moment: u64) -> Result<(), Refusal> {
        let moment = self.latest.next(moment)?;
        // A due time that has passed is worth the present.
        self.due = self.due.max(self.arrival(moment));
        self.latest = moment;
        Ok(())
    }
}
