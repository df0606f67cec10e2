// Moments of a service day, and the times between them.
ghost use Rattle.std.specs.Prelude.{◌≡◌, ◌-◌, ◌≤◌};
ghost use Rattle.tokens.specs.Units.{day_end};

use crate::units::DAY_END;

/// Why a moment cannot come next.
#[derive(Clone, Copy, PartialEq, Eq, Debug)]
pub enum MomentRefusal {
    TooEarly,
    TooLate,
}

/// Microseconds within one service day: since it began, which is a moment, or between two moments.
#[derive(Clone, Copy, PartialEq, Eq, Debug)]
pub struct Time {
    pub micros: u64,
    ghost within_day: { micros ≤ day_end },
}

impl Time {
    ghost use Rattle.tokens.specs.Meters.{moment_causes};
    ghost use Rattle.tokens.specs.Refusals.{moment_told, unless_refused};

    /// The moment at which a day begins.
    pub fn start() -> Self
        ensures { result.micros ≡ 0 }
    {
        Time { micros: 0 }
    }

    /// A moment after this one. Refuses one that is before it, or past the day's end.
    pub fn next(self, moment: u64) -> Result<Self, MomentRefusal>
        ensures { moment_told (λ time. time.micros) result ≡ unless_refused (moment_causes self.micros moment) moment }
    {
        if moment < self.micros {
            return Err(MomentRefusal::TooEarly);
        }
        if moment > DAY_END {
            return Err(MomentRefusal::TooLate);
        }
        Ok(Time { micros: moment })
    }

    /// The time from an earlier moment to this one, 0 where it is not earlier.
    pub fn since(self, earlier: Self) -> Self
        ensures { result.micros ≡ self.micros - earlier.micros }
    {
        Time {
            micros: self.micros.saturating_sub(earlier.micros),
        }
    }
}
