// One bucket of a column in an update: what comes to it, what it adds, and what it passes on.
ghost use Rattle.std.specs.Prelude.{◌≡◌, ◌*◌, ◌≤◌};
ghost use Rattle.envelopes.specs.Growth.{added as added_by, coming as coming_to, limited as limited_by, overflow as overflow_of};
ghost use Rattle.envelopes.specs.Profiles.{maximum_or_0};
ghost use Rattle.envelopes.specs.Rows.{largest_flow_volume};
ghost use Rattle.tokens.specs.Units.{day_end, highest_rate};

use crate::flow::Supply;
use tokens::time::Time;
use tokens::units::GRAINS_PER_TOKEN;

/// What supplies the bucket, what comes to it besides its rate and the overflow of the rank above, whether its own
/// overflow is withheld from the rank below, and what it holds.
// `withheld` is a fact of its own: no field beside it depends on it.
#[derive(Clone, Copy)]
pub(crate) struct Lane {
    pub(crate) supply: Supply,
    pub(crate) besides: u64,
    pub(crate) withheld: bool,
    pub(crate) count: u64,
}

// What a bucket adds, and what it does not.
#[derive(Clone, Copy, Default)]
pub(crate) struct Settled {
    pub(crate) added: u64,
    pub(crate) overflow: u64,
}

// What a maximum rate, if there is one, lets through in a time.
fn limited(maximum: Option<u64>, time: Time, coming: u64) -> u64
    requires { maximum_or_0 maximum ≤ highest_rate }
    ensures { result ≡ limited_by maximum time.micros coming }
{
    match maximum {
        None => coming,
        Some(maximum) => coming.min(maximum * time.micros),
    }
}

impl Lane {
    // The rank above hands down so much.
    pub(crate) fn settle(self, time: Time, handed: u64) -> Settled
        requires maximum { maximum_or_0 self.supply.maximum ≤ highest_rate }
        requires volume { self.supply.volume ≤ largest_flow_volume }
        requires income { coming_to time.micros handed self ≤ highest_rate * day_end }
        ensures added { result.added ≡ added_by time.micros handed self }
        ensures overflow { result.overflow ≡ overflow_of time.micros handed self }
    {
        let coming = self.supply.rate * time.micros + (self.besides + handed);
        let room = (GRAINS_PER_TOKEN * self.supply.volume).saturating_sub(self.count);
        let added = limited(self.supply.maximum, time, coming).min(room);
        Settled {
            added,
            overflow: coming - added,
        }
    }
}
