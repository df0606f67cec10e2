// What a packet is checked for, in the order of the refusals' numbers.
ghost use Rattle.std.specs.Prelude.{◌≡◌};
ghost use Rattle.tokens.specs.Meters.{packet_causes};
ghost use Rattle.tokens.specs.Refusals.{told_by, unless_refused};

use crate::refusal::Refusal;
use crate::time::Time;

// The moment of a packet. Refuses one of no tokens, and then a moment that cannot come after the latest one.
pub(crate) fn packet_moment(latest: Time, tokens: u32, moment: u64) -> Result<Time, Refusal>
    ensures { told_by (λ time. time.micros) result ≡ unless_refused (packet_causes latest.micros tokens moment) moment }
{
    if tokens == 0 {
        return Err(Refusal::NoTokens);
    }
    Ok(latest.next(moment)?)
}
