// Units and limits, written anew from the rules: a wrong one in the libraries would be seen.
use crate::causes::Cause;

pub const GRAINS_PER_TOKEN: u64 = 1_000_000;

// So many tokens, in grains.
pub fn grains(tokens: u128) -> u128 {
    tokens.saturating_mul(u128::from(GRAINS_PER_TOKEN))
}

// The last moment of a service day, in microseconds.
pub const DAY_END: u64 = 24 * 60 * 60 * 1_000_000;

// A moment is no earlier than the latest one, and in the service day.
pub fn check_moment(latest: u64, moment: u64) -> Result<(), Cause> {
    if moment < latest {
        Err(Cause::BeforeLatest)
    } else if moment > DAY_END {
        Err(Cause::AfterDayEnd)
    } else {
        Ok(())
    }
}

// In tokens a second.
pub const HIGHEST_RATE: u64 = 100_000_000;

// Of a flow's bucket and of a meter, in tokens.
pub const LARGEST_VOLUME: u64 = 1_000_000_000;

pub const LARGEST_BURST: u64 = 1_000_000_000;
