// A single-rate meter by windows, written from the rule: a packet passes where it is no larger than the burst and,
// counted from each packet that passed before, all that passed since then is at most the burst and what the rate
// brings in the time since then. There is no level. Numbers are of 128 bits, and no sum comes near that.
use crate::causes::Cause;
use crate::limits::{HIGHEST_RATE, LARGEST_BURST, check_moment, grains};
use std::alloc::{AllocError, Global};
use tokens::calls::{Answer, Call};

// A packet that passed.
#[derive(Clone, Copy)]
struct Packet {
    tokens: u32,
    moment: u64,
}

// The rate and the burst of a meter.
#[derive(Clone, Copy)]
pub struct Limits {
    pub rate: u64,
    pub burst: u64,
}

// Of the worked figure.
pub const FIGURE: Limits = Limits {
    rate: 1_000,
    burst: 1_500,
};

#[derive(Drop)]
pub struct Windows {
    rate: u128,
    burst: u128,
    latest: u64,
    passed: Vec<Packet>,
}

// By hand: the library's conversion is among what is tried.
fn answer(passes: bool) -> Answer {
    if passes { Answer::Yes } else { Answer::No }
}

impl Windows {
    pub fn new(heap: Global, limits: Limits) -> Result<Windows, Cause> {
        let Limits { rate, burst } = limits;
        if !(1..=HIGHEST_RATE).contains(&rate) || !(1..=LARGEST_BURST).contains(&burst) {
            return Err(Cause::RateOrBurst);
        }
        Ok(Windows {
            rate: u128::from(rate),
            burst: u128::from(burst),
            latest: 0,
            passed: Vec::new(heap),
        })
    }

    pub fn latest(&self) -> u64 {
        self.latest
    }

    fn passes(&self, tokens: u32, moment: u64) -> bool {
        let mut sum = u128::from(tokens);
        if sum > self.burst {
            return false;
        }
        // A loop: the sum runs on.
        for packet in self.passed.iter().rev() {
            sum = sum.saturating_add(u128::from(packet.tokens));
            let time = u128::from(moment.saturating_sub(packet.moment));
            let room = grains(self.burst).saturating_add(self.rate.saturating_mul(time));
            if grains(sum) > room {
                return false;
            }
        }
        true
    }

    // Whether a packet passes.
    fn question(&self, tokens: u32, moment: u64) -> Result<bool, Cause> {
        if tokens == 0 {
            return Err(Cause::NoTokens);
        }
        check_moment(self.latest, moment)?;
        Ok(self.passes(tokens, moment))
    }

    // The same, unless there is no memory for one packet more.
    fn charge(&mut self, tokens: u32, moment: u64) -> Result<Result<bool, Cause>, AllocError> {
        let told = self.question(tokens, moment);
        if let Ok(passes) = told {
            self.latest = moment;
            if passes {
                self.passed.push(Packet { tokens, moment })?;
            }
        }
        Ok(told)
    }

    fn wait(&mut self, moment: u64) -> Result<(), Cause> {
        check_moment(self.latest, moment)?;
        self.latest = moment;
        Ok(())
    }

    // What is told, unless there is no memory for one packet more.
    pub fn put(&mut self, call: Call) -> Result<Result<Answer, Cause>, AllocError> {
        Ok(match call {
            Call::Question { tokens, moment } => self.question(tokens, moment).map(answer),
            Call::Charge { tokens, moment } => self.charge(tokens, moment)?.map(answer),
            Call::Wait { moment } => self.wait(moment).map(|()| Answer::Moved),
        })
    }
}
