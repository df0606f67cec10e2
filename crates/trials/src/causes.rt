// Why the second implementations refuse a call, under the numbers that customers know. The libraries' own enums are
// not used, and what is told is compared by number: so the trials try `Refusal::number` too.

#[derive(Clone, Copy, PartialEq, Eq, Debug)]
pub enum Cause {
    Rate = 1,
    Maximum = 2,
    Volume = 3,
    NinthFlow = 4,
    SumOfRates = 5,
    BothFlags = 6,
    Buckets = 7,
    NoTokens = 8,
    Rank = 9,
    BeforeLatest = 10,
    AfterDayEnd = 11,
    RateOrBurst = 16,
}

impl Cause {
    pub fn number(self) -> u8 {
        self as u8
    }
}
