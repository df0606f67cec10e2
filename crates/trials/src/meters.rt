// The three forms of meter against the meter by windows.
use crate::causes::Cause;
use crate::chance::Chance;
use crate::counted::assert_came;
use crate::limits::{DAY_END, GRAINS_PER_TOKEN, HIGHEST_RATE, LARGEST_BURST};
use crate::windows::{FIGURE, Limits, Windows};
use std::alloc::AllocGlobal;
use std::process::Abort;
use std::test::Fail;
use tokens::calls::{Answer, Call, alike, put, worked_figure};
use tokens::leaky_bucket::LeakyBucket;
use tokens::meter::Meter;
use tokens::refusal::Refusal;
use tokens::token_bucket::TokenBucket;
use tokens::virtual_scheduling::VirtualScheduling;

const RATES: [u64; 6] = [1, 2, 1_000, 125_000, 99_999_999, 100_000_000];

const BURSTS: [u64; 6] = [1, 2, 1_500, 65_536, 999_999_999, 1_000_000_000];

// A meter in each of the three forms.
#[derive(Clone, Copy)]
struct Forms {
    token: TokenBucket,
    schedule: VirtualScheduling,
    leaky: LeakyBucket,
}

impl Forms {
    fn new(limits: Limits) -> Result<Forms, Refusal> {
        let Limits { rate, burst } = limits;
        Ok(Forms {
            token: TokenBucket::new(rate, burst)?,
            schedule: VirtualScheduling::new(rate, burst)?,
            leaky: LeakyBucket::new(rate, burst)?,
        })
    }

    // All three tell what is expected.
    fn tell(&mut self, rt: &impl Abort, call: Call, expected: Result<Answer, Cause>) {
        let told = [
            put(&mut self.token, call),
            put(&mut self.schedule, call),
            put(&mut self.leaky, call),
        ];
        for one in told {
            assert_eq!(rt;
                one.map_err(Refusal::number),
                expected.map_err(Cause::number)
            );
        }
    }
}

// A number of tokens: an edge, about the burst, or any.
fn any_tokens(chance: &mut Chance, burst: u64) -> u32 {
    let edges = [
        0,
        1,
        1,
        2,
        burst.saturating_sub(1),
        burst,
        burst.saturating_add(1),
        4_294_967_295,
        chance.between(1, burst),
        chance.between(1, burst / 3 + 1),
        chance.between(1, burst / 3 + 1),
    ];
    u32::try_from(chance.pick(&edges)).unwrap_or(1)
}

// A moment: an edge, before the latest one, or about when so many tokens have come in.
fn any_moment(chance: &mut Chance, latest: u64, rate: u64, tokens: u32) -> u64 {
    let due = latest.saturating_add(
        u64::from(tokens).saturating_mul(GRAINS_PER_TOKEN) / rate.max(1),
    );
    let edges = [
        latest,
        latest,
        latest.saturating_add(1),
        due,
        due.saturating_add(1),
        due.saturating_sub(1),
        latest.saturating_add(chance.between(0, 2_000)),
        latest.saturating_add(chance.between(0, 2_000_000)),
    ];
    let rare = [
        latest.saturating_sub(1),
        0,
        DAY_END,
        DAY_END + 1,
        u64::MAX,
        latest.saturating_add(3_600_000_000),
    ];
    if chance.one_in(20) {
        chance.pick(&rare)
    } else {
        chance.pick(&edges)
    }
}

fn any_call(chance: &mut Chance, latest: u64, limits: Limits) -> Call {
    let tokens = any_tokens(chance, limits.burst);
    let moment = any_moment(chance, latest, limits.rate, tokens);
    match chance.between(0, 9) {
        0 => Call::Wait { moment },
        1..=2 => Call::Question { tokens, moment },
        _ => Call::Charge { tokens, moment },
    }
}

// One of the edges, or any number up to the highest.
fn any_limit(chance: &mut Chance, edges: &[u64], highest: u64) -> u64 {
    if chance.one_in(4) {
        chance.between(1, highest)
    } else {
        chance.pick(edges)
    }
}

// One sequence of calls upon all three forms and the meter by windows.
fn sequence(
    rt: &(impl Abort + AllocGlobal),
    seed: u64,
    told: &mut Vec<Result<Answer, Cause>>,
) -> Result<(), Fail> {
    let mut chance = Chance::new(seed);
    let limits = Limits {
        rate: any_limit(&mut chance, &RATES, HIGHEST_RATE),
        burst: any_limit(&mut chance, &BURSTS, LARGEST_BURST),
    };
    let mut windows = Windows::new(rt.alloc(), limits)?;
    let mut forms = Forms::new(limits)?;
    for _ in 0..150 {
        let call = any_call(&mut chance, windows.latest(), limits);
        let expected = windows.put(call)?;
        forms.tell(rt, call, expected);
        told.push(expected)?;
    }
    Ok(())
}

#[test]
fn three_forms_agree_with_windows(rt: HostRuntime) -> Result<(), Fail> {
    let mut told = Vec::new(rt.alloc());
    for seed in 0..600 {
        sequence(&rt, seed, &mut told)?;
    }
    let least = [
        (Ok(Answer::Yes), 5_000),
        (Ok(Answer::No), 5_000),
        (Ok(Answer::Moved), 1_000),
        (Err(Cause::NoTokens), 500),
        (Err(Cause::BeforeLatest), 500),
        (Err(Cause::AfterDayEnd), 500),
    ];
    assert_came(&rt, told.as_slice(), &least);
    Ok(())
}

// Whether a form takes a rate and a burst.
fn try_limits<M: Meter>(limits: Limits) -> Result<(), Refusal> {
    M::new(limits.rate, limits.burst).map(|_| ())
}

// All three forms take the limits, or refuse them, as expected.
fn assert_taken(rt: &impl Abort, limits: Limits, expected: Result<(), Cause>) {
    let told = [
        try_limits::<TokenBucket>(limits),
        try_limits::<VirtualScheduling>(limits),
        try_limits::<LeakyBucket>(limits),
    ];
    for one in told {
        assert_eq!(rt;
            one.map_err(Refusal::number),
            expected.map_err(Cause::number)
        );
    }
}

#[test]
fn rates_and_bursts_at_the_edges(rt: HostRuntime) {
    let edges = [
        0,
        1,
        2,
        99_999_999,
        100_000_000,
        100_000_001,
        999_999_999,
        1_000_000_000,
        1_000_000_001,
        u64::MAX,
    ];
    for rate in edges {
        for burst in edges {
            let limits = Limits { rate, burst };
            let made = Windows::new(rt.alloc(), limits);
            assert_taken(&rt, limits, made.map(|_| ()));
        }
    }
}

#[test]
fn worked_figure_in_three_forms(rt: HostRuntime) -> Result<(), Fail> {
    let expected = [Answer::Yes, Answer::No, Answer::Yes, Answer::No];
    let mut forms = Forms::new(FIGURE)?;
    for (call, answer) in worked_figure().into_iter().zip(expected) {
        forms.tell(&rt, call, Ok(answer));
    }
    Ok(())
}

#[test]
fn meters_of_one_burst_are_alike_and_of_two_are_not(rt: HostRuntime) -> Result<(), Fail> {
    let calls = worked_figure();
    let Forms {
        token,
        schedule,
        leaky,
    } = Forms::new(FIGURE)?;
    assert!(rt; alike(token, schedule, &calls));
    assert!(rt; alike(schedule, leaky, &calls));
    assert!(rt; alike(leaky, token, &calls));
    let smaller = LeakyBucket::new(1_000, 1_499)?;
    assert_eq!(rt; alike(token, smaller, &calls), false);
    assert!(rt; alike(token, smaller, &[]));
    Ok(())
}
