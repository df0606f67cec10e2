// Worked figures, upon both kinds of bucket.
use crate::causes::Cause;
use crate::envelope_calls::{Call, Told};
use crate::opened::Opened;
use crate::profiles::Profile;
use envelopes::colour::{Colour, Request};
use envelopes::flow::{Flow, Supply};
use envelopes::refusal::Refusal;
use std::alloc::AllocGlobal;
use std::process::Abort;
use std::test::Fail;
use tokens::bucket::Bucket;
use tokens::counting::CountingBucket;
use tokens::deficit::DeficitBucket;

// What a call tells, or why it is refused.
type Figure = Result<Told, Cause>;

const GREEN: Figure = Ok(Told::Colour(Colour::Green));

const YELLOW: Figure = Ok(Told::Colour(Colour::Yellow));

const RED: Figure = Ok(Told::Colour(Colour::Red));

fn supply(rate: u64, volume: u64) -> Supply {
    Supply {
        rate,
        volume,
        ..Supply::default()
    }
}

fn flow(green: Supply, yellow: Supply) -> Flow {
    Flow {
        green,
        yellow,
        ..Flow::default()
    }
}

fn asks(asked: Colour, moment: u64, rank: u8, tokens: u32) -> Call {
    Call::Judge(Request {
        tokens,
        moment,
        asked,
        rank,
    })
}

fn green(moment: u64, rank: u8, tokens: u32) -> Call {
    asks(Colour::Green, moment, rank, tokens)
}

fn yellow(moment: u64, rank: u8, tokens: u32) -> Call {
    asks(Colour::Yellow, moment, rank, tokens)
}

// What an envelope of the profile tells, once it is open and filled.
fn figure<B: Bucket>(
    rt: &(impl Abort + AllocGlobal),
    profile: &Profile,
    list: &[(Call, Figure)],
) -> Result<(), Fail> {
    let mut opened = Opened::<B>::new(rt.alloc(), profile)?;
    opened.fill()?;
    for (call, told) in list {
        assert_eq!(rt;
            opened.put(*call).map_err(Refusal::number),
            told.map_err(Cause::number)
        );
    }
    Ok(())
}

fn in_both_kinds(
    rt: &(impl Abort + AllocGlobal),
    flows: &[Flow],
    cf0: bool,
    list: &[(Call, Figure)],
) -> Result<(), Fail> {
    let flows = flows.to_vec(rt.alloc())?;
    let profile = Profile { flows, cf0 };
    figure::<CountingBucket>(rt, &profile, list)?;
    figure::<DeficitBucket>(rt, &profile, list)
}

#[test]
fn six_records(rt: HostRuntime) -> Result<(), Fail> {
    let flows = [
        flow(supply(0, 1_000), supply(500, 2_000)),
        flow(supply(1_000, 1_500), Supply::default()),
    ];
    let counts = Told::Counts {
        green: 500_000_000,
        yellow: 1_498_000_000,
    };
    let list = [
        (green(0, 2, 1_500), GREEN),
        (green(999, 2, 1), RED),
        (green(1_000, 2, 1), GREEN),
        (green(1_000, 1, 1_001), YELLOW),
        (green(1_000, 1, 1_000), GREEN),
        (green(2_001_000, 1, 501), YELLOW),
        (Call::Read(1), Ok(counts)),
    ];
    in_both_kinds(&rt, &flows, false, &list)
}

// In one step of two seconds rank 1 gets 1,000 tokens back; with a step halfway it does not.
#[test]
fn a_maximum_and_a_step_halfway(rt: HostRuntime) -> Result<(), Fail> {
    let below = Supply {
        rate: 0,
        maximum: Some(500),
        volume: 1_000,
    };
    let flows = [
        flow(below, Supply::default()),
        flow(supply(1_000, 1_000), Supply::default()),
    ];
    let one_step = [
        (green(0, 1, 1_000), GREEN),
        (green(0, 2, 1_000), GREEN),
        (green(2_000_000, 1, 1_000), GREEN),
    ];
    in_both_kinds(&rt, &flows, false, &one_step)?;
    let two_steps = [
        (green(0, 1, 1_000), GREEN),
        (green(0, 2, 1_000), GREEN),
        (Call::Advance(1_000_000), Ok(Told::Done)),
        (green(2_000_000, 1, 1_000), RED),
    ];
    in_both_kinds(&rt, &flows, false, &two_steps)
}

#[test]
fn green_overflow_of_rank_1_to_the_highest_yellow(rt: HostRuntime) -> Result<(), Fail> {
    let flows = [
        flow(supply(0, 100), Supply::default()),
        flow(supply(100, 1_000), supply(0, 1_000)),
    ];
    let covered = [
        (yellow(0, 2, 1_000), YELLOW),
        (yellow(1_000_000, 2, 100), YELLOW),
    ];
    in_both_kinds(&rt, &flows, true, &covered)?;
    let too_much = [
        (yellow(0, 2, 1_000), YELLOW),
        (yellow(1_000_000, 2, 101), RED),
    ];
    in_both_kinds(&rt, &flows, true, &too_much)
}

#[test]
fn end_of_the_day(rt: HostRuntime) -> Result<(), Fail> {
    let flows = [flow(supply(1, 1), Supply::default())];
    let list = [
        (green(86_400_000_001, 1, 1), Err(Cause::AfterDayEnd)),
        (Call::Advance(86_400_000_001), Err(Cause::AfterDayEnd)),
        (green(86_400_000_000, 1, 1), GREEN),
        (Call::Advance(86_400_000_000), Ok(Told::Done)),
        (Call::Advance(86_400_000_001), Err(Cause::AfterDayEnd)),
        (Call::Advance(86_399_999_999), Err(Cause::BeforeLatest)),
    ];
    in_both_kinds(&rt, &flows, false, &list)
}
