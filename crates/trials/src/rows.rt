// Rows against their rules: flows at the limits.
use crate::causes::Cause;
use crate::chance::Chance;
use crate::counted::assert_came;
use crate::limits::{HIGHEST_RATE, LARGEST_VOLUME};
use envelopes::flow::{Flow, Supply};
use envelopes::refusal::Refusal;
use envelopes::row::Row;
use std::process::Abort;
use std::test::Fail;

fn edge_maximum(chance: &mut Chance, rate: u64) -> Option<u64> {
    let maximum = chance.pick(&[
        rate,
        rate.saturating_add(1),
        rate.saturating_sub(1),
        99_999_999,
        100_000_000,
        100_000_000,
        100_000_001,
        u64::MAX,
    ]);
    chance.one_in(3).then_some(maximum)
}

fn edge_supply(chance: &mut Chance) -> Supply {
    let rates = [
        0,
        1,
        49_999_999,
        50_000_000,
        50_000_001,
        99_999_999,
        100_000_000,
        100_000_001,
        u64::MAX,
    ];
    let volumes = [
        0,
        1,
        chance.between(0, 1_000_000_000),
        999_999_999,
        1_000_000_000,
        1_000_000_000,
        1_000_000_001,
        u64::MAX,
    ];
    let rate = if chance.one_in(2) {
        chance.between(0, 1)
    } else {
        chance.pick(&rates)
    };
    Supply {
        rate,
        maximum: edge_maximum(chance, rate),
        volume: chance.pick(&volumes),
    }
}

fn is_wrong_maximum(supply: Supply) -> bool {
    supply
        .maximum
        .is_some_and(|maximum| !(supply.rate..=HIGHEST_RATE).contains(&maximum))
}

// A flow's green and yellow rate.
pub fn rates_of(flow: &Flow) -> u128 {
    u128::from(flow.green.rate).saturating_add(u128::from(flow.yellow.rate))
}

// Whether a row is made of the flow.
fn check_flow(flow: Flow) -> Result<(), Cause> {
    if rates_of(&flow) > u128::from(HIGHEST_RATE) {
        Err(Cause::Rate)
    } else if is_wrong_maximum(flow.green) || is_wrong_maximum(flow.yellow) {
        Err(Cause::Maximum)
    } else if flow.green.volume.max(flow.yellow.volume) > LARGEST_VOLUME {
        Err(Cause::Volume)
    } else {
        Ok(())
    }
}

fn try_row(rt: &impl Abort, chance: &mut Chance) -> Result<(), Cause> {
    let flow = Flow {
        green: edge_supply(chance),
        yellow: edge_supply(chance),
        cf: chance.one_in(2),
    };
    let expected = check_flow(flow);
    let made = Row::new(flow).map(|row| row.flow());
    assert_eq!(rt;
        made.map_err(Refusal::number),
        expected.map(|()| flow).map_err(Cause::number)
    );
    expected
}

#[test]
fn rows_at_the_limits(rt: HostRuntime) -> Result<(), Fail> {
    let mut chance = Chance::new(7);
    let mut told = Vec::new(rt.alloc());
    for _ in 0..30_000 {
        told.push(try_row(&rt, &mut chance))?;
    }
    let least = [
        (Ok(()), 3_000),
        (Err(Cause::Rate), 3_000),
        (Err(Cause::Maximum), 3_000),
        (Err(Cause::Volume), 3_000),
    ];
    assert_came(&rt, told.as_slice(), &least);
    Ok(())
}
