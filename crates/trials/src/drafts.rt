// Drafts against their rules: they grow, and are opened and closed again.
use crate::causes::Cause;
use crate::chance::Chance;
use crate::counted::assert_came;
use crate::limits::HIGHEST_RATE;
use crate::profiles::Profile;
use crate::rows::rates_of;
use envelopes::draft::Draft;
use envelopes::flow::{Flow, Supply};
use envelopes::refusal::Refusal;
use envelopes::row::Row;
use std::alloc::{AllocGlobal, Global};
use std::process::Abort;
use std::test::Fail;

// Whether a draft of this profile takes one flow more.
fn check_flow(profile: &Profile, more: &Flow) -> Result<(), Cause> {
    let flows = profile.flows.iter();
    let rates = flows
        .map(rates_of)
        .fold(rates_of(more), u128::saturating_add);
    let some_cf = more.cf || profile.flows.iter().any(|flow| flow.cf);
    if profile.flows.len() > 7 {
        Err(Cause::NinthFlow)
    } else if profile.cf0 && some_cf {
        Err(Cause::BothFlags)
    } else if rates > u128::from(HIGHEST_RATE) {
        Err(Cause::SumOfRates)
    } else {
        Ok(())
    }
}

// Whether CF0 of a draft of this profile may be set so.
fn check_cf0(profile: &Profile, cf0: bool) -> Result<(), Cause> {
    if cf0 && profile.flows.iter().any(|flow| flow.cf) {
        return Err(Cause::BothFlags);
    }
    Ok(())
}

fn any_flow(chance: &mut Chance) -> Flow {
    let rates = [0, 1, 1_000, 12_500_000, 12_500_000, 50_000_000, 99_999_999];
    let green = Supply {
        rate: chance.pick(&rates),
        maximum: None,
        volume: chance.between(0, 1_000),
    };
    let yellow = Supply {
        rate: chance.between(0, 1),
        maximum: Some(HIGHEST_RATE),
        volume: chance.between(0, 1_000),
    };
    let cf = chance.one_in(12);
    Flow { green, yellow, cf }
}

// The draft is of this profile.
fn assert_is(rt: &impl Abort, draft: &Draft, profile: &Profile) {
    let flows = draft.rows().iter().map(|row| row.flow());
    assert!(rt; flows.eq(profile.flows.iter().copied()));
    assert_eq!(rt; draft.cf0(), profile.cf0);
}

// A draft, and the profile that it should be of.
#[derive(Drop)]
struct Growing {
    draft: Draft,
    profile: Profile,
}

impl Growing {
    fn new(heap: Global, first: Flow) -> Result<Growing, Fail> {
        let mut flows = Vec::new(heap);
        flows.push(first)?;
        Ok(Growing {
            draft: Draft::new(Row::new(first)?),
            profile: Profile { flows, cf0: false },
        })
    }

    // One flow more, and what is told of it, unless there is no memory or no row of the flow.
    fn add(&mut self, rt: &impl Abort, flow: Flow) -> Result<Result<(), Cause>, Fail> {
        let expected = check_flow(&self.profile, &flow);
        let told = self.draft.add(Row::new(flow)?);
        assert_eq!(rt;
            told.map_err(Refusal::number),
            expected.map_err(Cause::number)
        );
        if expected.is_ok() {
            self.profile.flows.push(flow)?;
        }
        Ok(expected)
    }

    fn set_cf0(&mut self, rt: &impl Abort, cf0: bool) -> Result<(), Cause> {
        let expected = check_cf0(&self.profile, cf0);
        let told = self.draft.set_cf0(cf0);
        assert_eq!(rt;
            told.map_err(Refusal::number),
            expected.map_err(Cause::number)
        );
        if expected.is_ok() {
            self.profile.cf0 = cf0;
        }
        expected
    }

    fn change(&mut self, rt: &impl Abort, chance: &mut Chance) -> Result<Result<(), Cause>, Fail> {
        let cf0 = chance.one_in(2);
        let expected = if chance.one_in(4) {
            self.set_cf0(rt, cf0)
        } else {
            self.add(rt, any_flow(chance))?
        };
        assert_is(rt, &self.draft, &self.profile);
        Ok(expected)
    }
}

// Notes what was told.
fn grow_draft(
    rt: &(impl Abort + AllocGlobal),
    seed: u64,
    told: &mut Vec<Result<(), Cause>>,
) -> Result<(), Fail> {
    let mut chance = Chance::new(seed);
    let mut growing = Growing::new(rt.alloc(), any_flow(&mut chance))?;
    for _ in 0..20 {
        told.push(growing.change(rt, &mut chance)?)?;
    }
    let Growing { draft, profile } = growing;
    assert_is(rt, &draft.open().close(), &profile);
    Ok(())
}

#[test]
fn drafts_grow_by_the_rules(rt: HostRuntime) -> Result<(), Fail> {
    let mut told = Vec::new(rt.alloc());
    for seed in 0..2_000 {
        grow_draft(&rt, seed, &mut told)?;
    }
    let least = [
        (Err(Cause::NinthFlow), 1_000),
        (Err(Cause::SumOfRates), 1_000),
        (Err(Cause::BothFlags), 1_000),
    ];
    assert_came(&rt, told.as_slice(), &least);
    Ok(())
}
