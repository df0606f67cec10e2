// What an envelope declares between two accepted calls, with no accepted fill between, tried upon the library: a flow
// gets no more Green tokens than its green count after the first call and what its limit brings in the time between,
// and all flows get no more Green and Yellow tokens than all counts and what all rates bring.
use crate::chance::Chance;
use crate::entries::{Asking, Entry, run};
use crate::limits::grains;
use crate::opened::Opened;
use crate::profiles::{Profile, index_of};
use crate::rows::rates_of;
use envelopes::colour::{Colour, Request};
use envelopes::flow::Flow;
use std::alloc::AllocGlobal;
use std::process::Abort;
use std::test::Fail;
use tokens::bucket::Bucket;
use tokens::counting::CountingBucket;
use tokens::deficit::DeficitBucket;

// The flow of a rank, or all of them.
#[derive(Clone, Copy)]
enum Flows {
    One(u8),
    All,
}

// What is bounded, and the rate that bounds it.
#[derive(Clone, Copy)]
struct Bound {
    flows: Flows,
    rate: u128,
}

impl Bound {
    // A flow's Green tokens: the smaller of the green maximum, if there is one, and the sum of green rates from the
    // rank up.
    fn of_flow(flows: &[Flow], rank: u8) -> Bound {
        let index = index_of(rank);
        let rates = flows
            .iter()
            .skip(index)
            .map(|flow| u128::from(flow.green.rate))
            .fold(0, u128::saturating_add);
        let maximum = flows.get(index).and_then(|flow| flow.green.maximum);
        Bound {
            flows: Flows::One(rank),
            rate: maximum.map_or(rates, |maximum| rates.min(u128::from(maximum))),
        }
    }

    // All Green and Yellow tokens.
    fn of_all(flows: &[Flow]) -> Bound {
        Bound {
            flows: Flows::All,
            rate: flows.iter().map(rates_of).fold(0, u128::saturating_add),
        }
    }

    // Whether the bound is about a request that was declared this colour.
    fn covers(&self, request: Request, colour: Colour) -> bool {
        match self.flows {
            Flows::All => colour != Colour::Red,
            Flows::One(rank) => request.rank == rank && colour == Colour::Green,
        }
    }

    fn declared(&self, entry: &Entry) -> u128 {
        match entry.declared() {
            Some((request, colour)) if self.covers(request, colour) => u128::from(request.tokens),
            _ => 0,
        }
    }

    fn at_first(&self, entry: &Entry) -> u128 {
        let mut counts = entry.contents.iter().map(|bucket| bucket.held);
        match self.flows {
            Flows::All => counts.fold(0, u128::saturating_add),
            Flows::One(rank) => counts.nth(index_of(rank)).unwrap_or(0),
        }
    }

    // From the first of some accepted calls to every later one up to the next fill. Answers how often one more token
    // would have been too much.
    fn within(&self, rt: &impl Abort, entries: &[Entry]) -> u64 {
        let Some((first, later)) = entries.split_first() else {
            return 0;
        };
        let held = self.at_first(first);
        // A loop: the tokens run on from call to call.
        let mut tokens = 0u128;
        let mut close = 0u64;
        for last in later {
            tokens = tokens.saturating_add(self.declared(last));
            let time = u128::from(last.latest.saturating_sub(first.latest));
            let most = held.saturating_add(time.saturating_mul(self.rate));
            assert!(rt; grains(tokens) <= most);
            if tokens > 0 && grains(tokens.saturating_add(1)) > most {
                close = close.saturating_add(1);
            }
            if last.is_fill() {
                break;
            }
        }
        close
    }

    // From each accepted call, with all later ones.
    fn within_all(&self, rt: &impl Abort, entries: &[Entry]) -> u64 {
        (0..entries.len())
            .map(|from| self.within(rt, &entries[from..]))
            .fold(0, u64::saturating_add)
    }
}

// How often the bound of a flow, and that of all flows, was close.
#[derive(Clone, Copy)]
struct Close {
    of_flows: u64,
    of_all: u64,
}

fn sequence<B: Bucket>(rt: &(impl Abort + AllocGlobal), seed: u64) -> Result<Close, Fail> {
    let mut chance = Chance::new(seed);
    let profile = Profile::any(rt.alloc(), &mut chance)?;
    let mut opened = Opened::<B>::new(rt.alloc(), &profile)?;
    let asking = if seed % 2 == 0 {
        Asking::All
    } else {
        Asking::Any
    };
    let entries = run(rt.alloc(), &mut chance, &mut opened, asking)?;
    let flows = profile.flows.as_slice();
    Ok(Close {
        // ranks of no flow too, to which no rate brings anything
        of_flows: (1..=8)
            .map(|rank| Bound::of_flow(flows, rank).within_all(rt, entries.as_slice()))
            .fold(0, u64::saturating_add),
        of_all: Bound::of_all(flows).within_all(rt, entries.as_slice()),
    })
}

#[test]
fn tokens_stay_within_counts_and_rates(rt: HostRuntime) -> Result<(), Fail> {
    // A loop: two sums run on, and a round may fail.
    let mut of_flows = 0u64;
    let mut of_all = 0u64;
    for seed in 0..600 {
        let close = sequence::<CountingBucket>(&rt, seed)?;
        of_flows = of_flows.saturating_add(close.of_flows);
        of_all = of_all.saturating_add(close.of_all);
        sequence::<DeficitBucket>(&rt, seed + 2_000)?;
    }
    assert!(rt; of_flows > 50_000 && of_all > 2_000);
    Ok(())
}
