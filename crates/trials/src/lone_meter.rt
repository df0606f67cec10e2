// What a lone meter at a flow's green rate and volume passes, the envelope declares Green, whatever the other flows
// do: tried upon the library from one fill to the next.
use crate::any_calls::any_call;
use crate::chance::Chance;
use crate::envelope_calls::{Call, Told};
use crate::opened::Opened;
use crate::profiles::{Profile, index_of};
use envelopes::colour::{Colour, Request};
use envelopes::flow::Flow;
use std::alloc::{AllocGlobal, Global};
use std::process::Abort;
use std::test::Fail;
use tokens::bucket::Bucket;
use tokens::counting::CountingBucket;
use tokens::deficit::DeficitBucket;
use tokens::leaky_bucket::LeakyBucket;
use tokens::meter::Meter;
use tokens::token_bucket::TokenBucket;

// A flow, and a meter of its own at its green rate and volume, as long as that passed all.
#[derive(Clone, Copy)]
struct Lone<M> {
    flow: Flow,
    meter: Option<M>,
}

impl<M: Meter> Lone<M> {
    fn new(flow: Flow) -> Lone<M> {
        Lone {
            flow,
            meter: M::new(flow.green.rate, flow.green.volume).ok(),
        }
    }

    // Charges the meter, and answers whether it passed. One that did not is let go.
    fn charge(&mut self, request: Request) -> bool {
        let Some(mut meter) = self.meter else {
            return false;
        };
        let passed = meter.charge(request.tokens, request.moment) == Ok(true);
        self.meter = passed.then_some(meter);
        passed
    }
}

// An envelope, and by rank its flows with their meters.
#[derive(Drop)]
struct Metered<B, M> {
    opened: Opened<B>,
    flows: Vec<Lone<M>>,
}

impl<B: Bucket, M: Meter> Metered<B, M> {
    // The envelope is filled, and each flow gets a new meter.
    fn filled(heap: Global, chance: &mut Chance) -> Result<Metered<B, M>, Fail> {
        let profile = Profile::any(heap, chance)?;
        let mut opened = Opened::new(heap, &profile)?;
        opened.fill()?;
        let flows = profile.flows.iter().map(|flow| Lone::<M>::new(*flow));
        Ok(Metered {
            opened,
            flows: flows.collect(heap)?,
        })
    }

    fn renew(&mut self) {
        for lone in self.flows.iter_mut() {
            *lone = Lone::new(lone.flow);
        }
    }

    // Most requests for Green that the flow's meter would not pass are left out, so that meters go on passing.
    fn gentle_call(&self, chance: &mut Chance) -> Call {
        let call = any_call(chance, &self.opened);
        if let Call::Judge(request) = call
            && let Some(lone) = self.flows.get(index_of(request.rank))
            && let Some(meter) = lone.meter
            && meter.question(request.tokens, request.moment) != Ok(true)
            && !chance.one_in(16)
        {
            return Call::Advance(request.moment);
        }
        call
    }

    // Charges the flow's meter for an accepted request for Green, and answers whether it passed.
    fn charge(&mut self, rt: &impl Abort, request: Request, told: Told) -> bool {
        let Some(lone) = self.flows.get_mut(index_of(request.rank)) else {
            return false;
        };
        let passed = lone.charge(request);
        if passed {
            assert_eq!(rt; told, Told::Colour(Colour::Green));
        }
        passed
    }

    // One call, and whether a meter passed it.
    fn step(&mut self, rt: &impl Abort, chance: &mut Chance) -> bool {
        let call = self.gentle_call(chance);
        let Ok(told) = self.opened.put(call) else {
            return false;
        };
        match call {
            Call::Judge(request) if request.asked == Colour::Green => {
                self.charge(rt, request, told)
            }
            Call::Fill => {
                self.renew();
                false
            }
            _ => false,
        }
    }
}

// How many requests a meter passed.
fn sequence<B: Bucket, M: Meter>(
    rt: &(impl Abort + AllocGlobal),
    seed: u64,
) -> Result<usize, Fail> {
    let mut chance = Chance::new(seed);
    let mut metered = Metered::<B, M>::filled(rt.alloc(), &mut chance)?;
    let passed = (0..150).filter(|_| metered.step(rt, &mut chance));
    Ok(passed.count())
}

#[test]
fn what_a_lone_meter_passes_is_green(rt: HostRuntime) -> Result<(), Fail> {
    // A loop: each round compares two runs, and may fail.
    let mut passed = 0usize;
    for seed in 0..1_000 {
        let one = sequence::<CountingBucket, TokenBucket>(&rt, seed)?;
        let other = sequence::<DeficitBucket, LeakyBucket>(&rt, seed)?;
        assert_eq!(rt; one, other);
        passed = passed.saturating_add(one);
    }
    assert!(rt; passed > 10_000);
    Ok(())
}
