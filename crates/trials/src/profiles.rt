// Profiles: flows by rank, and CF0.
use crate::chance::Chance;
use crate::limits::HIGHEST_RATE;
use envelopes::draft::Draft;
use envelopes::envelope::Envelope;
use envelopes::flow::{Flow, Supply};
use envelopes::row::Row;
use std::alloc::{AllocError, Global};
use std::test::Fail;
use tokens::bucket::Bucket;

#[derive(Drop)]
pub struct Profile {
    pub flows: Vec<Flow>,
    pub cf0: bool,
}

// Where a rank stands in a list by rank.
pub fn index_of(rank: u8) -> usize {
    usize::from(rank).saturating_sub(1)
}

// What rates and volumes are picked from.
#[derive(Clone, Copy)]
struct Sizes {
    rates: &'static [u64],
    volumes: &'static [u64],
}

const SMALL: Sizes = Sizes {
    rates: &[0, 0, 1, 10, 333, 1_000, 1_000],
    volumes: &[0, 1, 10, 100, 1_000, 1_500, 2_000],
};

const ALL: Sizes = Sizes {
    rates: &[0, 0, 1, 1_000, 125_000, 999_999, 12_500_000, 100_000_000],
    volumes: &[
        0,
        1,
        1_500,
        65_536,
        1_000_000,
        10_000_000,
        999_999_999,
        1_000_000_000,
    ],
};

fn any_maximum(chance: &mut Chance, rate: u64) -> Option<u64> {
    let edges = [
        rate,
        rate.saturating_add(1),
        rate.saturating_mul(2),
        rate.saturating_add(500),
        chance.between(rate, HIGHEST_RATE),
        HIGHEST_RATE,
    ];
    if chance.one_in(2) {
        return None;
    }
    Some(chance.pick(&edges).min(HIGHEST_RATE))
}

// A supply whose rate is at most what is left, which it takes.
fn any_supply(chance: &mut Chance, sizes: Sizes, left: &mut u64) -> Supply {
    let rate = chance.pick(sizes.rates).min(*left);
    let volume = chance.pick(sizes.volumes);
    *left = left.saturating_sub(rate);
    Supply {
        rate,
        maximum: any_maximum(chance, rate),
        volume,
    }
}

impl Profile {
    // One to eight flows that a draft takes.
    pub fn any(heap: Global, chance: &mut Chance) -> Result<Profile, AllocError> {
        let cf0 = chance.one_in(3);
        let sizes = if chance.one_in(3) { ALL } else { SMALL };
        let mut left = HIGHEST_RATE;
        let mut flows = Vec::new(heap);
        for _ in 0..chance.between(1, 8) {
            flows.push(Flow {
                green: any_supply(chance, sizes, &mut left),
                yellow: any_supply(chance, sizes, &mut left),
                cf: !cf0 && chance.one_in(3),
            })?;
        }
        Ok(Profile { flows, cf0 })
    }

    // The highest rank.
    pub fn highest(&self) -> u8 {
        u8::try_from(self.flows.len()).unwrap_or(u8::MAX)
    }

    // The envelope of the profile, open.
    pub fn open(&self) -> Result<Envelope, Fail> {
        let (first, others) = self.flows.split_first().ok_or("no flow")?;
        let mut draft = Draft::new(Row::new(*first)?);
        for flow in others {
            draft.add(Row::new(*flow)?)?;
        }
        draft.set_cf0(self.cf0)?;
        Ok(draft.open())
    }

    // Full buckets, green ones first.
    pub fn make_buckets<B: Bucket>(&self, heap: Global) -> Result<Vec<B>, AllocError> {
        let greens = self.flows.iter().map(|flow| flow.green);
        let yellows = self.flows.iter().map(|flow| flow.yellow);
        greens
            .chain(yellows)
            .map(|supply| B::make(u32::try_from(supply.volume).unwrap_or(0)))
            .collect(heap)
    }
}
