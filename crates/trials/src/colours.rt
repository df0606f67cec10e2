// Envelopes over both kinds of bucket against the envelope by pouring: every answer, every refusal, and all counts
// after each call.
use crate::any_calls::{any_call, any_handed, volume_of};
use crate::causes::Cause;
use crate::chance::Chance;
use crate::contents::contents_of;
use crate::counted::assert_came;
use crate::envelope_calls::{Told, put};
use crate::opened::Opened;
use crate::profiles::Profile;
use crate::shares::Shares;
use envelopes::colour::Colour;
use envelopes::refusal::Refusal;
use std::alloc::{AllocGlobal, Global};
use std::process::Abort;
use std::test::Fail;
use tokens::bucket::Bucket;
use tokens::counting::CountingBucket;
use tokens::deficit::DeficitBucket;

// One envelope of the library and one by pouring, of one profile.
#[derive(Drop)]
struct Both<B> {
    opened: Opened<B>,
    shares: Shares,
}

impl<B: Bucket> Both<B> {
    fn any(heap: Global, chance: &mut Chance) -> Result<Both<B>, Fail> {
        let profile = Profile::any(heap, chance)?;
        Ok(Both {
            opened: Opened::new(heap, &profile)?,
            shares: Shares::new(heap, &profile)?,
        })
    }

    // Takes something out of some of the buckets, so that the first calls do not find them full.
    fn drain(&mut self, chance: &mut Chance) {
        for (index, bucket) in self.opened.buckets.iter_mut().enumerate() {
            let grains = chance.between(0, bucket.count());
            if chance.one_in(2) && bucket.spend(grains) {
                self.shares.take_from_bucket(index, grains);
            }
        }
    }

    // Buckets that are not the envelope's, so that only fill is not refused. No damaged one has a right volume.
    fn swap_all(&mut self) {
        for bucket in self.opened.buckets.iter_mut() {
            *bucket = B::make(volume_of(*bucket).saturating_add(2));
        }
    }

    // One call upon both, and what they tell, unless there is no memory. What a refused call is handed stays as it was.
    fn step(
        &mut self,
        rt: &(impl Abort + AllocGlobal),
        chance: &mut Chance,
    ) -> Result<Result<Told, Cause>, Fail> {
        let call = any_call(chance, &self.opened);
        let mut handed = any_handed(rt.alloc(), chance, self.opened.buckets.as_slice())?;
        let before = contents_of(rt.alloc(), handed.as_slice())?;
        let expected = self.shares.put(before.as_slice(), call);
        let told = put(&mut self.opened.envelope, handed.as_mut_slice(), call);
        assert_eq!(rt;
            told.map_err(Refusal::number),
            expected.map_err(Cause::number)
        );
        assert_eq!(rt; self.opened.latest(), self.shares.latest());
        let after = contents_of(rt.alloc(), handed.as_slice())?;
        if expected.is_ok() {
            for (index, contents) in after.iter().enumerate() {
                assert_eq!(rt; Some(*contents), self.shares.bucket(index));
            }
            self.opened.buckets = handed;
        } else {
            assert_eq!(rt; after, before);
        }
        Ok(expected)
    }
}

// Notes what was told.
fn sequence<B: Bucket>(
    rt: &(impl Abort + AllocGlobal),
    seed: u64,
    told: &mut Vec<Result<Told, Cause>>,
) -> Result<(), Fail> {
    let mut chance = Chance::new(seed);
    let mut both = Both::<B>::any(rt.alloc(), &mut chance)?;
    both.drain(&mut chance);
    if seed % 8 == 0 {
        both.swap_all();
    }
    for _ in 0..150 {
        told.push(both.step(rt, &mut chance)?)?;
    }
    Ok(())
}

fn agree<B: Bucket>(rt: &(impl Abort + AllocGlobal)) -> Result<(), Fail> {
    let mut told = Vec::new(rt.alloc());
    for seed in 0..500 {
        sequence::<B>(rt, seed, &mut told)?;
    }
    let least = [
        (Ok(Told::Colour(Colour::Green)), 5_000),
        (Ok(Told::Colour(Colour::Yellow)), 5_000),
        (Ok(Told::Colour(Colour::Red)), 5_000),
        (Err(Cause::Buckets), 1_000),
        (Err(Cause::NoTokens), 1_000),
        (Err(Cause::Rank), 1_000),
        (Err(Cause::BeforeLatest), 300),
        (Err(Cause::AfterDayEnd), 300),
    ];
    assert_came(rt, told.as_slice(), &least);
    let others = told
        .iter()
        .filter(|one| matches!(one, Ok(Told::Done | Told::Counts { .. })));
    assert!(rt; others.count() > 5_000);
    Ok(())
}

#[test]
fn counting_buckets_agree_with_pouring(rt: HostRuntime) -> Result<(), Fail> {
    agree::<CountingBucket>(&rt)
}

#[test]
fn deficit_buckets_agree_with_pouring(rt: HostRuntime) -> Result<(), Fail> {
    agree::<DeficitBucket>(&rt)
}
