// The flows below a rank do not change the colours from it up: two envelopes of one profile, each over its own kind of
// bucket, with the same requests from a rank up and with other requests below it.
use crate::below::{Below, Moments, later};
use crate::chance::Chance;
use crate::opened::Opened;
use crate::profiles::Profile;
use envelopes::colour::Colour;
use envelopes::refusal::Refusal;
use std::alloc::{AllocGlobal, Global};
use std::process::Abort;
use std::test::Fail;
use tokens::counting::CountingBucket;
use tokens::deficit::DeficitBucket;

// What the two told of one request.
#[derive(Clone, Copy)]
struct Answers {
    one: Result<Colour, Refusal>,
    other: Result<Colour, Refusal>,
}

impl Answers {
    fn are_both(&self, colour: Colour) -> bool {
        self.one == Ok(colour) && self.other == Ok(colour)
    }

    fn part(&self) -> bool {
        self.one != self.other
    }

    // Green in both or in neither, and of one colour where CF0 is 0.
    fn assert_alike(&self, rt: &impl Abort, cf0: bool) {
        assert_eq!(rt;
            self.one == Ok(Colour::Green),
            self.other == Ok(Colour::Green)
        );
        if !cf0 {
            assert_eq!(rt; self.one, self.other);
        }
    }
}

// The two envelopes.
#[derive(Drop)]
struct Two {
    one: Opened<CountingBucket>,
    other: Opened<DeficitBucket>,
}

impl Two {
    fn filled(heap: Global, profile: &Profile) -> Result<Two, Fail> {
        let mut one = Opened::new(heap, profile)?;
        let mut other = Opened::new(heap, profile)?;
        one.fill()?;
        other.fill()?;
        Ok(Two { one, other })
    }

    // The flows below go on, and then there may be a request from above them.
    fn step(&mut self, chance: &mut Chance, below: Below, moment: u64) -> Option<Answers> {
        below.go_on(chance, &mut self.one, moment);
        below.go_on(chance, &mut self.other, moment);
        if chance.one_in(4) {
            return None;
        }
        let request = below.above(chance, &self.one, moment);
        Some(Answers {
            one: self.one.judge(request),
            other: self.other.judge(request),
        })
    }
}

fn lift_maxima(profile: &mut Profile, below: u8) {
    for flow in profile.flows.iter_mut().skip(usize::from(below)) {
        flow.green.maximum = None;
        flow.yellow.maximum = None;
    }
}

// Notes what the two told.
fn sequence(
    rt: &(impl Abort + AllocGlobal),
    seed: u64,
    moments: Moments,
    told: &mut Vec<Answers>,
) -> Result<(), Fail> {
    let mut chance = Chance::new(seed);
    let mut profile = Profile::any(rt.alloc(), &mut chance)?;
    let rank = chance.rank(0, profile.highest().saturating_sub(1));
    if matches!(moments, Moments::Own) {
        lift_maxima(&mut profile, rank);
    }
    let mut two = Two::filled(rt.alloc(), &profile)?;
    let mut moment = 0u64;
    for _ in 0..80 {
        moment = later(&mut chance, moment);
        if let Some(answers) = two.step(&mut chance, Below { rank, moments }, moment) {
            answers.assert_alike(rt, profile.cf0);
            told.push(answers)?;
        }
    }
    Ok(())
}

fn sequences(rt: &(impl Abort + AllocGlobal), moments: Moments) -> Result<(), Fail> {
    let mut told = Vec::new(rt.alloc());
    for seed in 0..1_000 {
        sequence(rt, seed, moments, &mut told)?;
    }
    let green = told
        .iter()
        .filter(|answers| answers.are_both(Colour::Green))
        .count();
    let yellow = told
        .iter()
        .filter(|answers| answers.are_both(Colour::Yellow))
        .count();
    let parted = told.iter().filter(|answers| answers.part()).count();
    assert!(rt; green > 10_000 && yellow > 10_000 && parted > 20);
    Ok(())
}

#[test]
fn lower_flows_do_not_change_colours_above(rt: HostRuntime) -> Result<(), Fail> {
    sequences(&rt, Moments::Shared)
}

#[test]
fn without_maxima_other_moments_do_not_matter(rt: HostRuntime) -> Result<(), Fail> {
    sequences(&rt, Moments::Own)
}
