// An envelope by pouring, written from the rules. Every flow has a green and a yellow place. In a call a place has so
// much room, and what it cannot take runs on to one other place, or is lost. Each rate is a source: what it brought is
// poured in at its own place and runs on until all of it is taken or lost, one source after the other, the lowest
// rank's first. There are no buckets, and numbers are of 128 bits.
use crate::causes::Cause;
use crate::contents::Contents;
use crate::envelope_calls::{Call, Told};
use crate::limits::{check_moment, grains};
use crate::places::{Place, after_green, after_yellow, green_of, yellow_of};
use crate::profiles::Profile;
use envelopes::colour::{Colour, Request};
use std::alloc::{AllocError, Global};

#[derive(Drop)]
pub struct Shares {
    places: Vec<Place>,
    latest: u64,
}

impl Shares {
    // All places are full.
    pub fn new(heap: Global, profile: &Profile) -> Result<Shares, AllocError> {
        let mut places = Vec::new(heap);
        for (rank, flow) in (1..).zip(profile.flows.iter()) {
            places.push(Place::new(flow.green, after_green(profile, flow, rank)))?;
            places.push(Place::new(flow.yellow, after_yellow(rank)))?;
        }
        Ok(Shares { places, latest: 0 })
    }

    pub fn latest(&self) -> u64 {
        self.latest
    }

    // Each flow has two places.
    fn flows(&self) -> usize {
        self.places.len() / 2
    }

    // There are no more steps than places: nothing runs in a circle.
    fn pour(&mut self, source: usize, grains: u128) {
        let mut left = grains;
        let mut at = Some(source);
        for _ in 0..self.places.len() {
            let Some(place) = at.and_then(|index| self.places.get_mut(index)) else {
                return;
            };
            left = place.take(left);
            at = place.next;
        }
    }

    fn grow(&mut self, moment: u64) {
        let time = u128::from(moment.saturating_sub(self.latest));
        for place in self.places.iter_mut() {
            place.open(time);
        }
        // By index: what is poured in at one place changes others.
        for source in 0..self.places.len() {
            let rate = self.places.get(source).map_or(0, |place| place.rate);
            self.pour(source, rate.saturating_mul(time));
        }
        self.latest = moment;
    }

    // The place that is handed as the bucket of an index: first all green ones, then all yellow ones.
    fn place_of_bucket(&self, index: usize) -> usize {
        match index.checked_sub(self.flows()) {
            Some(above) => yellow_of(above.saturating_add(1)),
            None => green_of(index.saturating_add(1)),
        }
    }

    // What should be in the bucket of an index.
    pub fn bucket(&self, index: usize) -> Option<Contents> {
        let place = self.places.get(self.place_of_bucket(index))?;
        Some(place.contents())
    }

    pub fn take_from_bucket(&mut self, index: usize, grains: u64) {
        let at = self.place_of_bucket(index);
        self.pays(at, u128::from(grains));
    }

    fn held(&self, at: usize) -> u128 {
        self.places.get(at).map_or(0, |place| place.held)
    }

    fn check_number(&self, handed: &[Contents]) -> Result<(), Cause> {
        if handed.len() != self.places.len() {
            return Err(Cause::Buckets);
        }
        Ok(())
    }

    fn check_volumes(&self, handed: &[Contents]) -> Result<(), Cause> {
        self.check_number(handed)?;
        let all_own = handed.iter().enumerate().all(|(index, bucket)| {
            self.bucket(index)
                .is_some_and(|own| own.volume == bucket.volume)
        });
        if !all_own {
            return Err(Cause::Buckets);
        }
        Ok(())
    }

    fn check_rank(&self, rank: u8) -> Result<(), Cause> {
        if !(1..=self.flows()).contains(&usize::from(rank)) {
            return Err(Cause::Rank);
        }
        Ok(())
    }

    fn colour(&mut self, request: Request) -> Colour {
        let rank = usize::from(request.rank);
        let amount = grains(u128::from(request.tokens));
        if request.asked == Colour::Red {
            return Colour::Red;
        }
        if request.asked == Colour::Green && self.pays(green_of(rank), amount) {
            return Colour::Green;
        }
        if self.pays(yellow_of(rank), amount) {
            return Colour::Yellow;
        }
        Colour::Red
    }

    fn pays(&mut self, at: usize, grains: u128) -> bool {
        self.places
            .get_mut(at)
            .is_some_and(|place| place.pay(grains))
    }

    fn judge(&mut self, request: Request) -> Result<Colour, Cause> {
        if request.tokens < 1 {
            return Err(Cause::NoTokens);
        }
        self.check_rank(request.rank)?;
        check_moment(self.latest, request.moment)?;
        self.grow(request.moment);
        Ok(self.colour(request))
    }

    fn fill(&mut self) {
        for place in self.places.iter_mut() {
            place.held = place.volume;
        }
    }

    // What is told where buckets of these contents are handed in.
    pub fn put(&mut self, handed: &[Contents], call: Call) -> Result<Told, Cause> {
        match call {
            Call::Fill => {
                self.check_number(handed)?;
                self.fill();
                Ok(Told::Done)
            }
            Call::Judge(request) => {
                self.check_volumes(handed)?;
                Ok(Told::Colour(self.judge(request)?))
            }
            Call::Advance(moment) => {
                self.check_volumes(handed)?;
                check_moment(self.latest, moment)?;
                self.grow(moment);
                Ok(Told::Done)
            }
            Call::Read(rank) => {
                self.check_volumes(handed)?;
                self.check_rank(rank)?;
                let rank = usize::from(rank);
                Ok(Told::Counts {
                    green: self.held(green_of(rank)),
                    yellow: self.held(yellow_of(rank)),
                })
            }
        }
    }
}
