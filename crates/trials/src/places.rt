// The places of an envelope by pouring: a flow's green and yellow one, and where each runs on to.
use crate::contents::Contents;
use crate::limits::grains;
use crate::profiles::Profile;
use envelopes::flow::{Flow, Supply};

#[derive(Clone, Copy)]
pub struct Place {
    pub rate: u128,
    maximum: Option<u64>,
    pub volume: u128,
    pub held: u128,
    room: u128,
    // An index: two places may run on to one, so that neither can own it.
    pub next: Option<usize>,
}

impl Place {
    pub fn new(supply: Supply, next: Option<usize>) -> Place {
        let volume = grains(u128::from(supply.volume));
        Place {
            rate: u128::from(supply.rate),
            maximum: supply.maximum,
            volume,
            held: volume,
            room: 0,
            next,
        }
    }

    pub fn contents(&self) -> Contents {
        Contents {
            held: self.held,
            volume: self.volume,
        }
    }

    pub fn open(&mut self, time: u128) {
        self.room = self.volume.saturating_sub(self.held);
        if let Some(maximum) = self.maximum {
            self.room = self.room.min(u128::from(maximum).saturating_mul(time));
        }
    }

    // What runs on.
    pub fn take(&mut self, grains: u128) -> u128 {
        let taken = grains.min(self.room);
        self.room = self.room.saturating_sub(taken);
        self.held = self.held.saturating_add(taken);
        grains.saturating_sub(taken)
    }

    pub fn pay(&mut self, grains: u128) -> bool {
        let Some(left) = self.held.checked_sub(grains) else {
            return false;
        };
        self.held = left;
        true
    }
}

// The green place of a rank; its yellow one is the next.
pub fn green_of(rank: usize) -> usize {
    rank.saturating_sub(1).saturating_mul(2)
}

pub fn yellow_of(rank: usize) -> usize {
    green_of(rank).saturating_add(1)
}

// Where green that a rank cannot take runs on to.
pub fn after_green(profile: &Profile, flow: &Flow, rank: usize) -> Option<usize> {
    if flow.cf {
        Some(yellow_of(rank))
    } else if rank > 1 {
        Some(green_of(rank.saturating_sub(1)))
    } else if profile.cf0 {
        Some(yellow_of(profile.flows.len()))
    } else {
        None
    }
}

pub fn after_yellow(rank: usize) -> Option<usize> {
    (rank > 1).then_some(yellow_of(rank.saturating_sub(1)))
}
