// What the flows below a rank do, and requests from that rank up.
use crate::any_calls::any_request;
use crate::chance::Chance;
use crate::opened::Opened;
use envelopes::colour::Request;
use tokens::bucket::Bucket;

// When the flows below make their calls: at the moments of the requests from the rank up, or at moments of their own
// too.
#[derive(Clone, Copy)]
pub enum Moments {
    Shared,
    Own,
}

// The flows up to a rank.
#[derive(Clone, Copy)]
pub struct Below {
    pub rank: u8,
    pub moments: Moments,
}

impl Below {
    // Requests of these flows at this moment, which the envelope reaches in any case.
    fn ask<B: Bucket>(self, chance: &mut Chance, opened: &mut Opened<B>, moment: u64) {
        for _ in 0..chance.between(0, 4) {
            let request = any_request(chance, opened, moment);
            let _ = opened.judge(Request {
                moment,
                rank: request.rank.min(self.rank),
                ..request
            });
        }
        if opened.latest() != moment {
            let _ = opened.advance(moment);
        }
    }

    // The flows go on up to this moment.
    pub fn go_on<B: Bucket>(self, chance: &mut Chance, opened: &mut Opened<B>, until: u64) {
        match self.moments {
            Moments::Shared => self.ask(chance, opened, until),
            Moments::Own => {
                for _ in 0..chance.between(0, 3) {
                    let moment = chance.between(opened.latest(), until);
                    self.ask(chance, opened, moment);
                }
            }
        }
    }

    // A request from above these flows, at this moment.
    pub fn above<B: Bucket>(self, chance: &mut Chance, opened: &Opened<B>, moment: u64) -> Request {
        let request = any_request(chance, opened, moment);
        Request {
            moment,
            rank: chance.rank(self.rank.saturating_add(1), opened.highest()),
            ..request
        }
    }
}

pub fn later(chance: &mut Chance, moment: u64) -> u64 {
    let spans = [
        0,
        1,
        chance.between(0, 10_000),
        chance.between(0, 1_000_000),
        chance.between(0, 2_000_000),
    ];
    moment.saturating_add(chance.pick(&spans))
}
