// The two columns of an envelope's buckets, rank by rank.
ghost use Rattle.std.specs.Prelude.{◌≡◌, ◌*◌, ◌≤◌, map, length, take};
ghost use Rattle.envelopes.specs.Drafts.{profile};
ghost use Rattle.envelopes.specs.Growth.{overflows};
ghost use Rattle.envelopes.specs.Income.{income};
ghost use Rattle.envelopes.specs.Updates.{additions, additions_of, lane as lane_of, lanes, overflows_of, supply as supply_of};
ghost use Rattle.tokens.specs.Units.{day_end, highest_rate};

use crate::draft::{Draft, MOST_FLOWS};
use crate::flow::{Flow, Supply};
use crate::lane::{Lane, Settled};
use tokens::bucket::Bucket;
use tokens::time::Time;

// An enum: of two closures, or of two types of a trait, the clauses below would say more and the code no less.
#[derive(Clone, Copy)]
pub(crate) enum Column {
    Green,
    Yellow,
}

impl Column {
    pub(crate) fn supply(self, flow: Flow) -> Supply
        ensures { result ≡ supply_of self flow }
    {
        match self {
            Column::Green => flow.green,
            Column::Yellow => flow.yellow,
        }
    }

    // A flow's bucket of this column, which holds so much; the flow's green overflow is given for the yellow one.
    fn lane(self, flow: Flow, green_over: u64, count: u64) -> Lane
        ensures { result ≡ lane_of self flow green_over count }
    {
        let supply = self.supply(flow);
        match self {
            Column::Green => Lane {
                supply,
                besides: 0,
                withheld: flow.cf,
                count,
            },
            Column::Yellow => Lane {
                supply,
                besides: if flow.cf { green_over } else { 0 },
                withheld: false,
                count,
            },
        }
    }
}

// What each bucket of a column settles, from the highest rank down and by the counts as they are; the yellow column is
// fed by what the green one settled. What comes to the highest rank from outside is `top`. By a rule of this layer an
// array of eight by value carries all that before any bucket is written; places past the last rank are spare.
pub(crate) fn flow_down<B: Bucket>(
    column: Column,
    draft: &Draft,
    greens: [Settled; MOST_FLOWS],
    time: Time,
    top: u64,
    buckets: &[B],
) -> [Settled; MOST_FLOWS]
    requires even { length buckets.now ≡ length (profile draft.now).flows }
    requires income { income time.micros top (lanes column (profile draft.now).flows (overflows_of greens) (map B.Bucket.count buckets.now)) ≤ highest_rate * day_end }
    ensures added { take (length (profile draft.now).flows) (additions_of result) ≡ additions time.micros top (lanes column (profile draft.now).flows (overflows_of greens) (map B.Bucket.count buckets.now)) }
    ensures over { take (length (profile draft.now).flows) (overflows_of result) ≡ overflows time.micros top (lanes column (profile draft.now).flows (overflows_of greens) (map B.Bucket.count buckets.now)) }
{
    // by place, since `settled` is written from its end; a zip with the buckets, gone through from its end, is slow
    let mut settled = [Settled::default(); MOST_FLOWS];
    let mut handed = top;
    for (place, row) in draft.rows().iter().enumerate().rev() {
        let count = buckets[place].count();
        let lane = column.lane(row.flow(), greens[place].overflow, count);
        let here = lane.settle(time, handed);
        handed = if lane.withheld { 0 } else { here.overflow };
        settled[place] = here;
    }
    settled
}
