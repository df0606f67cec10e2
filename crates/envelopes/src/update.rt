// An update of an envelope's buckets: all overflows are worked out from the counts before it, then the buckets are
// written.
ghost use Rattle.std.specs.Prelude.{◌≡◌, map, length, take};
ghost use Rattle.envelopes.specs.Drafts.{profile};
ghost use Rattle.envelopes.specs.Growth.{grown};
ghost use Rattle.envelopes.specs.Promises.{in_a_row, parted, volumes as volumes_of};
ghost use Rattle.envelopes.specs.Updates.{additions_of, green_additions, yellow_additions};

use crate::buckets::offer_each;
use crate::column::{Column, flow_down};
use crate::draft::{Draft, MOST_FLOWS};
use crate::lane::Settled;
use tokens::bucket::Bucket;
use tokens::time::Time;

// What the green and the yellow buckets settle in a time, by the counts as they are. Nothing is written.
fn work_out<B: Bucket>(
    draft: &Draft,
    time: Time,
    greens: &[B],
    yellows: &[B],
) -> ([Settled; MOST_FLOWS], [Settled; MOST_FLOWS])
    requires greens { length greens.now ≡ length (profile draft.now).flows }
    requires yellows { length yellows.now ≡ length (profile draft.now).flows }
    ensures green { take (length (profile draft.now).flows) (additions_of result.0) ≡ green_additions (profile draft.now) time.micros (record { greens = map B.Bucket.count greens.now; yellows = map B.Bucket.count yellows.now }) }
    ensures yellow { take (length (profile draft.now).flows) (additions_of result.1) ≡ yellow_additions (profile draft.now) time.micros (record { greens = map B.Bucket.count greens.now; yellows = map B.Bucket.count yellows.now }) }
{
    let nothing = [Settled::default(); MOST_FLOWS];
    let green = flow_down(Column::Green, draft, nothing, time, 0, greens);
    // rank 1's green overflow goes to the highest yellow bucket only where CF0 is 1
    let top = if draft.cf0() { green[0].overflow } else { 0 };
    let yellow = flow_down(Column::Yellow, draft, green, time, top, yellows);
    (green, yellow)
}

// Lets all buckets grow by a time.
pub(crate) fn update<B: Bucket>(draft: &Draft, time: Time, buckets: &mut [B])
    requires { map B.Bucket.volume buckets.old ≡ volumes_of (profile draft.now).flows }
    ensures volumes { map B.Bucket.volume buckets.new ≡ map B.Bucket.volume buckets.old }
    ensures counts { map B.Bucket.count buckets.new ≡ in_a_row (grown (profile draft.now) time.micros (parted (length (profile draft.now).flows) (map B.Bucket.count buckets.old))) }
{
    let flows = draft.rows().len();
    let (greens, yellows) = buckets.split_at_mut(flows);
    let settled = work_out(draft, time, greens, yellows);
    offer_each(greens, settled.0);
    offer_each(yellows, settled.1);
}
