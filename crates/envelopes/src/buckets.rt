// An envelope's buckets, as the caller hands them in: whether they fit its draft, and how they are written.
// Each function here says of its own buckets that the volumes stay, asks for two of them for each flow, and splits them
// into the green and the yellow half: a name for a clause would be no shorter, and a function that hands out both halves
// would have to say how they are written back.
ghost use Rattle.std.specs.Prelude.{◌≡◌, ◌*◌, ◌≤◌, map, length};
ghost use Rattle.envelopes.specs.Drafts.{profile};
ghost use Rattle.envelopes.specs.Promises.{parted, rank_counts, same as same_numbers, volumes as volumes_of};
ghost use Rattle.envelopes.specs.Stored.{most_flows};
ghost use Rattle.envelopes.specs.Updates.{additions_of, column_volumes, offered};

use crate::column::Column;
use crate::draft::{Draft, MOST_FLOWS};
use crate::lane::Settled;
use tokens::bucket::Bucket;
use tokens::units::GRAINS_PER_TOKEN;

// Offers each bucket what it adds. A bucket is a plain value: by a rule of this layer it is copied out, told and written
// back.
pub(crate) fn offer_each<B: Bucket>(buckets: &mut [B], settled: [Settled; MOST_FLOWS])
    requires { length buckets.old ≤ most_flows }
    ensures volumes { map B.Bucket.volume buckets.new ≡ map B.Bucket.volume buckets.old }
    ensures counts { map B.Bucket.count buckets.new ≡ offered (map B.Bucket.volume buckets.old) (map B.Bucket.count buckets.old) (additions_of settled) }
{
    // by place: nothing is known of the buckets after a zip over `iter_mut`
    for (place, bucket) in buckets.iter_mut().enumerate() {
        let mut told = *bucket;
        told.offer(settled[place].added);
        *bucket = told;
    }
}

// Makes each bucket of a column anew, full.
pub(crate) fn make_each<B: Bucket>(column: Column, draft: &Draft, buckets: &mut [B])
    requires { length buckets.old ≡ length (profile draft.now).flows }
    ensures volumes { map B.Bucket.volume buckets.new ≡ column_volumes column (profile draft.now).flows }
    ensures counts { map B.Bucket.count buckets.new ≡ column_volumes column (profile draft.now).flows }
{
    let rows = draft.rows();
    // by place, as in `offer_each`
    // `as`: a row's volume fits, so there is no case for `try_from` to answer
    for (place, bucket) in buckets.iter_mut().enumerate() {
        *bucket = B::make(column.supply(rows[place].flow()).volume as u32);
    }
}

// Whether there are two buckets for each flow, with the flows' volumes: the green ones by rank, then the yellow ones.
// Their number is looked at first, and each half by itself, cut to as many buckets as there are flows: one chain through
// both halves takes about twice as long.
pub(crate) fn fit<B: Bucket>(draft: &Draft, buckets: &[B]) -> bool
    ensures { result ≡ same_numbers (volumes_of (profile draft.now).flows) (map B.Bucket.volume buckets.now) }
{
    let flows = draft.rows().len();
    if buckets.len() != 2 * flows {
        return false;
    }
    let greens = &buckets[..flows];
    let yellows = &buckets[flows..flows + flows];
    // two chains in each half: a function that hands one out would have to name its type
    let green_volumes = draft
        .rows()
        .iter()
        .map(|row| GRAINS_PER_TOKEN * row.flow().green.volume);
    let yellow_volumes = draft
        .rows()
        .iter()
        .map(|row| GRAINS_PER_TOKEN * row.flow().yellow.volume);
    green_volumes.eq(greens.iter().map(|bucket| bucket.volume()))
        && yellow_volumes.eq(yellows.iter().map(|bucket| bucket.volume()))
}

// Makes all buckets anew, full.
pub(crate) fn make_all<B: Bucket>(draft: &Draft, buckets: &mut [B])
    requires { length buckets.old ≡ 2 * length (profile draft.now).flows }
    ensures volumes { map B.Bucket.volume buckets.new ≡ volumes_of (profile draft.now).flows }
    ensures counts { map B.Bucket.count buckets.new ≡ volumes_of (profile draft.now).flows }
{
    let flows = draft.rows().len();
    let (greens, yellows) = buckets.split_at_mut(flows);
    make_each(Column::Green, draft, greens);
    make_each(Column::Yellow, draft, yellows);
}

// The counts of a rank's green and yellow bucket.
pub(crate) fn counts_of<B: Bucket>(draft: &Draft, buckets: &[B], rank: u8) -> (u64, u64)
    requires even { length buckets.now ≡ 2 * length (profile draft.now).flows }
    requires some_rank { 1 ≤ rank }
    requires rank_bound { rank ≤ length (profile draft.now).flows }
    ensures { result ≡ rank_counts (parted (length (profile draft.now).flows) (map B.Bucket.count buckets.now)) rank }
{
    let (greens, yellows) = buckets.split_at(draft.rows().len());
    let place = usize::from(rank) - 1;
    (greens[place].count(), yellows[place].count())
}
