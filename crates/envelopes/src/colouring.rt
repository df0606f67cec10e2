// How a request is coloured, and what it spends. Clauses, halves and buckets are treated as in `buckets`.
ghost use Rattle.std.specs.Prelude.{◌≡◌, ◌*◌, ◌<◌, ◌≤◌, map, length, if◌then◌else◌, slice_index};
ghost use Rattle.envelopes.specs.Colouring.{colour as colour_of, is_yellow, lowered, spent, yellow_or_red as yellow_or_red_lem};
ghost use Rattle.envelopes.specs.Drafts.{profile};
ghost use Rattle.envelopes.specs.Promises.{in_a_row, parted};
ghost use Rattle.tokens.specs.Buckets.{covers};

use crate::colour::{Colour, Request};
use crate::draft::Draft;
use tokens::bucket::Bucket;
use tokens::units::grains;

// The whole amount is spent from the bucket at a place, or nothing.
fn spend_at<B: Bucket>(buckets: &mut [B], place: usize, amount: u64) -> bool
    requires { place < length buckets.old }
    ensures value { result ≡ covers (slice_index (map B.Bucket.count buckets.old) place) amount }
    ensures volumes { map B.Bucket.volume buckets.new ≡ map B.Bucket.volume buckets.old }
    ensures counts { map B.Bucket.count buckets.new ≡ lowered place (if result then amount else 0) (map B.Bucket.count buckets.old) }
{
    let mut bucket = buckets[place];
    let spent = bucket.spend(amount);
    buckets[place] = bucket;
    spent
}

// Yellow where the yellow bucket at a place covers the amount, which is then spent.
fn yellow_or_red<B: Bucket>(buckets: &mut [B], place: usize, amount: u64) -> Colour
    requires { place < length buckets.old }
    ensures value { result ≡ yellow_or_red_lem amount (slice_index (map B.Bucket.count buckets.old) place) }
    ensures volumes { map B.Bucket.volume buckets.new ≡ map B.Bucket.volume buckets.old }
    ensures counts { map B.Bucket.count buckets.new ≡ lowered place (if is_yellow result then amount else 0) (map B.Bucket.count buckets.old) }
{
    let covered = spend_at(buckets, place, amount);
    if covered { Colour::Yellow } else { Colour::Red }
}

// Colours a request by the counts as they stand.
pub(crate) fn declare<B: Bucket>(draft: &Draft, buckets: &mut [B], request: Request) -> Colour
    requires even { length buckets.old ≡ 2 * length (profile draft.now).flows }
    requires some_rank { 1 ≤ request.rank }
    requires rank_bound { request.rank ≤ length (profile draft.now).flows }
    ensures value { result ≡ colour_of request (parted (length (profile draft.now).flows) (map B.Bucket.count buckets.old)) }
    ensures volumes { map B.Bucket.volume buckets.new ≡ map B.Bucket.volume buckets.old }
    ensures counts { map B.Bucket.count buckets.new ≡ in_a_row (spent request result (parted (length (profile draft.now).flows) (map B.Bucket.count buckets.old))) }
{
    let flows = draft.rows().len();
    let (greens, yellows) = buckets.split_at_mut(flows);
    let place = usize::from(request.rank) - 1;
    let amount = grains(request.tokens);
    match request.asked {
        Colour::Green => {
            if spend_at(greens, place, amount) {
                return Colour::Green;
            }
            yellow_or_red(yellows, place, amount)
        }
        Colour::Yellow => yellow_or_red(yellows, place, amount),
        Colour::Red => Colour::Red,
    }
}
