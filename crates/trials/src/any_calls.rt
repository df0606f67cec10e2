// Pseudo-random calls upon an envelope: about what its buckets hold and about its latest moment, and now and then far
// from both; and the buckets that a call is handed, now and then not those of the envelope.
use crate::chance::Chance;
use crate::envelope_calls::Call;
use crate::limits::{DAY_END, GRAINS_PER_TOKEN};
use crate::opened::Opened;
use envelopes::colour::{Colour, Request};
use std::alloc::{AllocError, Global};
use tokens::bucket::Bucket;

fn any_colour(chance: &mut Chance) -> Colour {
    match chance.between(0, 9) {
        0 => Colour::Red,
        1..=2 => Colour::Yellow,
        _ => Colour::Green,
    }
}

fn any_moment(chance: &mut Chance, latest: u64) -> u64 {
    let edges = [
        0,
        0,
        1,
        chance.between(0, 1_000),
        chance.between(0, 100_000),
        chance.between(0, 1_000_000),
        chance.between(0, 3_000_000),
    ];
    let rare = [
        latest.saturating_sub(1),
        chance.between(0, latest),
        chance.pick(&[latest, latest, DAY_END]),
        latest.saturating_add(3_600_000_000),
        DAY_END + 1,
        DAY_END + 1,
        u64::MAX,
    ];
    if chance.one_in(25) {
        chance.pick(&rare)
    } else {
        latest.saturating_add(chance.pick(&edges))
    }
}

fn any_rank(chance: &mut Chance, highest: u8) -> u8 {
    if chance.one_in(20) {
        chance.pick(&[0, highest.saturating_add(1), 255])
    } else {
        chance.rank(1, highest)
    }
}

// A number of tokens: an edge, or about what the rank's buckets hold.
fn any_tokens<B: Bucket>(chance: &mut Chance, opened: &Opened<B>, rank: u8) -> u32 {
    let (green, yellow) = opened.held(rank);
    let edges = [
        chance.between(0, 1),
        1,
        green.max(1),
        green.saturating_add(1),
        yellow.max(1),
        yellow.saturating_add(1),
        chance.between(1, green.max(1)),
        chance.between(1, green / 3 + 1),
        chance.between(1, yellow.max(1)),
        4_294_967_295,
    ];
    u32::try_from(chance.pick(&edges)).unwrap_or(1)
}

// A request at a moment about the latest one.
pub fn any_request<B: Bucket>(chance: &mut Chance, opened: &Opened<B>, latest: u64) -> Request {
    let rank = any_rank(chance, opened.highest());
    Request {
        tokens: any_tokens(chance, opened, rank),
        moment: any_moment(chance, latest),
        asked: any_colour(chance),
        rank,
    }
}

pub fn any_call<B: Bucket>(chance: &mut Chance, opened: &Opened<B>) -> Call {
    let request = any_request(chance, opened, opened.latest());
    match chance.between(0, 29) {
        0 => Call::Fill,
        1..=2 => Call::Read(request.rank),
        3..=5 => Call::Advance(request.moment),
        _ => Call::Judge(request),
    }
}

// The volume of a bucket, in tokens.
pub fn volume_of<B: Bucket>(bucket: B) -> u32 {
    u32::try_from(bucket.volume() / GRAINS_PER_TOKEN).unwrap_or(0)
}

// A bucket of another volume.
fn other<B: Bucket>(chance: &mut Chance, bucket: B) -> B {
    let tokens = volume_of(bucket);
    if chance.one_in(2) {
        B::make(tokens.wrapping_sub(1))
    } else {
        B::make(tokens.saturating_add(1))
    }
}

// A copy of the buckets, now and then with one too few or too many, with none, or with one of another volume.
pub fn any_handed<B: Bucket>(
    heap: Global,
    chance: &mut Chance,
    buckets: &[B],
) -> Result<Vec<B>, AllocError> {
    let mut handed = buckets.to_vec(heap)?;
    let at = chance.index(16);
    match chance.between(0, 29) {
        0 => {
            if let Some(bucket) = handed.get_mut(at) {
                *bucket = other(chance, *bucket);
            }
        }
        1 => {
            let _ = handed.pop();
        }
        2 => handed.clear(),
        3 => handed.push(B::make(0))?,
        _ => {}
    }
    Ok(handed)
}
