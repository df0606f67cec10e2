// What a bucket holds, and its volume, in grains.
use std::alloc::{AllocError, Global};
use tokens::bucket::Bucket;

#[derive(Clone, Copy, PartialEq, Eq, Debug)]
pub struct Contents {
    pub held: u128,
    pub volume: u128,
}

impl Contents {
    fn of<B: Bucket>(bucket: &B) -> Contents {
        Contents {
            held: u128::from(bucket.count()),
            volume: u128::from(bucket.volume()),
        }
    }
}

pub fn contents_of<B: Bucket>(heap: Global, buckets: &[B]) -> Result<Vec<Contents>, AllocError> {
    buckets.iter().map(Contents::of).collect(heap)
}
