// An open envelope, and its buckets, which go to every call together.
use crate::envelope_calls::{Call, Told, put};
use crate::limits::GRAINS_PER_TOKEN;
use crate::profiles::{Profile, index_of};
use envelopes::colour::{Colour, Request};
use envelopes::envelope::Envelope;
use envelopes::refusal::Refusal;
use std::alloc::Global;
use std::test::Fail;
use tokens::bucket::Bucket;

#[derive(Drop)]
pub struct Opened<B> {
    pub envelope: Envelope,
    pub buckets: Vec<B>,
}

impl<B: Bucket> Opened<B> {
    // The envelope of a profile, over full buckets.
    pub fn new(heap: Global, profile: &Profile) -> Result<Opened<B>, Fail> {
        Ok(Opened {
            envelope: profile.open()?,
            buckets: profile.make_buckets(heap)?,
        })
    }

    pub fn latest(&self) -> u64 {
        self.envelope.latest()
    }

    pub fn fill(&mut self) -> Result<(), Refusal> {
        self.envelope.fill(self.buckets.as_mut_slice())
    }

    pub fn judge(&mut self, request: Request) -> Result<Colour, Refusal> {
        self.envelope.judge(self.buckets.as_mut_slice(), request)
    }

    pub fn advance(&mut self, moment: u64) -> Result<(), Refusal> {
        self.envelope.advance(self.buckets.as_mut_slice(), moment)
    }

    pub fn put(&mut self, call: Call) -> Result<Told, Refusal> {
        put(&mut self.envelope, self.buckets.as_mut_slice(), call)
    }

    // Each flow has two buckets.
    fn flows(&self) -> usize {
        self.buckets.len() / 2
    }

    // The highest rank.
    pub fn highest(&self) -> u8 {
        u8::try_from(self.flows()).unwrap_or(u8::MAX)
    }

    // The whole tokens that a bucket holds.
    fn tokens_at(&self, index: usize) -> u64 {
        self.buckets
            .get(index)
            .map_or(0, |bucket| bucket.count() / GRAINS_PER_TOKEN)
    }

    // The whole tokens that a rank's green and yellow bucket hold.
    pub fn held(&self, rank: u8) -> (u64, u64) {
        let index = index_of(rank);
        let yellow = index.saturating_add(self.flows());
        (self.tokens_at(index), self.tokens_at(yellow))
    }
}
