// The four calls upon an envelope and its buckets, the same for every kind of bucket. Each checks first, and changes
// nothing where it refuses. Each contract says that, and that the draft stays, so that a caller has one to read.
ghost use Rattle.std.specs.Prelude.{◌≡◌, true, is_err};
ghost use Rattle.envelopes.specs.Envelopes.{Promised};
ghost use Rattle.envelopes.specs.Promises.{advance as advancing, fill as filling, judge as judging, read as reading};
ghost use Rattle.envelopes.specs.Refusals.{told};

use crate::buckets::{counts_of, make_all};
use crate::colour::{Colour, Request};
use crate::colouring::declare;
use crate::envelope::Envelope;
use crate::refusal::Refusal;
use tokens::bucket::Bucket;

impl Envelope {
    /// Makes all buckets anew, full. The latest moment stays.
    pub fn fill<B: Bucket>(&mut self, buckets: &mut [B]) -> Result<(), Refusal>
        ensures promise { Promised B.Bucket.volume B.Bucket.count self.old buckets.old (filling (told result)) self.new buckets.new }
        ensures same { self.new ≡ self.old }
        ensures refused { is_err result ≡ true → buckets.new ≡ buckets.old }
    {
        if buckets.len() != 2 * self.flows() {
            return Err(Refusal::Buckets);
        }
        make_all(&self.draft, buckets);
        Ok(())
    }

    /// Lets the buckets grow up to a moment.
    pub fn advance<B: Bucket>(&mut self, buckets: &mut [B], moment: u64) -> Result<(), Refusal>
        ensures promise { Promised B.Bucket.volume B.Bucket.count self.old buckets.old (advancing moment (told result)) self.new buckets.new }
        ensures draft { self.new.draft ≡ self.old.draft }
        ensures refused { is_err result ≡ true → (self.new ≡ self.old) × (buckets.new ≡ buckets.old) }
    {
        let moment = self.check_advance(buckets, moment)?;
        self.move_to(buckets, moment);
        Ok(())
    }

    /// Lets the buckets grow up to the request's moment, colours it, and spends what the colour costs.
    pub fn judge<B: Bucket>(
        &mut self,
        buckets: &mut [B],
        request: Request,
    ) -> Result<Colour, Refusal>
        ensures promise { Promised B.Bucket.volume B.Bucket.count self.old buckets.old (judging request (told result)) self.new buckets.new }
        ensures draft { self.new.draft ≡ self.old.draft }
        ensures refused { is_err result ≡ true → (self.new ≡ self.old) × (buckets.new ≡ buckets.old) }
    {
        let moment = self.check_request(buckets, request)?;
        self.move_to(buckets, moment);
        Ok(declare(&self.draft, buckets, request))
    }

    /// A rank's green and yellow count, in grains.
    pub fn read<B: Bucket>(&self, buckets: &[B], rank: u8) -> Result<(u64, u64), Refusal>
        ensures { Promised B.Bucket.volume B.Bucket.count self.now buckets.now (reading rank (told result)) self.now buckets.now }
    {
        self.check_read(buckets, rank)?;
        Ok(counts_of(&self.draft, buckets, rank))
    }
}
