// What the calls upon an envelope are checked for, in the order of the refusals' numbers.
ghost use Rattle.std.specs.Prelude.{◌≡◌, [], ◌∷◌, length};
ghost use Rattle.envelopes.specs.Drafts.{profile};
ghost use Rattle.envelopes.specs.Envelopes.{Checked};
ghost use Rattle.envelopes.specs.Promises.{advance_causes, bucket_cause, judge_causes, rank_cause, read_causes};
ghost use Rattle.envelopes.specs.Refusals.{told, told_by};
ghost use Rattle.tokens.specs.Refusals.{unless_refused};

use crate::buckets::fit;
use crate::colour::Request;
use crate::envelope::Envelope;
use crate::refusal::Refusal;
use tokens::bucket::Bucket;
use tokens::time::Time;

impl Envelope {
    // The number of flows.
    pub(crate) fn flows(&self) -> usize
        ensures { result ≡ length (profile self.now.draft).flows }
    {
        self.draft.rows().len()
    }

    // Refuses buckets that are not two for each flow, with the flows' volumes.
    fn check_buckets<B: Bucket>(&self, buckets: &[B]) -> Result<(), Refusal>
        ensures { Checked B.Bucket.volume B.Bucket.count self.now buckets.now (λ p s. bucket_cause p s ∷ []) (told result) tt }
    {
        if fit(&self.draft, buckets) {
            Ok(())
        } else {
            Err(Refusal::Buckets)
        }
    }

    // Refuses a rank that no flow has.
    fn check_rank(&self, rank: u8) -> Result<(), Refusal>
        ensures { told result ≡ unless_refused (rank_cause (profile self.now.draft) rank ∷ []) tt }
    {
        if !(1..=self.flows()).contains(&usize::from(rank)) {
            return Err(Refusal::Rank);
        }
        Ok(())
    }

    // The moment to advance to.
    pub(crate) fn check_advance<B: Bucket>(
        &self,
        buckets: &[B],
        moment: u64,
    ) -> Result<Time, Refusal>
        ensures { Checked B.Bucket.volume B.Bucket.count self.now buckets.now (λ p s. advance_causes p s moment) (told_by (λ time. time.micros) result) moment }
    {
        self.check_buckets(buckets)?;
        Ok(self.latest.next(moment)?)
    }

    // The moment of a request.
    pub(crate) fn check_request<B: Bucket>(
        &self,
        buckets: &[B],
        request: Request,
    ) -> Result<Time, Refusal>
        ensures { Checked B.Bucket.volume B.Bucket.count self.now buckets.now (λ p s. judge_causes p s request) (told_by (λ time. time.micros) result) request.moment }
    {
        self.check_buckets(buckets)?;
        if request.tokens == 0 {
            return Err(Refusal::NoTokens);
        }
        self.check_rank(request.rank)?;
        Ok(self.latest.next(request.moment)?)
    }

    pub(crate) fn check_read<B: Bucket>(&self, buckets: &[B], rank: u8) -> Result<(), Refusal>
        ensures { Checked B.Bucket.volume B.Bucket.count self.now buckets.now (λ p s. read_causes p s rank) (told result) tt }
    {
        self.check_buckets(buckets)?;
        self.check_rank(rank)
    }
}
