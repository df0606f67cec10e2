// The share guarantee, for buckets of any two kinds and a meter of any form.
ghost use Rattle.envelopes.specs.Drafts.{profile};
ghost use Rattle.envelopes.specs.Guarantee.{ShareGuarantee};

use crate::envelope::Envelope;
use tokens::bucket::Bucket;
use tokens::meter::Meter;

impl Envelope {
    /// What holds of every history of calls since this envelope's draft was opened, upon buckets of the kind `B` (and
    /// of another history upon buckets of the kind `C`), beside a lone meter of the form `M`. It does nothing: what it
    /// promises holds in any case.
    pub fn shares<B: Bucket, C: Bucket, M: Meter>(&self)
        ensures { ShareGuarantee (record { volume = B.Bucket.volume; count = B.Bucket.count }) (record { volume = C.Bucket.volume; count = C.Bucket.count }) M.Meter.meaning (profile self.now.draft) }
    {}
}
