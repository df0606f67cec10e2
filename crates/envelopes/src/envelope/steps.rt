// The step that an advance and a request have in common, with what stays: their own contracts say it from this one.
ghost use Rattle.std.specs.Prelude.{◌≡◌, ◌-◌, map, length};
ghost use Rattle.envelopes.specs.Drafts.{profile};
ghost use Rattle.envelopes.specs.Growth.{grown};
ghost use Rattle.envelopes.specs.Promises.{in_a_row, parted, volumes as volumes_of};

use crate::envelope::Envelope;
use crate::update::update;
use tokens::bucket::Bucket;
use tokens::time::Time;

impl Envelope {
    // Lets the buckets grow up to a moment.
    pub(super) fn move_to<B: Bucket>(&mut self, buckets: &mut [B], moment: Time)
        requires { map B.Bucket.volume buckets.old ≡ volumes_of (profile self.old.draft).flows }
        ensures draft { self.new.draft ≡ self.old.draft }
        ensures latest { self.new.latest ≡ moment }
        ensures volumes { map B.Bucket.volume buckets.new ≡ map B.Bucket.volume buckets.old }
        ensures counts { map B.Bucket.count buckets.new ≡ in_a_row (grown (profile self.old.draft) (moment.micros - self.old.latest.micros) (parted (length (profile self.old.draft).flows) (map B.Bucket.count buckets.old))) }
    {
        update(&self.draft, moment.since(self.latest), buckets);
        self.latest = moment;
    }
}
