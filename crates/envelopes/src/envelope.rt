// An envelope: a draft that is open, and the latest moment of its buckets. An envelope is moved, never copied; its
// buckets are the caller's, and are handed to each call.
ghost use Rattle.std.specs.Prelude.{◌≡◌};
ghost use Rattle.envelopes.specs.Drafts.{profile};
ghost use Rattle.envelopes.specs.Guarantee.{ShareGuarantee};
ghost use Rattle.envelopes.specs.Histories.{by_meaning};

use crate::draft::Draft;
use tokens::time::Time;

mod calls;
mod checks;
pub mod shares;
mod steps;

#[derive(Debug, Drop)]
pub struct Envelope {
    draft: Draft,
    latest: Time,
}

impl Draft {
    /// Opens the draft: the latest moment is 0, and flows can no more be added. Whatever is then asked of the envelope,
    /// its flows get their shares.
    pub fn open(self) -> Envelope
        ensures draft { result.draft ≡ self }
        ensures latest { result.latest.micros ≡ 0 }
        ensures shares { ShareGuarantee by_meaning by_meaning (λ meter. meter) (profile self) }
    {
        Envelope {
            draft: self,
            latest: Time::start(),
        }
    }
}

impl Envelope {
    /// Gives the draft back.
    pub fn close(self) -> Draft
        ensures { result ≡ self.draft }
    {
        let Envelope { draft, latest: _ } = self;
        draft
    }

    /// The moment of the last request or advance that was accepted, 0 if there was none.
    pub fn latest(&self) -> u64
        ensures { result ≡ self.now.latest.micros }
    {
        self.latest.micros
    }
}
