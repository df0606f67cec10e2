// A single-rate meter, by its meaning: a rate, a burst, the latest moment and the level at that moment.
ghost use Rattle.std.specs.Prelude.{◌≡◌, true, is_err};
ghost use Rattle.tokens.specs.Meters.{Metered, Sound, new_told, packet_told, wait_told, charged, waited};
ghost use Rattle.tokens.specs.Refusals.{told, told_by};

use crate::refusal::Refusal;

// A packet's tokens and its moment stay two numbers: a struct of both would be made for each call, and taken apart again
// in each clause. Each contract says that a refusal changes nothing, so that a caller has one to read. The forms' steps
// are alike, but each form takes them upon another number, so they are written in each.
pub trait Meter: Copy {
    ghost meaning: { Self → Metered };

    /// A meter at moment 0, full, for so many tokens a second and bursts of so many tokens.
    fn new(rate: u64, burst: u64) -> Result<Self, Refusal>
        ensures { told_by meaning result ≡ new_told rate burst };

    /// Moves to the moment and, where the packet passes, takes its tokens. Answers whether it passes.
    fn charge(&mut self, tokens: u32, moment: u64) -> Result<bool, Refusal>
        ensures value { told result ≡ packet_told (meaning self.old) tokens moment }
        ensures after { meaning self.new ≡ charged (meaning self.old) tokens moment }
        ensures refused { is_err result ≡ true → self.new ≡ self.old };

    /// Whether a packet of so many tokens would pass at a moment, which is what charging it to a copy answers.
    fn question(&self, tokens: u32, moment: u64) -> Result<bool, Refusal>
        ensures { told result ≡ packet_told (meaning self.now) tokens moment }
    {
        let mut copy = *self;
        copy.charge(tokens, moment)
    }

    /// Moves to the moment.
    fn wait(&mut self, moment: u64) -> Result<(), Refusal>
        ensures value { told result ≡ wait_told (meaning self.old) moment }
        ensures after { meaning self.new ≡ waited (meaning self.old) moment }
        ensures refused { is_err result ≡ true → self.new ≡ self.old };

    ghost sound: { (m : Self) → Sound (meaning m) };
}
