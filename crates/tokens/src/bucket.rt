// A bucket, by its meaning: a volume and a count, both in grains.
ghost use Rattle.std.specs.Prelude.{◌≡◌, ℕ, ◌+◌, ◌≤◌, false};
ghost use Rattle.tokens.specs.Buckets.{added, covers, spent};
ghost use Rattle.tokens.specs.Units.{grains as in_grains, largest_volume};

pub trait Bucket: Copy {
    ghost volume: { Self → ℕ };

    ghost count: { Self → ℕ };

    /// A full bucket that holds so many tokens.
    fn make(tokens: u32) -> Self
        ensures volume { volume result ≡ in_grains tokens }
        ensures count { count result ≡ in_grains tokens };

    fn volume(&self) -> u64
        ensures { result ≡ volume self.now };

    fn count(&self) -> u64
        ensures { result ≡ count self.now };

    /// Adds what there is room for, and answers how much that was.
    fn offer(&mut self, offered: u64) -> u64
        ensures value { result ≡ added (volume self.old) (count self.old) offered }
        ensures volume { volume self.new ≡ volume self.old }
        ensures count { count self.new ≡ count self.old + added (volume self.old) (count self.old) offered };

    /// Takes the whole amount, or nothing where the count does not cover it.
    fn spend(&mut self, amount: u64) -> bool
        ensures value { result ≡ covers (count self.old) amount }
        ensures volume { volume self.new ≡ volume self.old }
        ensures count { count self.new ≡ spent (count self.old) amount }
        ensures same { result ≡ false → self.new ≡ self.old };

    ghost within: { (b : Self) → count b ≤ volume b };

    ghost bounded: { (b : Self) → volume b ≤ largest_volume };
}
