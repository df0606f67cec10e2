// The kind of bucket that stores its count.
ghost use Rattle.std.specs.Prelude.{◌≤◌};
ghost use Rattle.tokens.specs.Units.{largest_volume};
ghost use Rattle.std.proofs.Common.{rules};

use crate::bucket::Bucket;
use crate::units::grains;

#[derive(Clone, Copy)]
pub struct CountingBucket {
    volume: u64,
    count: u64,
    ghost within: { count ≤ volume },
    ghost bounded: { volume ≤ largest_volume },
}

impl Bucket for CountingBucket {
    ghost volume = { λ b. b.volume };

    ghost count = { λ b. b.count };

    ghost within = { Prim.search rules };

    ghost bounded = { Prim.search rules };

    fn make(tokens: u32) -> Self {
        let volume = grains(tokens);
        CountingBucket {
            volume,
            count: volume,
        }
    }

    fn volume(&self) -> u64 {
        self.volume
    }

    fn count(&self) -> u64 {
        self.count
    }

    fn offer(&mut self, offered: u64) -> u64 {
        let added = offered.min(self.volume - self.count);
        self.count += added;
        added
    }

    fn spend(&mut self, amount: u64) -> bool {
        let covered = amount <= self.count;
        if covered {
            self.count -= amount;
        }
        covered
    }
}
