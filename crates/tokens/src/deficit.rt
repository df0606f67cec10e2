// The leaky kind of bucket: it stores the deficit, which is what is missing from a full one.
ghost use Rattle.std.specs.Prelude.{◌-◌, ◌≤◌};
ghost use Rattle.tokens.specs.Units.{largest_volume};
ghost use Rattle.std.proofs.Common.{rules};

use crate::bucket::Bucket;
use crate::units::grains;

#[derive(Clone, Copy)]
pub struct DeficitBucket {
    volume: u64,
    deficit: u64,
    ghost within: { deficit ≤ volume },
    ghost bounded: { volume ≤ largest_volume },
}

impl Bucket for DeficitBucket {
    ghost volume = { λ b. b.volume };

    ghost count = { λ b. b.volume - b.deficit };

    ghost within = { Prim.search rules };

    ghost bounded = { Prim.search rules };

    fn make(tokens: u32) -> Self {
        DeficitBucket {
            volume: grains(tokens),
            deficit: 0,
        }
    }

    fn volume(&self) -> u64 {
        self.volume
    }

    fn count(&self) -> u64 {
        self.volume - self.deficit
    }

    fn offer(&mut self, offered: u64) -> u64 {
        let added = offered.min(self.deficit);
        self.deficit -= added;
        added
    }

    fn spend(&mut self, amount: u64) -> bool {
        let covered = amount <= self.volume - self.deficit;
        if covered {
            self.deficit += amount;
        }
        covered
    }
}
