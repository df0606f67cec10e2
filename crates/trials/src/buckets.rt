// The two kinds of bucket against a closed form: with all that was ever offered less all that was ever spent as the
// net, what is missing from a full bucket is how far the net has fallen below its highest value.
use crate::chance::Chance;
use crate::limits::GRAINS_PER_TOKEN;
use std::process::Abort;
use tokens::bucket::Bucket;
use tokens::counting::CountingBucket;
use tokens::deficit::DeficitBucket;

#[derive(Clone, Copy)]
struct Net {
    volume: i128,
    net: i128,
    highest: i128,
}

impl Net {
    fn count(&self) -> i128 {
        self.volume
            .wrapping_sub(self.highest.wrapping_sub(self.net))
    }

    // What an offer adds.
    fn offer(&mut self, offered: u64) -> i128 {
        let before = self.count();
        self.net = self.net.wrapping_add(i128::from(offered));
        self.highest = self.highest.max(self.net);
        self.count().wrapping_sub(before)
    }

    fn spend(&mut self, amount: u64) -> bool {
        let covered = i128::from(amount) <= self.count();
        if covered {
            self.net = self.net.wrapping_sub(i128::from(amount));
        }
        covered
    }
}

fn any_amount(chance: &mut Chance, net: &Net) -> u64 {
    let count = u64::try_from(net.count()).unwrap_or(0);
    let room = u64::try_from(net.volume).unwrap_or(0).saturating_sub(count);
    let edges = [
        0,
        1,
        count,
        count.saturating_add(1),
        count.saturating_sub(1),
        room,
        room.saturating_add(1),
        room.saturating_sub(1),
        chance.between(0, count),
        chance.between(0, room),
        u64::MAX,
    ];
    chance.pick(&edges)
}

fn sequence<B: Bucket>(rt: &impl Abort, seed: u64) {
    let mut chance = Chance::new(seed);
    let volumes = [
        0,
        1,
        1_500,
        1_000_000_000,
        4_294_967_295,
        chance.between(0, 4_294_967_295),
    ];
    let tokens = u32::try_from(chance.pick(&volumes)).unwrap_or(0);
    let volume = i128::from(tokens).wrapping_mul(i128::from(GRAINS_PER_TOKEN));
    let mut net = Net {
        volume,
        net: 0,
        highest: 0,
    };
    let mut bucket = B::make(tokens);
    for _ in 0..200 {
        assert_eq!(rt; i128::from(bucket.volume()), volume);
        assert_eq!(rt; i128::from(bucket.count()), net.count());
        let amount = any_amount(&mut chance, &net);
        if chance.one_in(2) {
            assert_eq!(rt; i128::from(bucket.offer(amount)), net.offer(amount));
        } else {
            assert_eq!(rt; bucket.spend(amount), net.spend(amount));
        }
    }
}

#[test]
fn two_kinds_agree_with_the_net(rt: HostRuntime) {
    for seed in 0..300 {
        sequence::<CountingBucket>(&rt, seed);
        sequence::<DeficitBucket>(&rt, seed);
    }
}
