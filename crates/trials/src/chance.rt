// Pseudo-random numbers, the same in every run.

#[derive(Clone, Copy)]
pub struct Chance {
    state: u64,
}

impl Chance {
    pub fn new(seed: u64) -> Self {
        Chance {
            state: seed.wrapping_mul(0x9e37_79b9_7f4a_7c15) | 1,
        }
    }

    fn next(&mut self) -> u64 {
        let mut x = self.state;
        x ^= x >> 12;
        x ^= x.wrapping_mul(1 << 25);
        x ^= x >> 27;
        self.state = x;
        x.wrapping_mul(0x2545_f491_4f6c_dd1d) >> 11
    }

    // A number from `low` to `high`, where they are in order.
    pub fn between(&mut self, low: u64, high: u64) -> u64 {
        let spread = high.saturating_sub(low).saturating_add(1);
        low.saturating_add(self.next() % spread)
    }

    // A rank from `low` to `high`, where they are in order.
    pub fn rank(&mut self, low: u8, high: u8) -> u8 {
        u8::try_from(self.between(u64::from(low), u64::from(high))).unwrap_or(low)
    }

    // True once in so many times.
    pub fn one_in(&mut self, times: u64) -> bool {
        self.between(1, times) == 1
    }

    // An index into a list of this length. (`as`: there is no `From` between `u64` and `usize`.)
    pub fn index(&mut self, len: usize) -> usize {
        self.next() as usize % len.max(1)
    }

    // One of the choices.
    pub fn pick<T: Copy + Default>(&mut self, choices: &[T]) -> T {
        let at = self.index(choices.len());
        choices.get(at).copied().unwrap_or_default()
    }
}
