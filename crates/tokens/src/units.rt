// Units and limits. A token is one byte; a grain is a millionth of a token; a moment is microseconds since the
// service day began. A rate is whole tokens a second, so rate × microseconds is grains, with no rounding.
ghost use Rattle.std.specs.Prelude.{◌≡◌, ◌*◌};
ghost use Rattle.tokens.specs.Units.{grains as in_grains};

pub const GRAINS_PER_TOKEN: u64 = 1_000_000;

/// The last moment of a service day, in microseconds.
pub const DAY_END: u64 = 86_400_000_000;

/// The highest rate, in tokens a second.
pub const HIGHEST_RATE: u64 = 100_000_000;

/// The largest burst of a meter, in tokens.
pub const LARGEST_BURST: u64 = 1_000_000_000;

/// So many tokens, in grains.
pub fn grains(tokens: u32) -> u64
    ensures { result ≡ in_grains tokens }
{
    GRAINS_PER_TOKEN * u64::from(tokens)
}
