// The requests, in the order in which they are made.
ghost use Rattle.std.specs.Prelude.{◌≡◌};
ghost use Rattle.profile_a.specs.Requests.{all_six, asking_green};

use envelopes::colour::{Colour, Request};

fn ask_green(moment: u64, rank: u8, tokens: u32) -> Request
    ensures { result ≡ asking_green moment rank tokens }
{
    Request {
        tokens,
        moment,
        asked: Colour::Green,
        rank,
    }
}

pub(crate) fn six_requests() -> [Request; 6]
    ensures { result ≡ all_six }
{
    [
        ask_green(0, 2, 1_500),
        ask_green(999, 2, 1),
        ask_green(1_000, 2, 1),
        ask_green(1_000, 1, 1_001),
        ask_green(1_000, 1, 1_000),
        ask_green(2_001_000, 1, 501),
    ]
}
