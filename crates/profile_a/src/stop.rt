// What ends a report before its last line.
ghost use Rattle.std.specs.Prelude.{◌≡◌};
ghost use Rattle.profile_a.specs.declared.stop.Stop.TheVariants.{OutOfMemory, Refused};

use envelopes::refusal::Refusal;
use std::alloc::AllocError;

#[derive(Clone, Copy, Debug)]
pub(crate) enum Stop {
    Refused(Refusal),
    OutOfMemory(AllocError),
}

impl From<Refusal> for Stop {
    ghost from_gives = { λ refusal stop. stop ≡ Refused refusal };

    fn from(refusal: Refusal) -> Stop {
        Stop::Refused(refusal)
    }
}

impl From<AllocError> for Stop {
    ghost from_gives = { λ e stop. stop ≡ OutOfMemory e };

    fn from(e: AllocError) -> Stop {
        Stop::OutOfMemory(e)
    }
}
