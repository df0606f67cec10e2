// How many packets and tokens a trace has had, and how many of them passed.
ghost use Rattle.std.specs.Prelude.{◌≡◌, ◌+◌, ◌^◌, ◌<◌};
ghost use Rattle.traces.specs.Reports.{counted};

use std::marker::Model;

#[derive(Default, Drop)]
pub(crate) struct Tally {
    pub(crate) packets: u64,
    pub(crate) passed: u64,
    pub(crate) tokens: u128,
    pub(crate) passed_tokens: u128,
}

impl Model for Tally {
    ghost use Rattle.traces.specs.Tallies.{Counts, Consistent};

    ghost Value = { Counts };

    ghost view = { λ t. record { packets = t.packets; passed = t.passed; tokens = t.tokens; passed_tokens = t.passed_tokens } };

    ghost invariant = { λ t. Consistent (record { packets = t.packets; passed = t.passed; tokens = t.tokens; passed_tokens = t.passed_tokens }) };
}

impl Tally {
    // Counts one packet more.
    pub(crate) fn count(&mut self, tokens: u32, passes: bool)
        requires { self.old.packets + 1 < 2 ^ 64 }
        ensures { self.new ≡ counted self.old tokens passes }
    {
        self.packets += 1;
        self.tokens += u128::from(tokens);
        if passes {
            self.passed += 1;
            self.passed_tokens += u128::from(tokens);
        }
    }
}
