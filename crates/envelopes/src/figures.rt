// The worked figures, and the profile that most of them are of.
ghost use Rattle.std.specs.Prelude.{◌≡◌};
ghost use Rattle.envelopes.specs.Figures.{Figures, WorkedHistory, the_profile_a, supply as supply_of};

use crate::flow::{Flow, Supply};

/// A bucket's supply without a maximum.
fn supply(rate: u64, volume: u64) -> Supply
    ensures { result ≡ supply_of rate volume }
{
    Supply {
        rate,
        maximum: None,
        volume,
    }
}

/// The two flows of profile A, rank 1 first. Its CF0 is 0.
pub fn profile_a() -> [Flow; 2]
    ensures flows { result ≡ the_profile_a.flows }
    ensures figures { Figures }
    ensures history { WorkedHistory }
{
    let lower = Flow {
        green: supply(0, 1_000),
        yellow: supply(500, 2_000),
        cf: false,
    };
    let upper = Flow {
        green: supply(1_000, 1_500),
        yellow: supply(0, 0),
        cf: false,
    };
    [lower, upper]
}
