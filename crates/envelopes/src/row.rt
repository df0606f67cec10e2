// A row: a flow that an envelope can keep its word to.
ghost use Rattle.std.specs.Prelude.{◌≡◌, ◌+◌, ◌≤◌};
ghost use Rattle.envelopes.specs.Refusals.{told_by};
ghost use Rattle.envelopes.specs.Rows.{LawfulSupply, nothing, row_causes, wrong_maximum};
ghost use Rattle.tokens.specs.Refusals.{unless_refused};
ghost use Rattle.tokens.specs.Units.{highest_rate};

use crate::flow::{Flow, Supply};
use crate::refusal::Refusal;
use tokens::units::HIGHEST_RATE;

/// The largest volume of a flow's bucket, in tokens.
pub const LARGEST_FLOW_VOLUME: u64 = 1_000_000_000;

#[derive(Clone, Copy, Debug, PartialEq, Eq, Hash)]
pub struct Row {
    flow: Flow,
    ghost rates: { flow.green.rate + flow.yellow.rate ≤ highest_rate },
    ghost green: { LawfulSupply flow.green },
    ghost yellow: { LawfulSupply flow.yellow },
}

fn has_wrong_maximum(supply: Supply) -> bool
    ensures { result ≡ wrong_maximum supply.maximum supply.rate }
{
    supply
        .maximum
        .is_some_and(|maximum| !(supply.rate..=HIGHEST_RATE).contains(&maximum))
}

impl Row {
    /// Refuses a flow whose rates, maxima or volumes are out of range.
    pub fn new(flow: Flow) -> Result<Self, Refusal>
        ensures { told_by (λ row. row.flow) result ≡ unless_refused (row_causes flow) flow }
    {
        if flow.green.rate > HIGHEST_RATE
            || flow.yellow.rate > HIGHEST_RATE
            || flow.green.rate + flow.yellow.rate > HIGHEST_RATE
        {
            return Err(Refusal::Rate);
        }
        if has_wrong_maximum(flow.green) || has_wrong_maximum(flow.yellow) {
            return Err(Refusal::Maximum);
        }
        if flow.green.volume > LARGEST_FLOW_VOLUME || flow.yellow.volume > LARGEST_FLOW_VOLUME {
            return Err(Refusal::Volume);
        }
        Ok(Row { flow })
    }

    pub fn flow(&self) -> Flow
        ensures { result ≡ self.now.flow }
    {
        self.flow
    }

    // The sum of its green and its yellow rate.
    pub(crate) fn rates(&self) -> u64
        ensures { result ≡ self.now.flow.green.rate + self.now.flow.yellow.rate }
    {
        self.flow.green.rate + self.flow.yellow.rate
    }
}

/// A row of nothing: its rates and volumes are 0, and it has neither a maximum nor CF.
impl Default for Row {
    ghost is_default = { λ row. row.flow ≡ nothing };

    fn default() -> Self {
        Row::new(Flow::default()).unwrap()
    }
}
