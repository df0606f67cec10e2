// A draft: the rows of up to eight flows, to be opened as an envelope. A draft is moved, never copied.
ghost use Rattle.std.specs.Prelude.{◌≡◌, ◌≤◌, false, ◌&&◌};
ghost use Rattle.arrayvec.specs.ArrayVec.{array_vec_len};
ghost use Rattle.envelopes.specs.Profiles.{all_rates, coupled};
ghost use Rattle.envelopes.specs.Stored.{flows, most_flows};
ghost use Rattle.tokens.specs.Units.{highest_rate};

use crate::row::Row;
use arrayvec::ArrayVec;

mod editing;

/// The most flows that a draft takes.
pub const MOST_FLOWS: usize = 8;

#[derive(Debug, Drop)]
pub struct Draft {
    rows: ArrayVec<Row, MOST_FLOWS>,
    cf0: bool,
    ghost some: { 1 ≤ array_vec_len rows },
    // known of the rows by their type, but told only of their slices
    ghost few: { array_vec_len rows ≤ most_flows },
    ghost rates: { all_rates (flows rows.items) ≤ highest_rate },
    ghost not_both: { (cf0 && coupled (flows rows.items)) ≡ false },
}
