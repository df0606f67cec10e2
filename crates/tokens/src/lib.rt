// Token buckets and single-rate meters, counted in grains, a millionth of a token. Nothing here allocates.
#![tactic(auto)]

pub mod bucket;
pub mod calls;
mod checks;
pub mod counting;
pub mod deficit;
pub mod leaky_bucket;
mod limits;
pub mod meter;
pub mod refusal;
pub mod time;
pub mod token_bucket;
pub mod units;
pub mod virtual_scheduling;
