// Envelopes: flows of up to eight ranks that hand down what they do not use, and the colours of their requests.
#![tactic(auto)]

mod buckets;
pub mod colour;
mod colouring;
mod column;
pub mod draft;
pub mod envelope;
pub mod figures;
pub mod flow;
mod lane;
pub mod refusal;
pub mod row;
mod update;
