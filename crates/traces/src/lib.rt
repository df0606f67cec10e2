// A packet trace against one rate and burst: what `conform` prints of it.
#![tactic(auto)]

pub mod arguments;
mod bytes;
mod packet;
pub mod program;
pub mod report;
mod tally;
