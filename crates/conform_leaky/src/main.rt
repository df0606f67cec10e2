// A packet trace against one rate and burst. `conform`, `conform_schedule` and `conform_leaky` are one program: the
// gate runs each with one list of arguments.
#![tactic(auto)]

use std::process::ExitCode;
use traces::program::{exit_code, run};

fn main(rt: HostRuntime) -> ExitCode {
    exit_code(run(&rt))
}
