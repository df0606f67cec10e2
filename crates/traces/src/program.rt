// The program `conform`: reads, calls, writes. What it prints is the library's report.
ghost use Rattle.std.specs.Prelude.{◌≡◌, if◌then◌else◌, is_err};
ghost use Rattle.std.specs.Process.{exit_status};

use crate::arguments::{Arguments, read_arguments};
use crate::report::{Ending, complaint, conform};
use anyhow::{Context, anyhow, bail};
use std::env;
use std::io::{Read, Write};
use std::process::ExitCode;

const USAGE: &str = "usage: conform RATE BURST [token|schedule|leaky]";

// What the user is told where no memory is left for a text.
const OUT_OF_MEMORY: &str = "out of memory";

fn arguments(rt: &HostRuntime) -> anyhow::Result<Arguments> {
    let words: Vec<String> = env::args(rt)?.skip(1).collect(rt.alloc())?;
    let (rate, burst, form) = match words.as_slice() {
        [rate, burst] => (rate.as_str(), burst.as_str(), "token"),
        [rate, burst, form] => (rate.as_str(), burst.as_str(), form.as_str()),
        _ => bail!(USAGE),
    };
    // by its text, which cannot fail, as printing can
    read_arguments(rate, burst, form).map_err(|misuse| anyhow!(misuse.text()))
}

fn print_report(rt: &HostRuntime) -> anyhow::Result<()> {
    let settings = arguments(rt)?;
    let mut trace = Vec::new(rt.alloc());
    rt.stdin().read_to_end(&mut trace)?;
    let report = conform(rt.alloc(), settings, trace.as_slice()).context(OUT_OF_MEMORY)?;
    rt.stdout().write_all(report.text.as_bytes())?;
    if let Ending::NotTwoNumbers(line) = report.ending {
        bail!(complaint(rt.alloc(), line).context(OUT_OF_MEMORY)?);
    }
    Ok(())
}

/// Runs the program; what goes wrong is told on standard error, and then handed on.
pub fn run(rt: &HostRuntime) -> anyhow::Result<()> {
    let done = print_report(rt);
    if let Err(e) = &done {
        eprintln!(rt; "conform: {e}")?;
    }
    done
}

/// The exit code of a run: 0 where it is done, and 1 where something went wrong.
pub fn exit_code(done: anyhow::Result<()>) -> ExitCode
    ensures { exit_status result ≡ (if is_err done then 1 else 0) }
{
    match done {
        Ok(()) => ExitCode::SUCCESS,
        Err(_) => ExitCode::FAILURE,
    }
}
