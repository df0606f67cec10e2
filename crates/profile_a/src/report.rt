// The report: the colour of each request, and what each rank is left with.
ghost use Rattle.std.specs.Prelude.{◌≡◌, ◌++◌, string_bytes, OnOk};
ghost use Rattle.profile_a.specs.Day.{report_text};
ghost use Rattle.profile_a.specs.Stops.{Writes};

use crate::lines::{write_answer, write_rank, write_refusal};
use crate::profile::draft_of_a;
use crate::requests::six_requests;
use crate::stop::Stop;
use std::alloc::AllocError;
use tokens::bucket::Bucket;

// Writes the report up to a refusal, which is handed on.
fn run<B: Bucket>(buckets: &mut [B; 4], out: &mut String) -> Result<(), Stop>
    ensures { Writes result (string_bytes out.old) (string_bytes out.new) report_text }
{
    let mut envelope = draft_of_a()?.open();
    envelope.fill(buckets)?;
    for (i, &request) in six_requests().iter().enumerate() {
        write_answer(out, i + 1, request, envelope.judge(buckets, request))?;
    }
    for rank in 1..=2 {
        write_rank(out, rank, envelope.read(buckets, rank))?;
    }
    Ok(())
}

// Writes the report whole, upon four buckets of any kind.
pub(crate) fn write_report<B: Bucket>(
    buckets: &mut [B; 4],
    out: &mut String,
) -> Result<(), AllocError>
    ensures { OnOk result (string_bytes out.new ≡ string_bytes out.old ++ report_text) }
{
    match run(buckets, out) {
        Ok(()) => Ok(()),
        Err(Stop::Refused(refusal)) => write_refusal(out, refusal),
        Err(Stop::OutOfMemory(e)) => Err(e),
    }
}
