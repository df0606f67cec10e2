// The lines that the program prints. A line that ends in a refusal is written but for that, which is handed on and
// written last.
ghost use Rattle.std.specs.Prelude.{◌≡◌, ◌++◌, string_bytes, OnOk};
ghost use Rattle.envelopes.specs.Refusals.{number as number_of, told};
ghost use Rattle.profile_a.specs.Lines.{rank_line, refusal_line, request_line};
ghost use Rattle.profile_a.specs.Stops.{GoesOn, Writes};

use crate::stop::Stop;
use envelopes::colour::{Colour, Request};
use envelopes::refusal::Refusal;
use std::alloc::AllocError;
use std::fmt::Write;

// A request by its number, its moment and its rank, and then its colour.
pub(crate) fn write_answer(
    out: &mut String,
    number: usize,
    request: Request,
    answer: Result<Colour, Refusal>,
) -> Result<(), Stop>
    ensures text { Writes result (string_bytes out.old) (string_bytes out.new) (request_line number request (told answer)) }
    ensures goes { GoesOn result (told answer) }
{
    write!(out, "{number} {} {} ", request.moment, request.rank)?;
    let name = answer?.name();
    writeln!(out, "{name}")?;
    Ok(())
}

// A rank's green and yellow count, in grains.
pub(crate) fn write_rank(
    out: &mut String,
    rank: u8,
    counts: Result<(u64, u64), Refusal>,
) -> Result<(), Stop>
    ensures text { Writes result (string_bytes out.old) (string_bytes out.new) (rank_line rank (told counts)) }
    ensures goes { GoesOn result (told counts) }
{
    write!(out, "rank {rank}: ")?;
    let (green, yellow) = counts?;
    writeln!(out, "{green} green, {yellow} yellow grains")?;
    Ok(())
}

pub(crate) fn write_refusal(out: &mut String, refusal: Refusal) -> Result<(), AllocError>
    ensures { OnOk result (string_bytes out.new ≡ string_bytes out.old ++ refusal_line (number_of refusal)) }
{
    writeln!(out, "refused {}", refusal.number())
}
