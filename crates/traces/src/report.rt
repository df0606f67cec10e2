// The report on a trace.
ghost use Rattle.std.specs.Prelude.{◌≡◌, ◌+◌, ◌^◌, ◌<◌, ◌≤◌, ◌++◌, IfOk, string_bytes, OnOk};
ghost use Rattle.tokens.specs.Refusals.{number as number_of};
ghost use Rattle.traces.specs.Bytes.{lines};
ghost use Rattle.traces.specs.Reports.{packet_line, fault_line, last_line, next_by, run, lined, after_text, reported, none_yet, report_of, complaint_text};
ghost use Rattle.traces.specs.Totals.{ListsAnswersAndSums};

use crate::arguments::{Arguments, Form};
use crate::bytes::Lines;
use crate::packet::{Packet, read_packet};
use crate::tally::Tally;
use std::alloc::{AllocError, Global};
use std::fmt::Write;
use std::marker::Model;
use tokens::leaky_bucket::LeakyBucket;
use tokens::meter::Meter;
use tokens::refusal::Refusal;
use tokens::token_bucket::TokenBucket;
use tokens::virtual_scheduling::VirtualScheduling;

/// How a run ends: after the last packet, at a refusal, or at a line (counted from 1) that is no packet.
#[derive(Clone, Copy, PartialEq, Eq, Debug)]
pub enum Ending {
    Complete,
    Fault,
    NotTwoNumbers(u64),
}

/// The text that `conform` prints, and how the run ends.
#[derive(Drop)]
pub struct Report {
    pub text: String,
    pub ending: Ending,
}

// The three kinds of line are one `writeln!` each: a type that prints each of them would be no plainer.
fn write_packet(
    out: &mut String,
    number: u64,
    packet: Packet,
    passes: bool,
) -> Result<(), AllocError>
    ensures { OnOk result (string_bytes out.new ≡ string_bytes out.old ++ packet_line number packet passes) }
{
    let Packet { tokens, moment } = packet;
    // two words of one line
    let verdict = if passes { "yes" } else { "no" };
    writeln!(out, "{number} {tokens} {moment} {verdict}")
}

fn write_fault(out: &mut String, number: u64, refusal: Refusal) -> Result<(), AllocError>
    ensures { OnOk result (string_bytes out.new ≡ string_bytes out.old ++ fault_line number (number_of refusal)) }
{
    let cause = refusal.number();
    writeln!(out, "fault {number} {cause}")
}

fn write_last(out: &mut String, tally: &Tally) -> Result<(), AllocError>
    ensures { OnOk result (string_bytes out.new ≡ string_bytes out.old ++ last_line tally.now) }
{
    let Tally {
        packets,
        passed,
        tokens,
        passed_tokens,
    } = tally;
    writeln!(
        out,
        "passed {passed} of {packets} packets, {passed_tokens} of {tokens} tokens"
    )
}

// A run so far: the meter, and the tally of what it was charged.
#[derive(Drop)]
struct Run<M: Meter> {
    meter: M,
    tally: Tally,
}

impl<M: Meter> Model for Run<M> {
    ghost use Rattle.traces.specs.Reports.{Run, run};

    ghost Value = { Run };

    ghost view = { λ r. run (M.meaning r.meter) r.tally };
}

impl<M: Meter> Run<M> {
    // Charges the packet of one line; answers how the run ends there, if it does.
    fn charge_line(&mut self, line: &[u8], out: &mut String) -> Result<Option<Ending>, AllocError>
        requires { self.old.tally.packets + 1 < 2 ^ 64 }
        ensures text { OnOk result (string_bytes out.new ≡ string_bytes out.old ++ (lined self.old line.now).text) }
        ensures next { IfOk result (λ e. next_by e self.new ≡ (lined self.old line.now).next) }
        ensures bound { self.new.tally.packets ≤ self.old.tally.packets + 1 }
    {
        let number = self.tally.packets + 1;
        let Some(packet) = read_packet(line) else {
            return Ok(Some(Ending::NotTwoNumbers(number)));
        };
        match self.meter.charge(packet.tokens, packet.moment) {
            Ok(passes) => {
                self.tally.count(packet.tokens, passes);
                write_packet(out, number, packet, passes)?;
                Ok(None)
            }
            Err(refusal) => {
                write_fault(out, number, refusal)?;
                Ok(Some(Ending::Fault))
            }
        }
    }
}

// Charges line after line, and closes a complete run with its last line.
#[tactic(auto, using(crate::proofs::Cutting::lines_at_most))]
fn charge_lines<M: Meter>(meter: M, trace: &[u8], out: &mut String) -> Result<Ending, AllocError>
    ensures { IfOk result (λ e. record { text = string_bytes out.new; ending = e } ≡ after_text (string_bytes out.old) (reported (run (M.Meter.meaning meter) none_yet) (lines trace.now))) }
{
    let mut run = Run {
        meter,
        tally: Tally::default(),
    };
    // a loop: the run changes from line to line, and may end at any
    for line in Lines(trace) {
        if let Some(ending) = run.charge_line(line, out)? {
            return Ok(ending);
        }
    }
    write_last(out, &run.tally)?;
    Ok(Ending::Complete)
}

// Charges the packets of a trace to a new meter, each at its moment, and says which of them pass.
fn charge_trace<M: Meter>(
    heap: Global,
    rate: u64,
    burst: u64,
    trace: &[u8],
) -> Result<Report, AllocError>
    ensures { IfOk result (λ o. record { text = string_bytes o.text; ending = o.ending } ≡ report_of rate burst trace.now) }
{
    let mut text = String::new(heap);
    let ending = match M::new(rate, burst) {
        Ok(meter) => charge_lines(meter, trace, &mut text)?,
        Err(refusal) => {
            write_fault(&mut text, 0, refusal)?;
            Ending::Fault
        }
    };
    Ok(Report { text, ending })
}

/// Charges the packets of a trace to a new meter, each at its moment, and says which of them pass. The report does
/// not depend on the form.
#[tactic(auto, using(crate::proofs::Summing::lists_answers_and_sums))]
pub fn conform(heap: Global, settings: Arguments, trace: &[u8]) -> Result<Report, AllocError>
    ensures value { IfOk result (λ o. record { text = string_bytes o.text; ending = o.ending } ≡ report_of settings.rate settings.burst trace.now) }
    ensures law { ListsAnswersAndSums }
{
    let Arguments { rate, burst, form } = settings;
    // Each form is a type of its own, so each has an arm.
    match form {
        Form::Token => charge_trace::<TokenBucket>(heap, rate, burst, trace),
        Form::Schedule => charge_trace::<VirtualScheduling>(heap, rate, burst, trace),
        Form::Leaky => charge_trace::<LeakyBucket>(heap, rate, burst, trace),
    }
}

/// What the user is told of a line that is no packet.
pub fn complaint(heap: Global, line: u64) -> Result<String, AllocError>
    ensures { IfOk result (λ t. string_bytes t ≡ complaint_text line) }
{
    format!(in heap;
        "line {line} is not two numbers, TOKENS up to 4294967295 and MOMENT, with one space between"
    )
}
