// Lists of calls upon meters, and the law above the single calls: the form of a meter does not matter.
ghost use Rattle.std.specs.Prelude.{◌≡◌, true, is_err, Decides};
ghost use Rattle.tokens.specs.Histories.{Kept, KeepsToLimits, AnswerAlike, answers, MeterFigure, figure_calls, yes_or_no};
ghost use Rattle.tokens.specs.Refusals.{told};

use crate::meter::Meter;
use crate::refusal::Refusal;

#[derive(Clone, Copy)]
pub enum Call {
    Question { tokens: u32, moment: u64 },
    Charge { tokens: u32, moment: u64 },
    Wait { moment: u64 },
}

#[derive(Clone, Copy, PartialEq, Eq, Debug)]
pub enum Answer {
    Yes,
    No,
    Moved,
}

/// What a question or a charge answers.
impl From<bool> for Answer {
    ghost from_gives = { λ passes answer. answer ≡ yes_or_no passes };

    fn from(passes: bool) -> Self {
        if passes { Answer::Yes } else { Answer::No }
    }
}

// Its contract, too, says that a refusal changes nothing.
/// Puts one call to a meter.
pub fn put<M: Meter>(meter: &mut M, call: Call) -> Result<Answer, Refusal>
    ensures kept { Kept (M.Meter.meaning meter.old) call (told result) (M.Meter.meaning meter.new) }
    ensures refused { is_err result ≡ true → meter.new ≡ meter.old }
{
    match call {
        Call::Question { tokens, moment } => Ok(meter.question(tokens, moment)?.into()),
        Call::Charge { tokens, moment } => Ok(meter.charge(tokens, moment)?.into()),
        Call::Wait { moment } => {
            meter.wait(moment)?;
            Ok(Answer::Moved)
        }
    }
}

// Whether two calls told the same.
#[tactic(auto, using(crate::proofs::Comparing::equal_decides))]
fn same(a: Result<Answer, Refusal>, b: Result<Answer, Refusal>) -> bool
    ensures { Decides result (told a ≡ told b) }
{
    a == b
}

/// Whether two meters, of any two forms, tell the same throughout when the same calls are put to them. Meters that
/// are new at the same rate and burst always do: that is the law. And in every history of calls a meter keeps to
/// its limits.
pub fn alike<M: Meter, N: Meter>(mut m: M, mut n: N, calls: &[Call]) -> bool
    ensures value { Decides result (answers (M.Meter.meaning m) calls.now ≡ answers (N.Meter.meaning n) calls.now) }
    ensures law { AnswerAlike M.Meter.meaning N.Meter.meaning }
    ensures limits { KeepsToLimits M.Meter.meaning }
{
    // a loop: of a closure that changes what it captures, a chain tells nothing
    for call in calls {
        let one = put(&mut m, *call);
        let other = put(&mut n, *call);
        if !same(one, other) {
            return false;
        }
    }
    true
}

fn charge(tokens: u32, moment: u64) -> Call
    ensures { result ≡ Call.Charge tokens moment }
{
    Call::Charge { tokens, moment }
}

/// The worked figure, to be put to a meter of rate 1,000 and burst 1,500: yes, no, yes, no.
pub fn worked_figure() -> [Call; 4]
    ensures calls { result ≡ figure_calls }
    ensures answers { MeterFigure }
{
    [
        charge(1_500, 0),
        charge(1, 999),
        charge(1, 1_000),
        charge(1_501, 3_600_000_000),
    ]
}
