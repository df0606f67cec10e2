// The words of a command line as the settings of a run.
ghost use Rattle.std.specs.Prelude.{◌≡◌, Some};
ghost use Rattle.std.specs.Option.{ok_or};
ghost use Rattle.traces.specs.Arguments.{arguments_in, form_in, misuse_text};
ghost use Rattle.traces.specs.declared.arguments.Misuse.TheVariants.{UnknownForm};

use crate::bytes::number;
use std::error::Error;
use std::fmt;
use std::str::FromStr;

/// The form of meter that a trace is charged to.
#[derive(Clone, Copy, PartialEq, Eq, Debug)]
pub enum Form {
    Token,
    Schedule,
    Leaky,
}

/// A form by its name.
impl FromStr for Form {
    type Err = Misuse;

    ghost from_str_gives = { λ word read. read ≡ ok_or (form_in word) UnknownForm };

    fn from_str(word: &str) -> Result<Form, Misuse> {
        match word {
            "token" => Ok(Form::Token),
            "schedule" => Ok(Form::Schedule),
            "leaky" => Ok(Form::Leaky),
            _ => Err(Misuse::UnknownForm),
        }
    }
}

#[derive(Clone, Copy, PartialEq, Eq, Debug)]
pub struct Arguments {
    pub rate: u64,
    pub burst: u64,
    pub form: Form,
}

/// The first word that is not what its place asks for.
#[derive(Clone, Copy, PartialEq, Eq, Debug)]
pub enum Misuse {
    Rate,
    Burst,
    UnknownForm,
}

impl Misuse {
    // Beside `Display`, since this cannot fail.
    /// What the user is told.
    pub fn text(self) -> &'static str
        ensures { result.now ≡ misuse_text self }
    {
        match self {
            Misuse::Rate => "RATE is not a whole number",
            Misuse::Burst => "BURST is not a whole number",
            Misuse::UnknownForm => "FORM is none of token, schedule and leaky",
        }
    }
}

impl fmt::Display for Misuse {
    ghost output = { λ misuse. Some (misuse_text misuse) };

    fn fmt<W: fmt::Write>(&self, f: &mut fmt::Formatter<W>) -> fmt::Result {
        f.pad(self.text())
    }
}

impl Error for Misuse {}

/// Reads a rate, a burst and the name of a form.
pub fn read_arguments(rate: &str, burst: &str, form: &str) -> Result<Arguments, Misuse>
    ensures { result ≡ arguments_in rate.now burst.now form.now }
{
    let rate = number(rate.as_bytes()).ok_or(Misuse::Rate)?;
    let burst = number(burst.as_bytes()).ok_or(Misuse::Burst)?;
    let form = form.parse()?;
    Ok(Arguments { rate, burst, form })
}
