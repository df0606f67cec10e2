// A colour, and a request for one.
ghost use Rattle.std.specs.Prelude.{◌≡◌, Some};
ghost use Rattle.envelopes.specs.Colours.{colour_name};

use std::fmt;

/// Green is within the green bucket's count, Yellow within the yellow one's, Red within neither.
#[derive(Clone, Copy, PartialEq, Eq, Debug)]
pub enum Colour {
    Green,
    Yellow,
    Red,
}

impl Colour {
    // Beside `Display`, since this cannot fail.
    /// Its name.
    pub fn name(self) -> &'static str
        ensures { result.now ≡ colour_name self }
    {
        match self {
            Colour::Green => "Green",
            Colour::Yellow => "Yellow",
            Colour::Red => "Red",
        }
    }
}

impl fmt::Display for Colour {
    ghost output = { λ colour. Some (colour_name colour) };

    fn fmt<W: fmt::Write>(&self, f: &mut fmt::Formatter<W>) -> fmt::Result {
        f.pad(self.name())
    }
}

/// So many tokens, asked for at a moment by the flow of a rank, with the best colour that it may get.
#[derive(Clone, Copy, PartialEq, Eq, Debug)]
pub struct Request {
    pub tokens: u32,
    pub moment: u64,
    pub asked: Colour,
    pub rank: u8,
}
