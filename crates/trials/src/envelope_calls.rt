// A call upon an envelope as a value, and what it told.
use envelopes::colour::{Colour, Request};
use envelopes::envelope::Envelope;
use envelopes::refusal::Refusal;
use tokens::bucket::Bucket;

#[derive(Clone, Copy)]
pub enum Call {
    Fill,
    Judge(Request),
    Advance(u64),
    Read(u8),
}

#[derive(Clone, Copy, PartialEq, Eq, Debug)]
pub enum Told {
    Done,
    Colour(Colour),
    Counts { green: u128, yellow: u128 },
}

// What the library tells.
pub fn put<B: Bucket>(
    envelope: &mut Envelope,
    buckets: &mut [B],
    call: Call,
) -> Result<Told, Refusal> {
    match call {
        Call::Fill => {
            envelope.fill(buckets)?;
            Ok(Told::Done)
        }
        Call::Judge(request) => Ok(Told::Colour(envelope.judge(buckets, request)?)),
        Call::Advance(moment) => {
            envelope.advance(buckets, moment)?;
            Ok(Told::Done)
        }
        Call::Read(rank) => {
            let (green, yellow) = envelope.read(buckets, rank)?;
            Ok(Told::Counts {
                green: u128::from(green),
                yellow: u128::from(yellow),
            })
        }
    }
}
