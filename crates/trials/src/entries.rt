// What an envelope declares in a run of accepted calls, and what its buckets hold after each.
use crate::any_calls::any_call;
use crate::chance::Chance;
use crate::contents::{Contents, contents_of};
use crate::envelope_calls::{Call, Told};
use crate::opened::Opened;
use envelopes::colour::{Colour, Request};
use std::alloc::{AllocError, Global};
use tokens::bucket::Bucket;

// An accepted call, what it told, and the latest moment and what the buckets hold after it.
#[derive(Drop)]
pub struct Entry {
    call: Call,
    told: Told,
    pub latest: u64,
    pub contents: Vec<Contents>,
}

impl Entry {
    pub fn is_fill(&self) -> bool {
        matches!(self.call, Call::Fill)
    }

    // The request and its colour, if the call was one.
    pub fn declared(&self) -> Option<(Request, Colour)> {
        match (self.call, self.told) {
            (Call::Judge(request), Told::Colour(colour)) => Some((request, colour)),
            _ => None,
        }
    }
}

// How many tokens requests are for: any number, or all the whole tokens that one of the flow's buckets holds.
#[derive(Clone, Copy)]
pub enum Asking {
    Any,
    All,
}

// A request for all the whole tokens that one of the flow's buckets holds, the green one if it holds any.
fn for_all<B: Bucket>(opened: &Opened<B>, request: Request) -> Request {
    let (tokens, asked) = match opened.held(request.rank) {
        (0, yellow) => (yellow.max(1), Colour::Yellow),
        (green, _) => (green, Colour::Green),
    };
    Request {
        tokens: u32::try_from(tokens).unwrap_or(1),
        asked,
        ..request
    }
}

// The accepted ones of some pseudo-random calls.
pub fn run<B: Bucket>(
    heap: Global,
    chance: &mut Chance,
    opened: &mut Opened<B>,
    asking: Asking,
) -> Result<Vec<Entry>, AllocError> {
    let mut entries = Vec::new(heap);
    for _ in 0..80 {
        let call = match (asking, any_call(chance, opened)) {
            (Asking::All, Call::Judge(request)) => Call::Judge(for_all(opened, request)),
            (_, call) => call,
        };
        if let Ok(told) = opened.put(call) {
            entries.push(Entry {
                call,
                told,
                latest: opened.latest(),
                contents: contents_of(heap, opened.buckets.as_slice())?,
            })?;
        }
    }
    Ok(entries)
}
