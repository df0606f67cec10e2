// A line of a trace as a packet.
ghost use Rattle.std.specs.Prelude.{◌≡◌};
ghost use Rattle.traces.specs.Packets.{packet_in};

use crate::bytes::{cut, number};

#[derive(Clone, Copy)]
pub(crate) struct Packet {
    pub(crate) tokens: u32,
    pub(crate) moment: u64,
}

// The packet that a line writes: its tokens and its moment, two numbers with one space between. Bytes may be no text,
// and fail in one way only: no `FromStr`, and an `Option`.
pub(crate) fn read_packet(line: &[u8]) -> Option<Packet>
    ensures { result ≡ packet_in line.now }
{
    let (tokens, moment) = cut(line, b' ');
    Some(Packet {
        tokens: u32::try_from(number(tokens)?).ok()?,
        moment: number(moment)?,
    })
}
