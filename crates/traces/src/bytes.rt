// Bytes as lines, fields and numbers.
ghost use Rattle.std.specs.Prelude.{◌≡◌};
ghost use Rattle.std.specs.Iterator.{YieldsFirstRef, item_count};
ghost use Rattle.traces.specs.Bytes.{before, beyond, lines, number_in};

// What stands before the first separator, and what stands beyond it.
pub(crate) fn cut(text: &[u8], separator: u8) -> (&[u8], &[u8])
    ensures front { result.0.now ≡ before separator text.now }
    ensures back { result.1.now ≡ beyond separator text.now }
{
    match text.iter().position(|byte| *byte == separator) {
        Some(i) => (&text[..i], &text[i + 1..]),
        None => (text, &[]),
    }
}

// The lines of a text that are left, each without its newline. (Of a text that a newline ends, `split` would make one
// empty line more.)
#[derive(Drop)]
pub(crate) struct Lines<'a>(pub(crate) &'a [u8]);

impl<'a> Iterator for Lines<'a> {
    type Item = &'a [u8];

    ghost next_gives = { YieldsFirstRef (λ left. lines left.0.now) };

    ghost remaining = { item_count (λ left. lines left.0.now) };

    #[tactic(auto, using(crate::proofs::Cutting::lines_cut))]
    fn next(&mut self) -> Option<&'a [u8]> {
        if self.0.is_empty() {
            return None;
        }
        let (line, rest) = cut(self.0, b'\n');
        self.0 = rest;
        Some(line)
    }
}

// The number that decimal digits write; one that 64 bits do not hold is read as the largest that they do. std's `parse`
// refuses that one, and takes a sign.
pub(crate) fn number(text: &[u8]) -> Option<u64>
    ensures { result ≡ number_in text.now }
{
    if text.is_empty() {
        return None;
    }
    text.iter().try_fold(0u64, |n, byte| {
        let digit = char::from(*byte).to_digit(10)?;
        Some(n.saturating_mul(10).saturating_add(u64::from(digit)))
    })
}
