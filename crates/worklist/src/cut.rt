//! A text cut at a space or at the end of a line.
ghost use Rattle.std.specs.Prelude.{MatchOption};
ghost use Rattle.worklist.specs.ReaderSteps.{FirstAt, Cut, Lacks, Ended};

// Where the byte first stands.
fn find(s: &[u8], byte: u8) -> Option<usize>
    ensures { MatchOption result (Lacks byte s.now) (FirstAt byte s.now) }
{
    s.iter().position(|b| *b == byte)
}

// Cuts at the first space: what stands before it, and what comes from there on.
pub(crate) fn word(s: &[u8]) -> (&[u8], &[u8])
    ensures { Cut s.now result.0.now result.1.now }
{
    let end = find(s, b' ').unwrap_or(s.len());
    s.split_at(end)
}

// The first line, without its byte 10, and what follows that byte.
pub(crate) fn cut_line(text: &[u8]) -> Option<(&[u8], &[u8])>
    ensures { MatchOption result (Lacks 10 text.now) (λ p. Ended text.now p.0.now p.1.now) }
{
    let end = find(text, b'\n')?;
    Some((&text[..end], &text[end + 1..]))
}
