//! Tests of the numbers that a caller hands over.
ghost use Rattle.std.specs.Prelude.{◌≡◌, ◌<◌, ◌≤◌, MatchResult};

use refusal::Refusal;

// Refuses a vertex number above 4,095.
pub(crate) fn low(v: u16) -> Result<(), Refusal>
    ensures { MatchResult result (λ _. v ≤ 4095) (λ cause. (cause ≡ Refusal.VertexTooHigh) × (4095 < v)) }
{
    if v > 4095 {
        return Err(Refusal::VertexTooHigh);
    }
    Ok(())
}

// The number of a cell or a half-face, where so many are there.
pub(crate) fn numbered(k: u16, many: usize) -> Result<usize, Refusal>
    ensures { MatchResult result (λ n. (n ≡ k) × (n < many)) (λ cause. (cause ≡ Refusal.NoSuchNumber) × (many ≤ k)) }
{
    let n = k as usize;
    if n >= many {
        return Err(Refusal::NoSuchNumber);
    }
    Ok(n)
}
