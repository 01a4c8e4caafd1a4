//! Tests and readings of the four vertices of one cell.
ghost use Rattle.std.specs.Prelude.{◌≡◌, ℕ, ◌<◌};
ghost use Rattle.rules.specs.Readings.{face, listed};
ghost use Rattle.rules.specs.Tests.{on, high_test, repeat_test};
ghost use Rattle.rules.specs.NetTests.{rotation};

// Whether a vertex is above 4,095.
pub(crate) fn too_high(corners: [u16; 4]) -> bool
    ensures { result ≡ high_test corners }
{
    corners.iter().any(|&v| v > 4095)
}

// Whether two of the vertices are equal. Six comparisons, since to search the slice before each vertex is longer to say.
pub(crate) fn repeated(corners: [u16; 4]) -> bool
    ensures { result ≡ repeat_test corners }
{
    let [a, b, c, d] = corners;
    a == b || a == c || a == d || b == c || b == d || c == d
}

// Whether v is a vertex of the row other than its corner i (at i = 4, as the definition has it: any vertex).
pub(crate) fn has(row: [u16; 4], i: usize, v: u16) -> bool
    ensures { result ≡ on row i v }
{
    row.iter().enumerate().any(|(k, &w)| k != i && w == v)
}

// What half-face i of the row reads: written out, since to index a table of places would be no shorter.
pub(crate) fn read(row: [u16; 4], i: usize) -> [u16; 3]
    requires { i < 4 }
    ensures { result ≡ listed (face row i) }
{
    let [a, b, c, d] = row;
    match i {
        0 => [b, c, d],
        1 => [c, a, d],
        2 => [d, a, b],
        _ => [a, c, b],
    }
}

// Whether one reading is a rotation of the other: three, each in a word.
pub(crate) fn read_alike(a: [u16; 3], b: [u16; 3]) -> bool
    ensures { result ≡ rotation a b }
{
    let [p, q, r] = b;
    a == [p, q, r] || a == [q, r, p] || a == [r, p, q]
}
