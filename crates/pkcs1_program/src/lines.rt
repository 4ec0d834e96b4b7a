//! Splitting the input into lines, and a line into parts.
ghost use Rattle.std.specs.Prelude.{◌≡◌, ◌<◌, ◌≤◌, ◌∷◌, ◌==◌, [], length, position};
ghost use Rattle.std.specs.List.{list_any};
ghost use Rattle.std.specs.Option.{option_map_or};
ghost use Rattle.pkcs1_program.specs.Words.{lines_of, parts_of};

/// So many bytes are looked at together.
const PIECE: usize = 32;

/// Whether one of the bytes is such a byte. No branch depends on a byte, so the processor compares many at once.
fn holds(byte: u8, bytes: &[u8]) -> bool
    ensures { result ≡ list_any (λ other. other == byte) bytes.now }
{
    bytes
        .iter()
        .fold(false, |found, other| found | (*other == byte))
}

/// The index of the first such byte, which is looked for one by one.
fn first_place(byte: u8, bytes: &[u8]) -> Option<usize>
    ensures { result ≡ position (λ other. other == byte) bytes.now }
{
    bytes.iter().position(|other| *other == byte)
}

/// The index of the first such byte.
fn place_of(byte: u8, bytes: &[u8]) -> Option<usize>
    ensures { result ≡ position (λ other. other == byte) bytes.now }
{
    let mut passed = 0;
    while bytes.len() - passed >= PIECE && !holds(byte, &bytes[passed..passed + PIECE]) {
        passed += PIECE;
    }
    match first_place(byte, &bytes[passed..]) {
        Some(place) => Some(passed + place),
        None => None,
    }
}

/// Returns the first line, without its line feed, and what follows the line feed, which is shorter than the bytes.
/// Requires that there is a byte.
pub fn split_line(bytes: &[u8]) -> (&[u8], &[u8])
    requires { 0 < length bytes.now }
    ensures lines { lines_of bytes.now ≡ result.0.now ∷ lines_of result.1.now }
    ensures shorter { length result.1.now < length bytes.now }
{
    match place_of(b'\n', bytes) {
        Some(end) => (&bytes[..end], &bytes[end + 1..]),
        None => (bytes, &[]),
    }
}

/// Returns the part before the first space, and what follows the space, if there is one.
pub fn split_part(line: &[u8]) -> (&[u8], Option<&[u8]>)
    ensures { parts_of line.now ≡ result.0.now ∷ option_map_or (λ rest. parts_of rest.now) result.1 [] }
{
    match place_of(b' ', line) {
        Some(end) => (&line[..end], Some(&line[end + 1..])),
        None => (line, None),
    }
}
