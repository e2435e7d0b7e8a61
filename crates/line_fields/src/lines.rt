//! The lines of a text, each without its newline. No call takes memory.

ghost use Rattle.std.specs.Prelude.{◌≡◌, ◌<◌, ◌∷◌, [], IfSome, MatchOption, length, position, ◌==◌};
ghost use Rattle.line_fields.specs.TextLines.{behind_line, line_in, lines_of};

/// Where the first line ends.
fn newline(bytes: &[u8]) -> Option<usize>
    ensures first { result ≡ position (λ b. b == 10) bytes.now }
    ensures within { IfSome result (λ at. at < length bytes.now) }
{
    bytes.iter().position(|b| *b == b'\n')
}

/// The first line, and what follows its newline.
pub fn next_line(bytes: &[u8]) -> (&[u8], &[u8])
    requires { 0 < length bytes.now }
    ensures lines { lines_of bytes.now ≡ result.0.now ∷ lines_of result.1.now }
    ensures line { result.0.now ≡ line_in bytes.now }
    ensures behind { result.1.now ≡ behind_line bytes.now }
    ensures shorter { length result.1.now < length bytes.now }
{
    match newline(bytes) {
        Some(at) => {
            let (line, _) = bytes.split_at(at);
            let (_, rest) = bytes.split_at(at + 1);
            (line, rest)
        }
        None => (bytes, &[]),
    }
}

/// The first line, and what follows its newline, where there is a line.
pub fn first_line(bytes: &[u8]) -> Option<(&[u8], &[u8])>
    ensures { MatchOption result (lines_of bytes.now ≡ []) (λ t. lines_of bytes.now ≡ t.0.now ∷ lines_of t.1.now) }
{
    if bytes.is_empty() {
        None
    } else {
        Some(next_line(bytes))
    }
}
