//! Cutting a line into its tokens, which are parted by one space. No call takes memory, and each looks at each byte
//! once.

ghost use Rattle.std.specs.Prelude.{◌≡◌, ◌∷◌, ◌+◌, [], position, ◌==◌, option_copied, List, ℕ, MatchOption, None, Some};
ghost use Rattle.line_fields.specs.Tokens.{tokens, tokens_after, one_of, two_of, three_of};
ghost use Rattle.line_fields.specs.Tokens.{four_of, five_of, six_of, seven_of, eight_of};

/// Where the first token ends.
fn space(bytes: &[u8]) -> Option<usize>
    ensures { result ≡ position (λ b. b == 32) bytes.now }
{
    bytes.iter().position(|b| *b == b' ')
}

/// The first token, and what stands behind its space.
pub fn cut(line: &[u8]) -> (&[u8], Option<&[u8]>)
    ensures { tokens line.now ≡ result.0.now ∷ tokens_after (option_copied result.1) }
{
    match space(line) {
        Some(at) => (&line[..at], Some(&line[at + 1..])),
        None => (line, None),
    }
}

#[tactic(auto, unfolding(crate::specs::Tokens::tokens_after))]
/// The next token, and what stands behind its space.
pub fn next(rest: Option<&[u8]>) -> Option<(&[u8], Option<&[u8]>)>
    ensures { MatchOption result (tokens_after (option_copied rest.entry) ≡ [])
        (λ t. tokens_after (option_copied rest.entry) ≡ t.0.now ∷ tokens_after (option_copied t.1)) }
{
    Some(cut(rest?))
}

#[tactic(auto, unfolding(crate::specs::Tokens::one_of, crate::specs::Tokens::tokens_after))]
/// The only token.
pub fn one(rest: Option<&[u8]>) -> Option<&[u8]>
    ensures { MatchOption result (one_of (tokens_after (option_copied rest.entry)) ≡ None)
        (λ a. one_of (tokens_after (option_copied rest.entry)) ≡ Some a.now) }
{
    let (a, rest) = next(rest)?;
    match rest {
        None => Some(a),
        Some(_) => None,
    }
}

#[tactic(auto, unfolding(crate::specs::Tokens::two_of))]
/// The only two tokens.
pub fn two(rest: Option<&[u8]>) -> Option<(&[u8], &[u8])>
    ensures { MatchOption result (two_of (tokens_after (option_copied rest.entry)) ≡ None)
        (λ t. two_of (tokens_after (option_copied rest.entry)) ≡ Some (t.0.now, t.1.now)) }
{
    let (a, rest) = next(rest)?;
    let b = one(rest)?;
    Some((a, b))
}

#[tactic(auto, unfolding(crate::specs::Tokens::three_of))]
/// The only three tokens.
pub fn three(rest: Option<&[u8]>) -> Option<(&[u8], &[u8], &[u8])>
    ensures { MatchOption result (three_of (tokens_after (option_copied rest.entry)) ≡ None)
        (λ t. three_of (tokens_after (option_copied rest.entry)) ≡ Some (t.0.now, t.1.now, t.2.now)) }
{
    let (a, rest) = next(rest)?;
    let (b, c) = two(rest)?;
    Some((a, b, c))
}

#[tactic(auto, unfolding(crate::specs::Tokens::four_of))]
/// The only four tokens.
pub fn four(rest: Option<&[u8]>) -> Option<(&[u8], &[u8], &[u8], &[u8])>
    ensures { MatchOption result (four_of (tokens_after (option_copied rest.entry)) ≡ None)
        (λ t. four_of (tokens_after (option_copied rest.entry)) ≡ Some (t.0.now, t.1.now, t.2.now, t.3.now)) }
{
    let (a, rest) = next(rest)?;
    let (b, c, d) = three(rest)?;
    Some((a, b, c, d))
}

#[tactic(auto, unfolding(crate::specs::Tokens::five_of))]
/// The only five tokens.
pub fn five(rest: Option<&[u8]>) -> Option<(&[u8], &[u8], &[u8], &[u8], &[u8])>
    ensures { MatchOption result (five_of (tokens_after (option_copied rest.entry)) ≡ None)
        (λ t. five_of (tokens_after (option_copied rest.entry)) ≡ Some (t.0.now, t.1.now, t.2.now, t.3.now, t.4.now)) }
{
    let (a, rest) = next(rest)?;
    let (b, c, d, e) = four(rest)?;
    Some((a, b, c, d, e))
}

#[tactic(auto, unfolding(crate::specs::Tokens::six_of))]
/// The only six tokens.
pub fn six(rest: Option<&[u8]>) -> Option<(&[u8], &[u8], &[u8], &[u8], &[u8], &[u8])>
    ensures { MatchOption result (six_of (tokens_after (option_copied rest.entry)) ≡ None)
        (λ t. six_of (tokens_after (option_copied rest.entry))
        ≡ Some (t.0.now, t.1.now, t.2.now, t.3.now, t.4.now, t.5.now)) }
{
    let (a, rest) = next(rest)?;
    let (b, c, d, e, f) = five(rest)?;
    Some((a, b, c, d, e, f))
}

#[tactic(auto, unfolding(crate::specs::Tokens::seven_of))]
/// The only seven tokens.
pub fn seven(rest: Option<&[u8]>) -> Option<(&[u8], &[u8], &[u8], &[u8], &[u8], &[u8], &[u8])>
    ensures { MatchOption result (seven_of (tokens_after (option_copied rest.entry)) ≡ None)
        (λ t. seven_of (tokens_after (option_copied rest.entry))
        ≡ Some (t.0.now, t.1.now, t.2.now, t.3.now, t.4.now, t.5.now, t.6.now)) }
{
    let (a, rest) = next(rest)?;
    let (b, c, d, e, f, g) = six(rest)?;
    Some((a, b, c, d, e, f, g))
}

#[tactic(auto, unfolding(crate::specs::Tokens::eight_of))]
/// The only eight tokens.
pub fn eight(
    rest: Option<&[u8]>,
) -> Option<(&[u8], &[u8], &[u8], &[u8], &[u8], &[u8], &[u8], &[u8])>
    ensures { MatchOption result (eight_of (tokens_after (option_copied rest.entry)) ≡ None)
        (λ t. eight_of (tokens_after (option_copied rest.entry))
        ≡ Some (t.0.now, t.1.now, t.2.now, t.3.now, t.4.now, t.5.now, t.6.now, t.7.now)) }
{
    let (a, rest) = next(rest)?;
    let (b, c, d, e, f, g, h) = seven(rest)?;
    Some((a, b, c, d, e, f, g, h))
}
