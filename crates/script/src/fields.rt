// Parts of a line.
ghost use Rattle.std.specs.Prelude.{◌≡◌, Some, None, MatchResult};
ghost use Rattle.std.specs.Option.{option_map};
ghost use Rattle.script.specs.Fields.{before, after};

use refusal::Refusal;

// The bytes before the first `mark`, and those after it if there is one.
pub(crate) fn split(bytes: &[u8], mark: u8) -> (&[u8], Option<&[u8]>)
    ensures before { result.0.now ≡ before mark bytes.now }
    ensures after { option_map (λ x. x.now) result.1 ≡ after mark bytes.now }
{
    match bytes.iter().position(|b| *b == mark) {
        Some(i) => (&bytes[..i], Some(&bytes[i + 1..])),
        None => (bytes, None),
    }
}

// The same of bytes that are of a form only with a `mark`.
pub(crate) fn cut(bytes: &[u8], mark: u8) -> Result<(&[u8], &[u8]), Refusal>
    ensures { MatchResult result (λ p. (p.0.now ≡ before mark bytes.now) × (after mark bytes.now ≡ Some p.1.now)) (λ why. (why ≡ Refusal.NotOfAForm) × (after mark bytes.now ≡ None)) }
{
    let (front, back) = split(bytes, mark);
    Ok((front, back.ok_or(Refusal::NotOfAForm)?))
}
