//! Words cut at a byte.

ghost use Rattle.std.specs.Prelude.{◌≡◌, ◌++◌, ◌∷◌, ◌==◌, IfSome, length, not, option_map, position};
ghost use Rattle.std.specs.Char.{is_ascii_alphanumeric};
ghost use Rattle.line_script.specs.Fronts.{behind_plain, plain_part};
ghost use Rattle.line_script.specs.Values.{is_plain as plain_test};
ghost use Rattle.line_script.specs.Statements.{split_twice};
ghost use Rattle.line_script.specs.Words.{split_once};

/// What stands before the first byte `at`, and what stands after it; `None` if there is no such byte.
#[tactic(auto, using(crate::proofs::WordLaws::cut_found, crate::proofs::WordLaws::cut_missing))]
pub(crate) fn split_once(text: &[u8], at: u8) -> Option<(&[u8], &[u8])>
    ensures { option_map (λ r. (r.0.now, r.1.now)) result ≡ split_once at text.now }
{
    let place = first_place(text, at)?;
    Some((&text[..place], &text[place + 1..]))
}

/// What stands before the first byte `at`, between it and the second, and after that; `None` if there are not two.
pub(crate) fn split_twice(text: &[u8], at: u8) -> Option<(&[u8], &[u8], &[u8])>
    ensures { option_map (λ r. (r.0.now, r.1.now, r.2.now)) result ≡ split_twice at text.now }
{
    let (first, rest) = split_once(text, at)?;
    let (second, third) = split_once(rest, at)?;
    Some((first, second, third))
}

fn first_place(text: &[u8], at: u8) -> Option<usize>
    ensures { result ≡ position (λ byte. byte == at) text.now }
{
    text.iter().position(|byte| *byte == at)
}

/// The letters and digits at the front, and the rest.
#[tactic(auto, using(crate::proofs::WordLaws::part_found, crate::proofs::WordLaws::rest_found, crate::proofs::WordLaws::part_missing, crate::proofs::WordLaws::rest_missing))]
pub(crate) fn plain_front(text: &[u8]) -> (&[u8], &[u8])
    ensures front { result.0.now ≡ plain_part text.now }
    ensures rest { result.1.now ≡ behind_plain text.now }
{
    match other_in(text) {
        Some(place) => (&text[..place], &text[place..]),
        None => (text, &[]),
    }
}

/// The place of the first byte that is no letter or digit.
fn other_in(text: &[u8]) -> Option<usize>
    ensures { result ≡ position (λ byte. not (is_ascii_alphanumeric byte)) text.now }
{
    text.iter().position(|byte| !byte.is_ascii_alphanumeric())
}

/// Whether there are only letters and digits.
pub(crate) fn is_plain(word: &[u8]) -> bool
    ensures { result ≡ plain_test word.now }
{
    word.iter().all(|byte| byte.is_ascii_alphanumeric())
}
