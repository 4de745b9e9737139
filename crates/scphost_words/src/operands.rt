//! Operands among the words behind a command.

ghost use Rattle.std.specs.Prelude.{◌≡◌, ◌≤◌, length, map, option_map};
ghost use Rattle.std.specs.List.{list_all};
ghost use Rattle.scphost_words.specs.Words.{is_no_option as plain_word, operand_count, operands_in};

use std::convert::AsStr;

/// The operands that the words are, if they are only operands: no options, or any words behind `--`.
pub fn operands_of<S: AsStr>(words: &[S]) -> Option<&[S]>
    ensures { option_map (λ operands. map S.text operands.now) result ≡ operands_in (map S.text words.now) }
{
    match words {
        [] => Some(words),
        [first, rest @ ..] if first.as_str() == "--" => Some(rest),
        _ if are_plain(words) => Some(words),
        _ => None,
    }
}

/// How many words stand in front of the first option.
pub fn plain_count<S: AsStr>(words: &[S]) -> usize
    ensures count { result ≡ operand_count (map S.text words.now) }
    ensures within { result ≤ length words.now }
{
    match words {
        [word, rest @ ..] if is_plain(word) => plain_count(rest) + 1,
        _ => 0,
    }
}

fn are_plain<S: AsStr>(words: &[S]) -> bool
    ensures { result ≡ list_all plain_word (map S.text words.now) }
{
    words.iter().all(|word| is_plain(word))
}

/// Whether the word is no option. A hyphen by itself is none.
pub fn is_plain<S: AsStr>(word: &S) -> bool
    ensures { result ≡ plain_word (S.text word.now) }
{
    !matches!(word.as_str().as_bytes(), [b'-', _, ..])
}
