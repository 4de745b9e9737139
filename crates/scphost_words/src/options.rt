//! The words behind a command: its operands, with options before or behind them.

ghost use Rattle.std.specs.Prelude.{◌≡◌, ◌<◌, IfOk, IfSome, IsOkAnd, List, None, length, map, option_map};
ghost use Rattle.scphost_words.specs.Options.{AreOptions, HasForm, behind_front, format_option, journal_option, lack_journal, next_in, no_options, option_in, option_value_in, serving_in, with_bytes, with_explanation, with_format, with_from, with_journal, with_workers, workers_in, workers_option};
ghost use Rattle.scphost_words.specs.Subjects.{format_or_text};
ghost use Rattle.scphost_words.specs.Words.{Text};

use crate::command::Command;
use crate::operands::{operands_of, plain_count};
use crate::pool_size::PoolSize;
use crate::replay::{ReplayFrom, replay_of};
use crate::subject::{Format, format_of, number_in};
use crate::word::{LentWord, Word};
use std::alloc::{AllocError, Global};
use std::convert::AsStr;

/// What the options of a command ask for.
#[derive(Drop)]
pub struct Options<'a> {
    /// `--workers N`: how many workers a pool has.
    pub workers: Option<PoolSize>,
    /// `--format FORM`: the form of a report.
    pub format: Option<Format>,
    /// `--journal FILE`: the name of the file that lines are kept in.
    pub journal: Option<LentWord<'a>>,
    /// `--from L|open`: from which line on the blocks of that file are printed.
    pub from: Option<ReplayFrom>,
    /// `--bytes`: envelopes are printed as bytes.
    pub bytes: bool,
    /// `--explain`: a difference, or a bad line, is explained.
    pub explain: bool,
}

impl<'a> Options<'a> {
    /// Nothing is asked for.
    fn none() -> Options<'a>
        ensures { result ≡ no_options }
    {
        Options {
            workers: None,
            format: None,
            journal: None,
            from: None,
            bytes: false,
            explain: false,
        }
    }

    /// A copy. Its words are lent for as long as those of these options.
    fn reborrow(&self) -> Options<'a>
        ensures { result ≡ self.now }
    {
        Options {
            workers: self.workers,
            format: self.format,
            journal: self.journal.as_ref().map(|name| name.reborrow()),
            from: self.from,
            bytes: self.bytes,
            explain: self.explain,
        }
    }

    /// The form of report that is asked for; without one it is text.
    pub fn format_or_text(&self) -> Format
        ensures { result ≡ format_or_text self.now.format }
    {
        self.format.unwrap_or(Format::Text)
    }

    /// The name of the file that lines are kept in, as a word of its own. An error says that it is out of memory.
    pub fn journal_word(&self, alloc: Global) -> Result<Option<Word>, AllocError>
        ensures { IfOk result (λ journal. journal ≡ self.now.journal) }
    {
        match &self.journal {
            Some(name) => {
                let name = name.copied(alloc)?;
                Ok(Some(name))
            }
            None => Ok(None),
        }
    }

    /// Whether a journal is to be replayed, and none is named.
    pub fn lack_journal(&self) -> bool
        ensures { result ≡ lack_journal self.now }
    {
        self.from.is_some() && self.journal.is_none()
    }

    /// Whether something is asked for.
    pub fn are_given(&self) -> bool {
        self.workers.is_some()
            || self.format.is_some()
            || self.journal.is_some()
            || self.from.is_some()
            || self.bytes
            || self.explain
    }
}

/// What is asked for, and the operands, in the words behind a command; else the words at which the reading stopped.
pub fn options_and_operands<'a, S: AsStr>(
    command: Command,
    words: &'a [S],
) -> Result<(Options<'a>, &'a [S]), &'a [S]>
    ensures found { IfOk result (λ p. HasForm command (map S.text words.now) p.0 (map S.text p.1.now)) }
    ensures all { (asked : Options) → (operands : List Text) → HasForm command (map S.text words.now) asked operands
        → IsOkAnd result (λ p. (p.0 ≡ asked) × (map S.text p.1.now ≡ operands)) }
{
    let count = plain_count(words);
    if count == 0 {
        let (asked, rest) = options_before(command, Options::none(), words);
        return match operands_of(rest) {
            Some(operands) => Ok((asked, operands)),
            None => Err(&rest[plain_count(rest)..]),
        };
    }
    let (operands, rest) = words.split_at(count);
    match options_before(command, Options::none(), rest) {
        (asked, []) => Ok((asked, operands)),
        (_, left) => Err(left),
    }
}

/// What is asked for, with all options that the words begin with, and the words behind them.
fn options_before<'a, S: AsStr>(
    command: Command,
    asked: Options<'a>,
    words: &'a [S],
) -> (Options<'a>, &'a [S])
    ensures given { AreOptions command asked.entry (map S.text words.now) result.0 (map S.text result.1.now) }
    ensures ended { option_in command result.0 (map S.text result.1.now) ≡ None }
{
    match option_before(command, &asked, words) {
        Some((more, rest)) => options_before(command, more, rest),
        None => (asked, words),
    }
}

/// If the first words are an option of this command that was not given before: what is asked for with it too, and the
/// words behind it.
fn option_before<'a, S: AsStr>(
    command: Command,
    asked: &Options<'a>,
    words: &'a [S],
) -> Option<(Options<'a>, &'a [S])>
    ensures option { option_map (λ p. (p.0, map S.text p.1.now)) result ≡ option_in command asked.now (map S.text words.entry.now) }
    ensures shorter { IfSome result (λ p. length p.1.now < length words.entry.now) }
{
    match command {
        Command::Run => match workers_before(asked, words) {
            Some(found) => Some(found),
            None => with_explanation(asked, words),
        },
        Command::Closure => match format_before(asked, words) {
            Some(found) => Some(found),
            None => with_explanation(asked, words),
        },
        Command::Table | Command::Compare | Command::Crowd => with_explanation(asked, words),
        Command::Serve => serving_before(asked, words),
        Command::Compact | Command::Encode | Command::Decode => None,
    }
}

/// As [`option_before`], for the options of `serve`.
fn serving_before<'a, S: AsStr>(
    asked: &Options<'a>,
    words: &'a [S],
) -> Option<(Options<'a>, &'a [S])>
    ensures option { option_map (λ p. (p.0, map S.text p.1.now)) result ≡ serving_in asked.now (map S.text words.entry.now) }
    ensures shorter { IfSome result (λ p. length p.1.now < length words.entry.now) }
{
    if let Some(found) = workers_before(asked, words) {
        return Some(found);
    }
    if let Some(found) = journal_before(asked, words) {
        return Some(found);
    }
    match with_bytes(asked, words) {
        Some(found) => Some(found),
        None => with_explanation(asked, words),
    }
}

/// As [`option_before`], for `--journal FILE` and `--from L|open`.
fn journal_before<'a, S: AsStr>(
    asked: &Options<'a>,
    words: &'a [S],
) -> Option<(Options<'a>, &'a [S])>
    ensures option { option_map (λ p. (p.0, map S.text p.1.now)) result ≡ journal_option asked.now (map S.text words.entry.now) }
    ensures shorter { IfSome result (λ p. length p.1.now < length words.entry.now) }
{
    if let Some((value, rest)) = value_before("--journal", words) {
        return with_journal(asked, value, rest);
    }
    let (value, rest) = value_before("--from", words)?;
    with_from(asked, value, rest)
}

/// As [`option_before`], for `--format FORM`.
fn format_before<'a, S: AsStr>(
    asked: &Options<'a>,
    words: &'a [S],
) -> Option<(Options<'a>, &'a [S])>
    ensures option { option_map (λ p. (p.0, map S.text p.1.now)) result ≡ format_option asked.now (map S.text words.entry.now) }
    ensures shorter { IfSome result (λ p. length p.1.now < length words.entry.now) }
{
    let (value, rest) = value_before("--format", words)?;
    with_format(asked, value, rest)
}

/// As [`option_before`], for `--workers N`.
fn workers_before<'a, S: AsStr>(
    asked: &Options<'a>,
    words: &'a [S],
) -> Option<(Options<'a>, &'a [S])>
    ensures option { option_map (λ p. (p.0, map S.text p.1.now)) result ≡ workers_option asked.now (map S.text words.entry.now) }
    ensures shorter { IfSome result (λ p. length p.1.now < length words.entry.now) }
{
    let (value, rest) = value_before("--workers", words)?;
    with_workers(asked, value, rest)
}

/// What is asked for with the number of workers `value` too, if none was given before, and `rest`.
fn with_workers<'a, S: AsStr>(
    asked: &Options<'a>,
    value: &str,
    rest: &'a [S],
) -> Option<(Options<'a>, &'a [S])>
    ensures option { option_map (λ p. (p.0, map S.text p.1.now)) result ≡ with_workers asked.now (value.now, map S.text rest.entry.now) }
    ensures rest { IfSome result (λ p. p.1.now ≡ rest.entry.now) }
{
    if asked.workers.is_some() {
        return None;
    }
    let workers = workers_in(value)?;
    let mut next = asked.reborrow();
    next.workers = Some(workers);
    Some((next, rest))
}

/// As [`with_workers`], with a form of report.
fn with_format<'a, S: AsStr>(
    asked: &Options<'a>,
    value: &str,
    rest: &'a [S],
) -> Option<(Options<'a>, &'a [S])>
    ensures option { option_map (λ p. (p.0, map S.text p.1.now)) result ≡ with_format asked.now (value.now, map S.text rest.entry.now) }
    ensures rest { IfSome result (λ p. p.1.now ≡ rest.entry.now) }
{
    if asked.format.is_some() {
        return None;
    }
    let format = format_of(value)?;
    let mut next = asked.reborrow();
    next.format = Some(format);
    Some((next, rest))
}

/// As [`with_workers`], with the name of a journal.
fn with_journal<'a, S: AsStr>(
    asked: &Options<'a>,
    value: &'a str,
    rest: &'a [S],
) -> Option<(Options<'a>, &'a [S])>
    ensures option { option_map (λ p. (p.0, map S.text p.1.now)) result ≡ with_journal asked.now (value.entry.now, map S.text rest.entry.now) }
    ensures rest { IfSome result (λ p. p.1.now ≡ rest.entry.now) }
{
    if asked.journal.is_some() {
        return None;
    }
    let mut next = asked.reborrow();
    next.journal = Some(LentWord::of(value));
    Some((next, rest))
}

/// As [`with_workers`], with the line from which a journal is replayed.
fn with_from<'a, S: AsStr>(
    asked: &Options<'a>,
    value: &str,
    rest: &'a [S],
) -> Option<(Options<'a>, &'a [S])>
    ensures option { option_map (λ p. (p.0, map S.text p.1.now)) result ≡ with_from asked.now (value.now, map S.text rest.entry.now) }
    ensures rest { IfSome result (λ p. p.1.now ≡ rest.entry.now) }
{
    if asked.from.is_some() {
        return None;
    }
    let from = replay_of(value)?;
    let mut next = asked.reborrow();
    next.from = Some(from);
    Some((next, rest))
}

/// As [`option_before`], for `--bytes`.
fn with_bytes<'a, S: AsStr>(asked: &Options<'a>, words: &'a [S]) -> Option<(Options<'a>, &'a [S])>
    ensures option { option_map (λ p. (p.0, map S.text p.1.now)) result ≡ with_bytes asked.now (map S.text words.entry.now) }
    ensures shorter { IfSome result (λ p. length p.1.now < length words.entry.now) }
{
    match words {
        [word, rest @ ..] if word.as_str() == "--bytes" && !asked.bytes => {
            let mut next = asked.reborrow();
            next.bytes = true;
            Some((next, rest))
        }
        _ => None,
    }
}

/// As [`option_before`], for `--explain`.
fn with_explanation<'a, S: AsStr>(
    asked: &Options<'a>,
    words: &'a [S],
) -> Option<(Options<'a>, &'a [S])>
    ensures option { option_map (λ p. (p.0, map S.text p.1.now)) result ≡ with_explanation asked.now (map S.text words.entry.now) }
    ensures shorter { IfSome result (λ p. length p.1.now < length words.entry.now) }
{
    match words {
        [word, rest @ ..] if word.as_str() == "--explain" && !asked.explain => {
            let mut next = asked.reborrow();
            next.explain = true;
            Some((next, rest))
        }
        _ => None,
    }
}

/// The value that the first words give to the option of this name, and the words behind it. It is the next word, or
/// stands behind `=` in the same one.
fn value_before<'a, S: AsStr>(name: &str, words: &'a [S]) -> Option<(&'a str, &'a [S])>
    ensures value { option_map (λ p. (p.0.now, map S.text p.1.now)) result ≡ option_value_in name.now (map S.text words.entry.now) }
    ensures shorter { IfSome result (λ p. length p.1.now < length words.entry.now) }
{
    let [word, rest @ ..] = words else {
        return None;
    };
    match behind(name, word.as_str())? {
        "" => next_word(rest),
        value => Some((behind("=", value)?, rest)),
    }
}

/// The first word, and the words behind it.
fn next_word<S: AsStr>(words: &[S]) -> Option<(&str, &[S])>
    ensures word { option_map (λ p. (p.0.now, map S.text p.1.now)) result ≡ next_in (map S.text words.now) }
    ensures shorter { IfSome result (λ p. length p.1.now < length words.now) }
{
    match words {
        [value, rest @ ..] => Some((value.as_str(), rest)),
        [] => None,
    }
}

/// What stands behind this text at the beginning of a word.
fn behind<'a>(front: &str, word: &'a str) -> Option<&'a str>
    ensures { option_map (λ w. w.now) result ≡ behind_front front.now word.entry.now }
{
    word.strip_prefix(front)
}

/// How many workers a word asks for; `None` if it is no number from 1 to 64.
pub fn workers_in(word: &str) -> Option<PoolSize>
    ensures { result ≡ workers_in word.now }
{
    PoolSize::new(number_in(word)?)
}
