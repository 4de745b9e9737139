//! The characters of a line, and the columns of its words.

ghost use Rattle.std.specs.Prelude.{◌+◌, ◌<◌, ◌≤◌, IfSome, length};

/// The place of a wrong character, counted from 0, and why: of the first that no line has, or else of the first loose
/// space.
pub(crate) fn character_fault(line: &[u8]) -> Option<(usize, &'static str)>
    ensures { IfSome result (λ r. r.0 < length line.now) }
{
    if let Some(place) = strange_byte(line) {
        return Some((place, allowed_in(line)));
    }
    let place = loose_space(line)?;
    Some((
        place,
        "one space stands between two fields, and none before the first or behind the last",
    ))
}

fn allowed_in(line: &[u8]) -> &'static str {
    if is_comment(line) {
        "a comment has ASCII characters alone"
    } else {
        "a line has printed ASCII characters and single spaces between its fields"
    }
}

/// The place of the first byte that no line has; a comment may have any that is ASCII.
fn strange_byte(line: &[u8]) -> Option<usize>
    ensures { IfSome result (λ place. place < length line.now) }
{
    if is_comment(line) {
        return line.iter().position(|byte| *byte >= 128);
    }
    line.iter()
        .position(|byte| !byte.is_ascii_graphic() && *byte != b' ')
}

/// The place of the first space that does not stand between two fields.
fn loose_space(line: &[u8]) -> Option<usize>
    ensures { IfSome result (λ place. place < length line.now) }
{
    if is_comment(line) {
        return None;
    }
    let mut before = b' ';
    for place in 0..line.len() {
        if line[place] == b' ' && (before == b' ' || place + 1 == line.len()) {
            return Some(place);
        }
        before = line[place];
    }
    None
}

fn is_comment(line: &[u8]) -> bool {
    matches!(line, [b'#', ..])
}

/// At which byte of a line, counted from 1, its word of this number begins, counted from 0. If there are fewer words,
/// it is one past the last byte.
pub(crate) fn column_of(line: &[u8], word: usize) -> usize
    ensures first { 0 < result }
    ensures last { result ≤ length line.now + 1 }
{
    if word == 0 {
        return 1;
    }
    let mut left = word;
    for place in 0..line.len() {
        if line[place] == b' ' {
            left = left.saturating_sub(1);
            if left == 0 {
                return place + 2;
            }
        }
    }
    line.len() + 1
}
