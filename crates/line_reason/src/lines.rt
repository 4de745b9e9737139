//! The lines of a text by their numbers.

/// All that stands above the line of a number, counted from 1, in a text, and that line without its line feed. `None`
/// if the text has fewer lines.
pub fn line_at(text: &[u8], number: usize) -> Option<(&[u8], &[u8])> {
    let mut start = 0;
    let mut left = number;
    for place in 0..text.len() {
        if text[place] == b'\n' {
            if left == 1 {
                return Some((&text[..start], &text[start..place]));
            }
            left = left.saturating_sub(1);
            start = place + 1;
        }
    }
    if left == 1 && start < text.len() {
        return Some((&text[..start], &text[start..]));
    }
    None
}

/// The word at the front of a text, and what stands behind the space that ends it.
pub(crate) fn cut_word(text: &[u8]) -> (&[u8], &[u8]) {
    match text.iter().position(|byte| *byte == b' ') {
        Some(place) => (&text[..place], &text[place + 1..]),
        None => (text, &[]),
    }
}
