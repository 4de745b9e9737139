//! What a command answers.

/// What a command answers.
#[derive(Drop)]
pub struct Answer {
    /// Whether two scripts differ in what was asked for.
    pub differs: bool,
    /// The lines that are printed, each with its line feed.
    pub text: String,
}
