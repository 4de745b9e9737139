//! What became of a call.

ghost use Rattle.std.specs.Prelude.{◌≡◌};
ghost use Rattle.live_embed.specs.Embedding.{code_of};

/// What became of a call.
#[derive(Clone, Copy)]
pub enum Status {
    /// It was done. A line was answered, and a journal need not keep it.
    Done,
    /// The line was answered, and a journal keeps it.
    Kept,
    /// It was out of memory.
    NoMemory,
    /// The handle holds no host.
    NoHost,
    /// There is no number for a further line.
    NoNumber,
}

impl Status {
    /// The number that C sees.
    pub(crate) fn code(self) -> u32
        ensures { result ≡ code_of self }
    {
        match self {
            Status::Done => 0,
            Status::Kept => 1,
            Status::NoMemory => 2,
            Status::NoHost => 3,
            Status::NoNumber => 4,
        }
    }
}
