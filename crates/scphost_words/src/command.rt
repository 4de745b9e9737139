//! The commands by their names.

ghost use Rattle.std.specs.Prelude.{◌≡◌};
ghost use Rattle.scphost_words.specs.Commands.{command_in};

/// A command, the first word of a call.
#[derive(Clone, Copy)]
pub enum Command {
    /// `table`: runs the lines of a table file.
    Table,
    /// `run`: runs the lines of a script of networks.
    Run,
    /// `closure`: reports whom a node depends on.
    Closure,
    /// `compare`: compares what concerns a node in two scripts.
    Compare,
    /// `crowd`: compares what was submitted for a node in two scripts.
    Crowd,
    /// `serve`: hosts what the lines of the standard input declare, live.
    Serve,
    /// `compact`: prints a shorter journal with the same future.
    Compact,
    /// `encode`: prints the bytes of an envelope in words.
    Encode,
    /// `decode`: prints the words of an envelope's bytes.
    Decode,
}

impl Command {
    /// The command of this name, if there is one.
    pub fn named(name: &str) -> Option<Command>
        ensures { result ≡ command_in name.now }
    {
        match name {
            "table" => Some(Command::Table),
            "run" => Some(Command::Run),
            "closure" => Some(Command::Closure),
            "compare" => Some(Command::Compare),
            "crowd" => Some(Command::Crowd),
            "serve" => Some(Command::Serve),
            "compact" => Some(Command::Compact),
            "encode" => Some(Command::Encode),
            "decode" => Some(Command::Decode),
            _ => None,
        }
    }
}
