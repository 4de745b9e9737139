//! The node's own position.

ghost use Rattle.std.specs.Prelude.{◌≡◌, Option};
ghost use Rattle.scp_types.specs.declared.statement.Statement.{Statement};
ghost use Rattle.scp_voting.specs.Questions.{asks};
ghost use Rattle.scp_spec.specs.Views.{passes};

use crate::question::Question;
use scp_types::Statement;

/// What a node itself says of claims at this moment, whether it sent that or not (after the Stellar Consensus
/// Protocol draft). `position` is the statement that contracts speak of: a node may have none.
pub trait Position {
    ghost position: { Self → Option Statement };

    /// Whether the position passes; a node without one supports nothing. It takes no memory.
    fn passes(&self, question: &Question<'_>) -> bool
        ensures { result ≡ passes (asks question.now) (position self.now) };
}

impl Position for Option<Statement> {
    ghost position = { λ position. position };

    fn passes(&self, question: &Question<'_>) -> bool {
        match self {
            None => false,
            Some(statement) => question.asks(statement),
        }
    }
}
