//! What comes of the lines of a script of networks.

ghost use Rattle.std.specs.Prelude.{◌≢◌, All, Err, OnOk, Some};
ghost use Rattle.scp_types.specs.declared.event.Refusal.TheVariants.{NoMemory};
ghost use Rattle.line_run.specs.Unprinted.{HadMemory};

use host_network::Given;
use scp_types::Refusal;
use std::alloc::AllocError;

/// What comes of a line, before anything is printed.
#[derive(Drop)]
pub(crate) enum Outcome {
    /// A declaration is taken.
    Declared,
    /// The answer to an event. A network that is taken back is answered as an event that gives out nothing.
    Answer(Result<Given, Refusal>),
    /// The answers of all nodes of a network, to which bytes came.
    Answers(Vec<Result<Given, Refusal>>),
    /// The slot of this number was to settle, and the refusal ended that, if there is one.
    Settled(u64, Option<Refusal>),
}

impl Outcome {
    /// Lets all pass but that an event was refused because it was out of memory, which is an error.
    pub fn had_memory(&self) -> Result<(), AllocError>
        ensures { OnOk result (HadMemory self.now) }
    {
        match self {
            Outcome::Declared | Outcome::Answer(Ok(_)) => Ok(()),
            Outcome::Answer(Err(refusal)) => but_for_memory(Some(*refusal)),
            Outcome::Answers(answers) => had_memory(answers),
            Outcome::Settled(_, ended) => but_for_memory(*ended),
        }
    }
}

/// Lets no refusal and any refusal pass, but the one that it is out of memory, which is an error.
pub(crate) fn but_for_memory(refusal: Option<Refusal>) -> Result<(), AllocError>
    ensures { OnOk result (refusal ≢ Some NoMemory) }
{
    match refusal {
        // Memory: an event wanted it.
        Some(Refusal::NoMemory) => Err(AllocError),
        _ => Ok(()),
    }
}

/// Lets all answers pass but the refusal that it is out of memory, which is an error.
fn had_memory(answers: &[Result<Given, Refusal>]) -> Result<(), AllocError>
    ensures { OnOk result (All (λ r. r ≢ Err NoMemory) answers.now) }
{
    let [answer, others @ ..] = answers else {
        return Ok(());
    };
    match answer {
        Err(Refusal::NoMemory) => Err(AllocError),
        _ => had_memory(others),
    }
}
