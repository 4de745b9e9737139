//! Answers that are kept, so that most forms are asked once.

ghost use Rattle.std.specs.Prelude.{◌≡◌, None, get_or};
ghost use Rattle.scp_bits.specs.Answering.{AreNoted, IsAnswer, IsAnswerAt, IsNothing};
ghost use Rattle.scp_bits.specs.Met.{has_needed};

use crate::form::Form;
use crate::places::{add_place, has_place};

/// How many words of 64 bits hold the numbers of the forms whose answers are kept. A form of a greater number is asked
/// each time.
const KEPT_WORDS: usize = 8;

/// The forms, by their numbers, that were asked whether a set of nodes meets them: those that are met, and those
/// that are not.
#[derive(Drop)]
pub(crate) struct Answers {
    met: [u64; KEPT_WORDS],
    unmet: [u64; KEPT_WORDS],
}

impl Answers {
    /// No form was asked.
    pub fn none() -> Answers
        ensures { IsNothing result }
    {
        Answers {
            met: [0u64; KEPT_WORDS],
            unmet: [0u64; KEPT_WORDS],
        }
    }

    /// Whether there is a form and the set of nodes meets it: by an earlier answer, or else asked now.
    pub fn is_met_at(&mut self, form: &Option<Form>, places: &[u64]) -> bool
        ensures { IsAnswerAt form.now places.now self.old self.new result }
    {
        match form {
            None => false,
            Some(form) => self.is_met(form, places),
        }
    }

    /// Whether the set of nodes meets the form: by an earlier answer, or else asked now.
    fn is_met(&mut self, form: &Form, places: &[u64]) -> bool
        ensures { IsAnswer form.now places.now self.old self.new result }
    {
        let number = form.number();
        if has_place(&self.met, number) {
            return true;
        }
        if has_place(&self.unmet, number) {
            return false;
        }
        let met = form.is_met(places);
        if met {
            note(&mut self.met, number);
        } else {
            note(&mut self.unmet, number);
        }
        met
    }
}

/// Notes a number, if there is room for it.
fn note(numbers: &mut [u64], number: usize)
    ensures { AreNoted number numbers.old numbers.new }
{
    if number / 64 < numbers.len() {
        add_place(numbers, number);
    }
}
