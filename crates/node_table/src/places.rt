//! The places of one sender's rows.

ghost use Rattle.std.specs.Prelude.{◌≡◌, ◌<◌, ◌-◌, ◌^◌, None, Some, is_none, ℕ};
ghost use Rattle.node_table.specs.Places.{is_vacant, of_sender, place_in, with_place, without_place};

use scp_types::Kind;
use std::marker::Model;
use std::mem::size_of;

/// The most rows of a table (this host's profile).
pub(crate) const MOST_ROWS: usize = u32::MAX as usize - 1;

/// The place of a row in the list of all rows, or none: four bytes, while an `Option` of a place has sixteen.
///
/// Contracts see it as that `Option`: 0 is none, and 3 is the place 2.
#[derive(Clone, Copy, Debug, PartialEq, Eq)]
pub struct RowPlace {
    number: u32,
}

const _: () = prove!(size_of::<RowPlace>() <= 4);

impl Model for RowPlace {
    ghost use Rattle.std.specs.Prelude.{ℕ, Option};
    ghost use Rattle.node_table.specs.NumberBack.{numbered_back};
    ghost use Rattle.node_table.specs.Numbers.{number_of, place_from_number};

    ghost Value = { Option ℕ };

    ghost view = { λ a. place_from_number a.number };

    ghost inverse = { λ o. record { number = number_of o } };

    ghost inverse_ok = { λ a h. numbered_back a };
}

impl RowPlace {
    /// No place.
    pub fn none() -> RowPlace
        ensures { result ≡ None }
    {
        RowPlace { number: 0 }
    }

    /// A place, or the one behind the last of all rows that a table may have.
    pub fn at(place: usize) -> RowPlace
        requires { place < 2 ^ 32 - 1 }
        ensures { result ≡ Some place }
    {
        RowPlace {
            number: place as u32 + 1,
        }
    }

    /// The place, if there is one.
    pub fn get(self) -> Option<usize>
        ensures { result ≡ self }
    {
        match self.number.checked_sub(1) {
            None => None,
            Some(place) => Some(place as usize),
        }
    }

    /// Whether there is no place.
    pub fn is_none(self) -> bool
        ensures { result ≡ is_none self }
    {
        self.number == 0
    }
}

/// The places of one sender's rows in the list of all rows, if it has any.
#[derive(Clone, Copy)]
pub struct RowPlaces {
    pub nomination: RowPlace,
    pub ballot: RowPlace,
}

impl RowPlaces {
    pub(crate) fn none() -> RowPlaces
        ensures nomination { result.nomination ≡ None }
        ensures ballot { result.ballot ≡ None }
    {
        RowPlaces {
            nomination: RowPlace::none(),
            ballot: RowPlace::none(),
        }
    }

    pub(crate) fn place(&self, kind: Kind) -> RowPlace
        ensures { (u : ℕ) → result ≡ place_in (of_sender u self.now) kind }
    {
        match kind {
            Kind::Nomination => self.nomination,
            Kind::Ballot => self.ballot,
        }
    }

    /// These places, with this one for the row of a kind.
    pub(crate) fn with_place(self, kind: Kind, place: usize) -> RowPlaces
        requires { place < 2 ^ 32 - 1 }
        ensures { (u : ℕ) → of_sender u result ≡ with_place (of_sender u self) kind place }
    {
        match kind {
            Kind::Nomination => RowPlaces {
                nomination: RowPlace::at(place),
                ..self
            },
            Kind::Ballot => RowPlaces {
                ballot: RowPlace::at(place),
                ..self
            },
        }
    }

    /// These places, with none for the row of a kind.
    pub(crate) fn without_place(self, kind: Kind) -> RowPlaces
        ensures { (u : ℕ) → of_sender u result ≡ without_place (of_sender u self) kind }
    {
        match kind {
            Kind::Nomination => RowPlaces {
                nomination: RowPlace::none(),
                ..self
            },
            Kind::Ballot => RowPlaces {
                ballot: RowPlace::none(),
                ..self
            },
        }
    }

    /// Whether there is no place.
    pub(crate) fn is_vacant(&self) -> bool
        ensures { (u : ℕ) → result ≡ is_vacant (of_sender u self.now) }
    {
        self.nomination.is_none() && self.ballot.is_none()
    }
}
