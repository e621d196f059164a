//! Lent memory.
ghost use Rattle.std.specs.Prelude.{◌≡◌, [], length};

use std::marker::Model;

/// Memory that the caller lends: its first places are taken, and only those have a meaning.
// The caller brings the places, so there is no vector to hold how many are taken.
#[derive(Drop)]
pub struct Lent<'a, T> {
    places: &'a mut [T],
    taken: usize,
}

impl<'a, T> Model for Lent<'a, T> {
    ghost use Rattle.std.specs.Prelude.{◌≤◌, length, take};
    ghost use Rattle.planner.specs.Lending.{Lending};

    ghost Value = { Lending T };

    ghost view = { λ l. record { taken = take l.taken l.places.now; places = length l.places.now } };

    ghost invariant = { λ l. l.taken ≤ length l.places.now };
}

impl<'a, T> Lent<'a, T> {
    /// Lent places of which none is taken.
    pub fn new(places: &'a mut [T]) -> Lent<'a, T>
        ensures taken { result.taken ≡ [] }
        ensures places { result.places ≡ length places.old }
    {
        Lent { places, taken: 0 }
    }

    /// How many places are taken.
    pub fn len(&self) -> usize
        ensures { result ≡ length self.now.taken }
    {
        self.taken
    }
}
