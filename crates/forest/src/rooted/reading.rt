//! Reading a rooted tree.
ghost use Rattle.std.specs.Prelude.{◌≡◌};
ghost use Rattle.forest.specs.Rooted.{place_of, above_at};

use super::{Above, Rooted};

impl Rooted {
    /// The place of a point, if it has one.
    pub fn place(&self, point: u16) -> Option<u16>
        ensures { result ≡ place_of self.now point }
    {
        *self.places.get(point as usize)?
    }

    /// What is above a place; none for the root, and past the places.
    pub fn above(&self, place: u16) -> Option<Above>
        ensures { result ≡ above_at self.now place }
    {
        self.order.get(place as usize)?.above
    }
}
