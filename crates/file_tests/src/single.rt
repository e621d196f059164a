//! A link table that is no reader.
ghost use Rattle.std.specs.Prelude.{[], ◌∷◌};

use table::LinkTable;
use table::links::Link;

/// A table with one link. Nothing says that it is lawful.
#[derive(Clone, Copy)]
pub struct Single<K> {
    pub points: u16,
    pub link: Link<K>,
    pub carried: K,
}

impl<K: Copy> LinkTable<K> for Single<K> {
    ghost meaning = { λ t. record { points = t.points; links = t.link ∷ []; carried = t.carried } };

    fn points(&self) -> u16 {
        self.points
    }

    fn link_count(&self) -> usize {
        1
    }

    fn link(&self, number: usize) -> Option<Link<K>> {
        (number == 0).then_some(self.link)
    }

    fn carried(&self) -> K {
        self.carried
    }
}
