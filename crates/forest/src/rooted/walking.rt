//! Rooting a tree by a walk in breadth.
ghost use Rattle.std.specs.Prelude.{◌≡◌, ℕ, ◌<◌, Bool, T, [], ◌∷◌, Some, None, replicate, slice_set};
ghost use Rattle.forest.specs.Readings.{links_of};
ghost use Rattle.spanning.specs.Sets.{held};
ghost use Rattle.forest.specs.Places.{root_place};
ghost use Rattle.forest.specs.LinkEnds.{end_of, other};
ghost use Rattle.forest.specs.Rooted.{count_of, place_of, point_at, Linked, Placed, Grown, Added, Swept, RootedTree};
ghost use Rattle.forest.specs.Trees.{SpansWithoutRing};

use super::super::networks::{LINKS, Network, POINTS};
use super::links_by_end::LinksByEnd;
use super::links_by_end::ends::End;
use super::{Above, Place, Rooted};
use arrayvec::ArrayVec;

impl Rooted {
    // Gives a point the next place, below what is above it.
    fn add(&mut self, point: u16, above: Above)
        requires within { point < 1024 }
        requires new { place_of self.old point ≡ None }
        requires above { above.parent < count_of self.old }
        requires link { above.link < 2048 }
        ensures { Added self.old self.new point above }
    {
        self.places[point as usize] = Some(self.order.len() as u16);
        self.order.push(Place {
            point,
            above: Some(above),
        });
    }

    // Gives the point at the other end of a link a place, if it has none, below the place of the point at this end.
    fn reach(&mut self, network: &Network, end: End, link: u16, at: u16)
        requires link { link < 2048 }
        requires at { at < count_of self.old }
        ensures grown { Grown self.old self.new }
        ensures placed { Placed self.new (end_of (links_of network.now) (other end) link) }
        ensures linked { (X : ℕ → Bool) → T (X link) → end_of (links_of network.now) end link ≡ point_at self.old at → Linked (links_of network.now) X self.old → Linked (links_of network.now) X self.new }
    {
        let point = end.other().point(network, link);
        if self.place(point).is_none() {
            self.add(point, Above { parent: at, link });
        }
    }

    // Gives places to all points that links of the tree reach from the point at a place, with that point at this end.
    fn sweep(&mut self, links: &LinksByEnd, end: End, at: u16)
        requires at { at < count_of self.old }
        requires linked { Linked (links_of links.now.network.now) (held links.now.tree.now) self.old }
        ensures grown { Grown self.old self.new }
        ensures linked { Linked (links_of links.now.network.now) (held links.now.tree.now) self.new }
        ensures swept { (e : ℕ) → T (held links.now.tree.now e) → end_of (links_of links.now.network.now) end e ≡ point_at self.old at → Placed self.new (end_of (links_of links.now.network.now) (other end) e) }
    {
        for link in links.at(end, self.order[at as usize].point) {
            self.reach(links.network, end, link, at);
        }
    }

    // Gives places to all points that links of the tree reach from the point at a place.
    fn sweep_both(&mut self, links: &LinksByEnd, at: u16)
        requires at { at < count_of self.old }
        requires linked { Linked (links_of links.now.network.now) (held links.now.tree.now) self.old }
        ensures grown { Grown self.old self.new }
        ensures linked { Linked (links_of links.now.network.now) (held links.now.tree.now) self.new }
        ensures swept { Swept (links_of links.now.network.now) (held links.now.tree.now) self.new at }
    {
        for end in [End::First, End::Second] {
            self.sweep(links, end, at);
        }
    }

    // Point 0 alone has a place.
    fn start() -> Rooted
        ensures places { result.places ≡ slice_set (replicate 1024 None) 0 (Some 0) }
        ensures order { result.order.items ≡ root_place ∷ [] }
    {
        let mut places = [None; POINTS];
        places[0] = Some(0);
        let mut order = ArrayVec::new();
        order.push(Place::default());
        Rooted { places, order }
    }

    /// Roots a tree. If its links join all points and have no ring, each point has a place, and each link leads up from one place.
    pub fn new(network: &Network, tree: &[bool; LINKS]) -> Rooted
        ensures { SpansWithoutRing network.now (held tree.now) → RootedTree (links_of network.now) network.now.points (held tree.now) result }
    {
        let links = LinksByEnd::new(network, tree);
        let mut rooted = Rooted::start();
        // The walk goes over the places that it gives, so it cannot borrow them.
        let mut at = 0;
        while at < rooted.order.len() as u16 {
            rooted.sweep_both(&links, at);
            at += 1;
        }
        rooted
    }
}
