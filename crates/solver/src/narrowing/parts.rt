//! The parts of points, numbered by their lowest points.
ghost use Rattle.std.specs.Prelude.{◌≡◌, ℕ, ◌+◌, ◌<◌, ◌≤◌, length, slice_index};
ghost use Rattle.spanning.specs.Roots.{root_of};
ghost use Rattle.arrayvec.specs.ArrayVec.{array_vec_len};

use arrayvec::ArrayVec;
use forest::networks::POINTS;
use spanning::components::Components;

/// The parts that joined points fall into: how many there are, and the number of each point's part.
#[derive(Drop)]
pub struct Parts {
    count: u16,
    numbers: ArrayVec<u16, POINTS>,
    ghost few: { count ≤ array_vec_len numbers },
}

impl Parts {
    ghost use Rattle.solver.specs.Narrowing.{NumberedTo};

    /// The parts of so many points.
    pub fn of(roots: &mut Components, points: u16) -> Parts
        requires { points ≤ 1024 }
        ensures { NumberedTo (root_of roots.old.parents) points result.numbers.items result.count }
    {
        let mut parts = Parts {
            count: 0,
            numbers: ArrayVec::new(),
        };
        // The root of each point is asked by number; no slice is read.
        for point in 0..points {
            parts.push(roots.find(point));
        }
        parts
    }

    // Numbers the part of the next point, which has this root: a point that is its own root has a new number.
    fn push(&mut self, root: u16)
        requires { array_vec_len self.old.numbers < 1024 }
        ensures long { array_vec_len self.new.numbers ≡ array_vec_len self.old.numbers + 1 }
        ensures numbered { (root_above : ℕ → ℕ) → root_above (array_vec_len self.old.numbers) ≡ root → root ≤ array_vec_len self.old.numbers → root_above root ≡ root → NumberedTo root_above (array_vec_len self.old.numbers) self.old.numbers.items self.old.count → NumberedTo root_above (array_vec_len self.old.numbers + 1) self.new.numbers.items self.new.count }
    {
        if root as usize == self.numbers.len() {
            self.numbers.push(self.count);
            self.count += 1;
        } else {
            let number = self.part_of(root);
            self.numbers.push(number);
        }
    }

    /// How many parts there are.
    pub fn count(&self) -> u16
        ensures { result ≡ self.now.count }
    {
        self.count
    }

    /// The number of a point's part, and 0 past the points.
    pub fn part_of(&self, point: u16) -> u16
        ensures { result ≡ slice_index self.now.numbers.items point }
    {
        self.numbers.get(point as usize).copied().unwrap_or(0)
    }
}
