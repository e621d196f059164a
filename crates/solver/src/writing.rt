//! Writing into a caller's buffer.
ghost use Rattle.std.specs.Prelude.{ℕ, ◌<◌, ◌≤◌, length, slice_index_or};
ghost use Rattle.std.specs.Fn.{FnReturnsAt};

// Writes into each place what is told of its item.
pub(super) fn write_each<S, T: Drop, F: Fn(&S) -> T>(out: &mut [T], items: &[S], told: F)
    requires long { length out.old ≤ length items.now }
    requires told { F.IsAlwaysCallable told }
    ensures { (k : ℕ) (d : T) (e : S) → k < length out.old → FnReturnsAt F.Fn told (slice_index_or items.now k e) (slice_index_or out.new k d) }
{
    // A zip over `iter_mut()` would hide from the contract what the places hold afterwards.
    for (number, place) in out.iter_mut().enumerate() {
        *place = told(&items[number]);
    }
}
