//! Kinds whose amounts are printed.
ghost use Rattle.std.specs.Prelude.{◌≡◌, ℤ};
ghost use Rattle.listing.specs.Printed.{bytes_printed, drift_printed};

use price::StorableKind;
use price::additive::Bytes;
use price::bottleneck::Drift;

/// A storable kind whose amounts are printed as whole numbers.
pub trait ListedKind: StorableKind {
    /// The number that is printed for an amount.
    ghost printed: { Self → ℤ };

    /// The number that is printed for this amount.
    fn amount(self) -> i64
        ensures { result ≡ printed self };
}

/// Prints the number of bytes.
impl ListedKind for Bytes {
    ghost printed = { bytes_printed };

    fn amount(self) -> i64 {
        let Bytes(bytes) = self;
        i64::from(bytes)
    }
}

/// Prints the number of sixty-fourths of a pixel.
impl ListedKind for Drift {
    ghost printed = { drift_printed };

    fn amount(self) -> i64 {
        let Drift(parts) = self;
        i64::from(parts)
    }
}
