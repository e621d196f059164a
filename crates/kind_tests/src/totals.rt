//! Totals of prices, and what they come to.
use price::PriceKind;
use price::additive::Bytes;
use price::bottleneck::Drift;

/// The total of some prices, added from the first to the last.
pub fn total<K: PriceKind>(prices: &[K]) -> K {
    prices.iter().fold(K::zero(), |sum, price| sum.plus(*price))
}

/// The total of one price, taken so many times.
pub fn repeated<K: PriceKind>(price: K, times: u32) -> K {
    (0..times).fold(K::zero(), |sum, _| sum.plus(price))
}

#[test]
fn bytes_add_up(rt: HostRuntime) {
    assert_eq!(rt; total::<Bytes>(&[]).0, 0);
    assert_eq!(rt; total(&[Bytes(-4)]).0, -4);
    assert_eq!(rt; total(&[Bytes(-4), Bytes(2), Bytes(2)]).0, 0);
    assert_eq!(rt; total(&[Bytes(2), Bytes(-4), Bytes(2)]).0, 0);
}

#[test]
fn most_bytes_are_exact(rt: HostRuntime) {
    assert_eq!(rt; repeated(Bytes(1_000_000), 1_023).0, 1_023_000_000);
    assert_eq!(rt; repeated(Bytes(-1_000_000), 1_023).0, -1_023_000_000);
}

// Past 32 bits a sum is the nearest number, and no longer a total.
#[test]
fn bytes_past_a_total(rt: HostRuntime) {
    assert_eq!(rt; Bytes(i32::MAX).plus(Bytes(1)).0, i32::MAX);
    assert_eq!(rt; Bytes(i32::MIN).plus(Bytes(-1)).0, i32::MIN);
    assert_eq!(rt; repeated(Bytes(1_000_000), 2_147).0, 2_147_000_000);
    assert_eq!(rt; repeated(Bytes(1_000_000), 2_148).0, i32::MAX);
}

#[test]
fn drift_is_the_largest(rt: HostRuntime) {
    assert_eq!(rt; total::<Drift>(&[]).0, 0);
    assert_eq!(rt; total(&[Drift(3)]).0, 3);
    assert_eq!(rt; total(&[Drift(3), Drift(65_535), Drift(7)]).0, 65_535);
    assert_eq!(rt; total(&[Drift(7), Drift(3), Drift(7)]).0, 7);
    assert_eq!(rt; repeated(Drift(5), 1_023).0, 5);
}

#[test]
fn bytes_compare(rt: HostRuntime) {
    assert!(rt; Bytes(-1).not_above(Bytes(0)));
    assert!(rt; Bytes(0).not_above(Bytes(0)));
    assert!(rt; !Bytes(1).not_above(Bytes(0)));
    assert!(rt; Bytes(i32::MIN).not_above(Bytes(i32::MAX)));
    assert!(rt; !Bytes(0).not_above(Bytes(-1)));
}

#[test]
fn drift_compares(rt: HostRuntime) {
    assert!(rt; Drift(0).not_above(Drift(0)));
    assert!(rt; Drift(3).not_above(Drift(4)));
    assert!(rt; !Drift(4).not_above(Drift(3)));
    assert!(rt; Drift(65_535).not_above(Drift(65_536)));
}
