//! Which prices and budgets a kind admits.
use price::PriceKind;
use price::additive::Bytes;
use price::bottleneck::Drift;

#[test]
fn bytes_prices(rt: HostRuntime) {
    assert!(rt; Bytes(0).is_price());
    assert!(rt; Bytes(1_000_000).is_price());
    assert!(rt; !Bytes(1_000_001).is_price());
    assert!(rt; Bytes(-1_000_000).is_price());
    assert!(rt; !Bytes(-1_000_001).is_price());
    assert!(rt; !Bytes(i32::MAX).is_price());
    assert!(rt; !Bytes(i32::MIN).is_price());
}

#[test]
fn bytes_budgets(rt: HostRuntime) {
    assert!(rt; Bytes::zero().is_budget());
    assert!(rt; Bytes(i32::MAX).is_budget());
    assert!(rt; Bytes(i32::MIN).is_budget());
}

#[test]
fn drift_limits(rt: HostRuntime) {
    assert!(rt; Drift::zero().is_budget());
    assert!(rt; Drift(65_535).is_price());
    assert!(rt; !Drift(65_536).is_price());
    assert!(rt; Drift(65_535).is_budget());
    assert!(rt; !Drift(65_536).is_budget());
    assert!(rt; !Drift(u32::MAX).is_price());
}
