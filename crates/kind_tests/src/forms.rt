//! The code and the four-byte forms of the kinds that files can hold.
use price::StorableKind;
use price::additive::Bytes;
use price::bottleneck::Drift;

#[test]
fn codes(rt: HostRuntime) {
    assert_eq!(rt; Bytes::code(), 1);
    assert_eq!(rt; Drift::code(), 2);
}

#[test]
fn written_bytes(rt: HostRuntime) {
    assert_eq!(rt; Bytes(-4).price_form(), [0xff, 0xff, 0xff, 0xfc]);
    assert_eq!(rt; Bytes(-1_000_000).price_form(), [0xff, 0xf0, 0xbd, 0xc0]);
    assert_eq!(rt; Bytes(1_000_000).price_form(), [0, 0x0f, 0x42, 0x40]);
    assert_eq!(rt; Bytes(1_000_001).budget_form(), [0, 0x0f, 0x42, 0x41]);
    assert_eq!(rt; Bytes(i32::MIN).budget_form(), [0x80, 0, 0, 0]);
}

#[test]
fn read_bytes(rt: HostRuntime) {
    assert_eq!(rt; Bytes::price_of([0xff, 0xff, 0xff, 0xfc]), Some(Bytes(-4)));
    assert_eq!(rt;
        Bytes::price_of([0, 0x0f, 0x42, 0x40]),
        Some(Bytes(1_000_000))
    );
    assert_eq!(rt; Bytes::price_of([0, 0x0f, 0x42, 0x41]), None);
    assert_eq!(rt;
        Bytes::price_of([0xff, 0xf0, 0xbd, 0xc0]),
        Some(Bytes(-1_000_000))
    );
    assert_eq!(rt; Bytes::price_of([0xff, 0xf0, 0xbd, 0xbf]), None);
    assert_eq!(rt;
        Bytes::budget_of([0, 0x0f, 0x42, 0x41]),
        Some(Bytes(1_000_001))
    );
    assert_eq!(rt; Bytes::budget_of([0x80, 0, 0, 0]), Some(Bytes(i32::MIN)));
}

#[test]
fn drift_both_ways(rt: HostRuntime) {
    assert_eq!(rt; Drift(65_535).price_form(), [0, 0, 0xff, 0xff]);
    assert_eq!(rt; Drift(258).budget_form(), [0, 0, 1, 2]);
    assert_eq!(rt; Drift::price_of([0, 0, 0xff, 0xff]), Some(Drift(65_535)));
    assert_eq!(rt; Drift::price_of([0, 1, 0, 0]), None);
    assert_eq!(rt; Drift::budget_of([0, 0, 1, 2]), Some(Drift(258)));
    assert_eq!(rt; Drift::budget_of([0, 1, 0, 0]), None);
    assert_eq!(rt; Drift::budget_of([0xff, 0xff, 0xff, 0xff]), None);
}
