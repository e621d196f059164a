//! A third kind: within the laws, and outside of what they say.
use super::steps::Steps;
use super::totals::{repeated, total};
use price::PriceKind;

// A price or a total.
fn steps(count: u32, tag: u32) -> Steps {
    Steps { count, tag }
}

#[test]
fn any_order(rt: HostRuntime) {
    let a = steps(2, 10);
    let b = steps(200, 255);
    let c = steps(0, 1);
    assert_eq!(rt; total(&[a, b, c]), steps(202, 266));
    assert_eq!(rt; total(&[a, c, b]), steps(202, 266));
    assert_eq!(rt; total(&[b, a, c]), steps(202, 266));
    assert_eq!(rt; total(&[b, c, a]), steps(202, 266));
    assert_eq!(rt; total(&[c, a, b]), steps(202, 266));
    assert_eq!(rt; total(&[c, b, a]), steps(202, 266));
    assert_eq!(rt; a.plus(b.plus(c)), steps(202, 266));
}

#[test]
fn most_prices_are_exact(rt: HostRuntime) {
    assert_eq!(rt; total::<Steps>(&[]), steps(0, 0));
    assert_eq!(rt; repeated(steps(200, 255), 1_023), steps(204_600, 260_865));
}

// Amounts that differ may both be not above the other.
#[test]
fn ties(rt: HostRuntime) {
    assert!(rt; steps(4, 1).not_above(steps(4, 2)));
    assert!(rt; steps(4, 2).not_above(steps(4, 1)));
    assert!(rt; steps(4, 2).not_above(steps(6, 0)));
    assert!(rt; !steps(6, 0).not_above(steps(4, 2)));
}

#[test]
fn admitted(rt: HostRuntime) {
    assert!(rt; steps(200, 255).is_price());
    assert!(rt; !steps(202, 255).is_price());
    assert!(rt; !steps(200, 256).is_price());
    assert!(rt; !steps(199, 0).is_price());
    assert!(rt; Steps::zero().is_budget());
    assert!(rt; steps(4_000_000_000, 4_000_000_000).is_budget());
    assert!(rt; !steps(3, 0).is_budget());
}

// An odd count is no total, and the laws say nothing of it.
#[test]
fn odd_counts(rt: HostRuntime) {
    let odd = steps(1, 0);
    assert!(rt; !odd.not_above(odd));
    assert!(rt; !odd.not_above(steps(2, 0)));
    assert_eq!(rt; odd.plus(steps(2, 0)), steps(1, 0));
    assert_eq!(rt; steps(2, 0).plus(odd), steps(3, 0));
}
