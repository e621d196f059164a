//! Order, tree, ring, cut, replacements and totals of two small sheets.
use super::RING_AND_CUT;
use file_tests::SHEET_A;
use forest::growing::grow;
use forest::merges::Merges;
use forest::networks::{Network, Tree};
use forest::replacing::replacements;
use link_file::Reader;
use price::additive::Bytes;
use ranking::ordering::{LINKS, Order};
use ranking::totals::{Swap, swaps_within, tree_total};

#[test]
fn order_and_tree(rt: HostRuntime) {
    let mut reader = Reader::<Bytes>::new();
    assert!(rt; reader.check(SHEET_A).is_ok());
    let order = Order::of(&reader);
    assert_eq!(rt; order.as_slice(), [1, 0, 2, 4].as_slice());
    let growth = grow(&Network::of(&reader), order.as_slice());
    assert_eq!(rt;
        &growth.tree[..6],
        [true, true, false, true, false, false].as_slice()
    );
    assert_eq!(rt; growth.ring, None);
    assert_eq!(rt; growth.cut, None);
    assert_eq!(rt; tree_total(&reader, &growth.tree).0, 9);
}

#[test]
fn ring_and_cut(rt: HostRuntime) {
    let mut reader = Reader::<Bytes>::new();
    assert!(rt; reader.check(RING_AND_CUT).is_ok());
    let order = Order::of(&reader);
    assert_eq!(rt; order.len(), 0);
    let growth = grow(&Network::of(&reader), order.as_slice());
    assert_eq!(rt; growth.ring, Some(2));
    assert_eq!(rt; growth.cut, Some(3));
}

// Link 2 rejoins the halves without link 0 and without link 1, and link 4 those without link 3.
#[test]
fn first_replacements(rt: HostRuntime) {
    let mut reader = Reader::<Bytes>::new();
    assert!(rt; reader.check(SHEET_A).is_ok());
    let order = Order::of(&reader);
    let network = Network::of(&reader);
    let growth = grow(&network, order.as_slice());
    let tree = Tree {
        network: &network,
        bits: &growth.tree,
    };
    let found = replacements(&tree, order.as_slice());
    assert_eq!(rt; (found[0], found[1], found[2]), (Some(2), Some(2), None));
    assert_eq!(rt; (found[3], found[4], found[5]), (Some(4), None, None));
}

// The path from 0 to 3 is joined last by link 0, the one from 1 to 3 by link 1, since link 3 is joined before both.
#[test]
fn last_joins(rt: HostRuntime) {
    let mut merges = Merges::new();
    assert!(rt; merges.join(2, 3, 3));
    assert!(rt; merges.join(1, 2, 1));
    assert!(rt; merges.join(0, 1, 0));
    assert!(rt; !merges.join(0, 2, 2));
    assert_eq!(rt; merges.last_between(0, 3), Some(0));
    assert_eq!(rt; merges.last_between(1, 3), Some(1));
    assert_eq!(rt; merges.last_between(2, 3), Some(3));
    assert_eq!(rt; merges.last_between(2, 2), None);
    assert_eq!(rt; merges.last_between(2, 4), None);
}

// With link 2 in place of 0 the tree costs 10, in place of 1 it costs 11, and with 4 in place of 1 it costs 12.
#[test]
fn swapped_totals(rt: HostRuntime) {
    let mut reader = Reader::<Bytes>::new();
    assert!(rt; reader.check(SHEET_A).is_ok());
    let order = Order::of(&reader);
    let growth = grow(&Network::of(&reader), order.as_slice());
    let mut swaps = [None; LINKS];
    swaps[0] = Some(Swap { gone: 0, come: 2 });
    swaps[1] = Some(Swap { gone: 1, come: 2 });
    swaps[4] = Some(Swap { gone: 1, come: 4 });
    let within = swaps_within(&reader, &growth.tree, &swaps, Bytes(10));
    assert_eq!(rt; &within[..5], [true, false, false, false, false].as_slice());
    let within = swaps_within(&reader, &growth.tree, &swaps, Bytes(11));
    assert_eq!(rt; &within[..5], [true, true, false, false, false].as_slice());
    let within = swaps_within(&reader, &growth.tree, &swaps, Bytes(12));
    assert_eq!(rt; &within[..5], [true, true, false, false, true].as_slice());
}
