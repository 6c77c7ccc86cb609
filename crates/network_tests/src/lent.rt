//! Lists in lent memory.
use crate::common::refusal;
use network::list::LentList;
use std::process::Abort;

// Elements appended to a list of two places in turn, the number of the refusal, which is what is tested, and how many places are free then.
const ELEMENTS: [(u8, Option<u8>, usize); 4] = [
    (7, None, 1),
    (5, None, 0),
    (9, Some(51), 0),
    (7, Some(51), 0),
];

// Appends two elements to a list of two places, and then no third.
fn check_filling(rt: &impl Abort, list: &mut LentList<'_, u8>) {
    assert_eq!(rt; list.free(), 2);
    for (x, number, free) in ELEMENTS {
        assert_eq!(rt; refusal(list.append(x)), number);
        assert_eq!(rt; list.free(), free);
    }
    assert_eq!(rt; list.as_slice(), [7, 5].as_slice());
}

#[test]
fn appends_until_full(rt: HostRuntime) {
    let mut memory = [1; 2];
    check_filling(&rt, &mut LentList::new(&mut memory));
    assert_eq!(rt; memory, [7, 5]);
}

#[test]
fn appends_nothing_to_no_memory(rt: HostRuntime) {
    let mut memory = [];
    let mut list = LentList::new(&mut memory);
    assert_eq!(rt; refusal(list.append(9)), Some(51));
    assert!(rt; list.as_slice().is_empty());
}
