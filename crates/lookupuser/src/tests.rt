use lookup::{DistinctList, FaninPair, NotEntered, SlotTable};

const A: FaninPair = FaninPair {
    first: 2,
    second: 4,
};

const B: FaninPair = FaninPair {
    first: 4,
    second: 2,
};

#[test]
fn one_slot_fills(rt: HostRuntime) {
    let mut slots = [Some((B, 9))];
    let mut table = SlotTable::open(&mut slots);
    assert_eq!(rt; table.find(&B), None);
    assert_eq!(rt; table.enter(A, 6), Ok(()));
    assert_eq!(rt; table.enter(A, 8), Err(NotEntered::AlreadyThere));
    assert_eq!(rt; table.enter(B, 8), Err(NotEntered::Full));
    assert_eq!(rt; table.find(&A), Some(6));
}

#[test]
fn first_of_each_key_while_there_are_places(rt: HostRuntime) {
    let mut places = [A; 1];
    let mut list = DistinctList::new(&mut places);
    assert_eq!(rt; list.add(B), true);
    assert_eq!(rt; list.add(A), false);
    assert_eq!(rt; list.items().len(), 1);
}
