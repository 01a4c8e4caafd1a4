//! The index at triples, at pairs, and at a kind of key of the tests' own.
ghost use Rattle.std.specs.Prelude.{◌≡◌};
ghost use Rattle.std.proofs.Math.Path.{ap};
ghost use Rattle.std.specs.Ordering.{nat_cmp};
ghost use Rattle.index.specs.Total.{number_total, total_by, turned_total};

use index::{EdgeIndex, Entry, Index, Key, Pair, TriangleIndex, Triple};
use refusal::Refusal;
use std::cmp::Ordering;
use std::process::Abort;

// Numbers, the greatest first.
#[derive(Clone, Copy, PartialEq, Eq, Debug)]
struct Descending(u16);

impl Key for Descending {
    ghost order = { λ a b. nat_cmp b.0 a.0 };

    ghost total = { total_by (turned_total number_total) (λ a. a.0) (λ a b h. ap (λ n. record { 0 = n }) h) };

    fn compare(self, other: Descending) -> Ordering {
        other.0.cmp(&self.0)
    }
}

fn number(key: u16, half_face: u16) -> Entry<Descending> {
    Entry {
        key: Descending(key),
        half_face,
    }
}

fn pair(first: u16, second: u16, half_face: u16) -> Entry<Pair> {
    Entry {
        key: Pair { first, second },
        half_face,
    }
}

fn triple(first: u16, second: u16, third: u16, half_face: u16) -> Entry<Triple> {
    Entry {
        key: Triple {
            first,
            second,
            third,
        },
        half_face,
    }
}

// Puts four entries, out of their order.
fn put_all(rt: &impl Abort, index: &mut Index<Descending>) {
    for entry in [number(4, 40), number(9, 90), number(1, 10), number(6, 60)] {
        assert_eq!(rt; index.put(entry), Ok(()));
    }
    assert_eq!(rt; index.len(), 4);
}

#[test]
fn entries_follow_the_order_of_their_keys(rt: HostRuntime) {
    let free = number(0, 7);
    let mut places = [free; 6];
    let mut index = Index::over(&mut places);
    put_all(&rt, &mut index);
    assert_eq!(rt;
        index.entries(),
        [number(9, 90), number(6, 60), number(4, 40), number(1, 10)].as_slice()
    );
    assert_eq!(rt;
        places,
        [
            number(9, 90),
            number(6, 60),
            number(4, 40),
            number(1, 10),
            free,
            free,
        ]
    );
}

#[test]
fn an_equal_key_is_replaced(rt: HostRuntime) {
    let mut places = [number(0, 7); 5];
    let mut index = Index::over(&mut places);
    put_all(&rt, &mut index);
    assert_eq!(rt; index.put(number(6, 61)), Ok(()));
    assert_eq!(rt; index.put(number(1, 11)), Ok(()));
    assert_eq!(rt;
        index.entries(),
        [number(9, 90), number(6, 61), number(4, 40), number(1, 11)].as_slice()
    );
}

#[test]
fn only_keys_that_are_there_are_found(rt: HostRuntime) {
    let mut places = [number(0, 7); 6];
    let mut index = Index::over(&mut places);
    assert_eq!(rt; index.find(Descending(0)), None);
    put_all(&rt, &mut index);
    for key in [9, 6, 4, 1] {
        assert_eq!(rt; index.find(Descending(key)), Some(10 * key));
    }
    // before all, between, behind all and in a free place
    for key in [10, 8, 5, 2, 0] {
        assert_eq!(rt; index.find(Descending(key)), None);
    }
}

#[test]
fn a_full_index_takes_only_keys_that_it_has(rt: HostRuntime) {
    let mut places = [number(0, 7); 4];
    let mut index = Index::over(&mut places);
    put_all(&rt, &mut index);
    for key in [10, 5, 0] {
        assert_eq!(rt; index.put(number(key, 1)), Err(Refusal::ListTooShort));
    }
    assert_eq!(rt;
        index.entries(),
        [number(9, 90), number(6, 60), number(4, 40), number(1, 10)].as_slice()
    );
    assert_eq!(rt; index.put(number(4, 41)), Ok(()));
    assert_eq!(rt;
        places,
        [number(9, 90), number(6, 60), number(4, 41), number(1, 10)]
    );
}

#[test]
fn no_places_hold_no_entries(rt: HostRuntime) {
    let mut places: [Entry<Descending>; 0] = [];
    let mut index = Index::over(&mut places);
    assert_eq!(rt; index.put(number(1, 10)), Err(Refusal::ListTooShort));
    assert_eq!(rt; index.find(Descending(1)), None);
    assert_eq!(rt; index.len(), 0);
}

#[test]
fn pairs_go_by_their_first_and_then_their_second(rt: HostRuntime) {
    let mut places = [pair(0, 0, 0); 4];
    let mut index = EdgeIndex::over(&mut places);
    for entry in [
        pair(2, 5, 1),
        pair(1, 9, 2),
        pair(2, 3, 3),
        pair(1, 4, 4),
        pair(2, 3, 5),
    ] {
        assert_eq!(rt; index.put(entry), Ok(()));
    }
    assert_eq!(rt; index.put(pair(2, 4, 6)), Err(Refusal::ListTooShort));
    assert_eq!(rt;
        index.find(Pair {
            first: 2,
            second: 3,
        }),
        Some(5)
    );
    assert_eq!(rt;
        index.find(Pair {
            first: 3,
            second: 2,
        }),
        None
    );
    assert_eq!(rt; index.len(), 4);
    assert_eq!(rt;
        index.entries(),
        [pair(1, 4, 4), pair(1, 9, 2), pair(2, 3, 5), pair(2, 5, 1)].as_slice()
    );
}

#[test]
fn triples_go_by_their_first_then_second_then_third(rt: HostRuntime) {
    let mut places = [triple(0, 0, 0, 0); 4];
    let mut index = TriangleIndex::over(&mut places);
    for entry in [
        triple(1, 2, 4, 1),
        triple(1, 3, 3, 2),
        triple(1, 2, 3, 3),
        triple(0, 5, 6, 4),
        triple(1, 2, 4, 5),
    ] {
        assert_eq!(rt; index.put(entry), Ok(()));
    }
    assert_eq!(rt; index.put(triple(1, 2, 5, 6)), Err(Refusal::ListTooShort));
    assert_eq!(rt;
        index.find(Triple {
            first: 1,
            second: 2,
            third: 4,
        }),
        Some(5)
    );
    assert_eq!(rt;
        index.find(Triple {
            first: 1,
            second: 2,
            third: 5,
        }),
        None
    );
    assert_eq!(rt; index.len(), 4);
    assert_eq!(rt;
        index.entries(),
        [
            triple(0, 5, 6, 4),
            triple(1, 2, 3, 3),
            triple(1, 2, 4, 5),
            triple(1, 3, 3, 2),
        ]
        .as_slice()
    );
}
