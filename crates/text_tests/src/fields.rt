//! The fields that records and messages share.
use field_bytes::{decision_at, tid_at};
use mdb_base::{Tid, Tx};
use presumptions::Decision;

#[test]
fn attempts_are_read_within_their_range(rt: HostRuntime) {
    let last = Tid {
        tx: Tx(1024),
        attempt: 31,
    };
    assert_eq!(rt; tid_at(&[0, 0, 4, 0, 31, 9]), Some((last, [9].as_slice())));
    assert_eq!(rt; tid_at(&[0, 0, 4, 1, 31]), None);
    assert_eq!(rt; tid_at(&[0, 0, 0, 0, 31]), None);
    assert_eq!(rt; tid_at(&[0, 0, 4, 0, 32]), None);
    assert_eq!(rt; tid_at(&[0, 0, 4, 0]), None);
}

#[test]
fn decisions_are_one_and_two(rt: HostRuntime) {
    assert_eq!(rt;
        decision_at(&[1, 7]),
        Some((Decision::Commit, [7].as_slice()))
    );
    assert_eq!(rt;
        decision_at(&[2, 7]),
        Some((Decision::Abort, [7].as_slice()))
    );
    assert_eq!(rt; decision_at(&[3, 7]), None);
    assert_eq!(rt; decision_at(&[0]), None);
}
