//! Sets, and their common members.

use super::*;
use std::test::*;

fn set_of(numbers: &[u8]) -> ReplicaSet {
    let mut set = ReplicaSet::new();
    for r in numbers {
        if *r <= 8 {
            set.insert(*r);
        }
    }
    set
}

#[test]
fn sets_and_common_members(rt: HostRuntime) {
    let table: [(&[u8], &[u8], u8, Option<u8>); 6] = [
        (&[], &[], 0, None),
        (&[], &[0, 8], 0, None),
        (&[8, 0, 3], &[3, 2, 8], 3, Some(3)),
        (&[0, 1, 2, 0], &[0, 1, 2], 3, Some(0)),
        (&[4, 5, 8], &[8], 3, Some(8)),
        (&[0, 1, 2, 3, 4, 5, 6, 7, 8], &[7, 6], 9, Some(6)),
    ];
    for (first, second, count, common) in table {
        let set = set_of(first);
        assert_eq!(rt; set.count(), count);
        assert_eq!(rt; set.common(&set_of(second)), common);
        assert!(rt; first.iter().all(|r| set.contains(*r)));
        assert!(rt; !set.contains(9));
    }
}
