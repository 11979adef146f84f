//! A list driven by hand. What it gives was worked out on paper.

use crate::FlushList;
use std::test::Fail;

#[test]
fn lines_are_given_in_the_order_of_their_first_marks(rt: HostRuntime) -> Result<(), Fail> {
    let mut list = FlushList::new(rt.alloc());
    assert_eq!(rt; list.spare(), 1);
    list.reserve(3)?;
    for line in [3, 1, 3, 2] {
        assert!(rt; list.spare() > 0 || list.is_listed(line));
        list.mark(line);
    }
    assert_eq!(rt; (list.len(), list.spare()), (3, 0));
    assert_eq!(rt;
        [list.next(), list.next(), list.next()].as_slice(),
        [Some(3), Some(1), Some(2)].as_slice()
    );
    assert!(rt; list.is_all_given());
    assert_eq!(rt; list.next(), None);
    list.clear();
    assert_eq!(rt; (list.len(), list.given(), list.spare()), (0, 0, 3));
    assert_eq!(rt; list.next(), None);
    assert!(rt; !list.is_listed(3));
    Ok(())
}
