// Nodes under keys, through the calls of the index. What is expected is what the lists of each key give.

use crate::Index;
use std::test::Fail;

#[test]
fn the_last_of_a_key_comes_first(rt: HostRuntime) -> Result<(), Fail> {
    let mut index = Index::new(rt.alloc(), 2, 3)?;
    index.insert(5, 0);
    index.insert(6, 1);
    index.insert(5, 2);
    assert_eq!(rt; index.first(5), Some(2));
    assert_eq!(rt; index.next_same(2), Some(0));
    assert_eq!(rt; index.next_same(0), None);
    assert_eq!(rt; index.first(6), Some(1));
    assert_eq!(rt; index.first(7), None);
    index.remove(2);
    assert_eq!(rt; index.first(5), Some(0));
    Ok(())
}

#[test]
fn a_moved_node_comes_first(rt: HostRuntime) -> Result<(), Fail> {
    let mut index = Index::new(rt.alloc(), 2, 3)?;
    index.insert(5, 0);
    index.insert(6, 1);
    index.insert(5, 2);
    index.move_front(0);
    assert_eq!(rt; index.first(5), Some(0));
    assert_eq!(rt; index.next_same(0), Some(2));
    assert_eq!(rt; index.first(6), Some(1));
    Ok(())
}
