// Lists and nodes through their calls. What is expected is what the plain lists give.

use crate::{Lane, Lists, Nodes};
use std::test::Fail;

#[test]
fn numbers_move_within_their_list(rt: HostRuntime) -> Result<(), Fail> {
    let mut lists = Lists::new(rt.alloc(), 3, 2)?;
    lists.push_front(1, 0);
    lists.push_front(1, 2);
    assert_eq!(rt; lists.front(0), None);
    assert_eq!(rt; lists.front(1), Some(2));
    assert_eq!(rt; lists.back(1), Some(0));
    lists.move_front(1, 0);
    assert_eq!(rt; lists.front(1), Some(0));
    assert_eq!(rt; lists.next(0), Some(2));
    assert_eq!(rt; lists.prev(0), None);
    lists.unlink(0);
    assert_eq!(rt; lists.front(1), Some(2));
    assert_eq!(rt; lists.next(2), None);
    assert_eq!(rt; lists.prev(2), None);
    Ok(())
}

#[test]
fn numbers_move_where_there_is_one_list(rt: HostRuntime) -> Result<(), Fail> {
    let mut lists = Lists::new(rt.alloc(), 2, 1)?;
    lists.push_front(0, 1);
    lists.push_front(0, 0);
    lists.move_front(0, 1);
    assert_eq!(rt; lists.front(0), Some(1));
    assert_eq!(rt; lists.next(1), Some(0));
    assert_eq!(rt; lists.back(0), Some(0));
    assert_eq!(rt; lists.is_first(1), true);
    assert_eq!(rt; lists.is_first(0), false);
    Ok(())
}

#[test]
fn a_node_stands_in_two_lanes(rt: HostRuntime) -> Result<(), Fail> {
    let mut nodes: Nodes<u32> = Nodes::reserve(rt.alloc(), 2, [1, 3, 1])?;
    let node = nodes.add(7);
    nodes.push_front(Lane::Recency, 0, node);
    nodes.push_front(Lane::Referrers, 2, node);
    assert_eq!(rt; nodes.front(Lane::Referrers, 2), Some(node));
    assert_eq!(rt; nodes.front(Lane::Waiting, 0), None);
    assert_eq!(rt; nodes.back(Lane::Recency, 0), Some(node));
    *nodes.get_mut(node) = 9;
    assert_eq!(rt; *nodes.get(node), 9);
    nodes.unlink(Lane::Referrers, node);
    nodes.unlink(Lane::Recency, node);
    assert_eq!(rt; nodes.front(Lane::Recency, 0), None);
    assert_eq!(rt; nodes.len(), 1);
    assert_eq!(rt; nodes.remove(node), 9);
    assert_eq!(rt; nodes.len(), 0);
    Ok(())
}
