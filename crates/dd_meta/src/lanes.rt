// Nodes with a row each: where they stand among the referrers and those that wait.
ghost use Rattle.std.specs.Prelude.{◌≡◌, ℕ, ◌+◌, ◌<◌, ◌^◌, Some, true, length, option_map, is_some, slice_get, IfSome};
ghost use Rattle.dd_lists.specs.Lists.{is_in, is_listed, list_at, taken_out, put_front};
ghost use Rattle.dd_lists.specs.Nodes.{is_live};
ghost use Rattle.dd_meta.specs.Matching.{address_of as address_at, IsBelow, IsHome, IsPlaced, home_by, is_home, referring_by, waiting, waiting_by, with_row, with_lost, Unlinks, row_at, passing};

use dd_lists::{Lane, Nodes};
use dd_record::{ARow, Link};

/// The one list of the recency lane, and of the waiting lane.
pub const ALL: u32 = 0;

// The list of referrers for such a link: of its slot, the dirty ones or the clean ones.
fn home_by(link: Link, dirty: bool, slots: u32) -> Option<u32>
    requires below { IsBelow slots link }
    requires fits { slots + slots < 2 ^ 32 }
    ensures is { result ≡ home_by slots dirty link }
    ensures below { IfSome result (λ list. list < slots + slots) }
{
    match link {
        Link::Lost => None,
        Link::Slot(slot) => Some(if dirty { slot } else { slots + slot }),
        Link::Zero => None,
    }
}

// Whether this is the list.
fn is_home(home: Option<u32>, list: u32) -> bool
    ensures { result ≡ is_home list home }
{
    match home {
        Some(at) => at == list,
        None => false,
    }
}

// Takes a node out of the referrers that have it.
fn leave(nodes: &mut Nodes<ARow>, node: u32, home: Option<u32>)
    requires { IsHome home node nodes.old.referrers }
    ensures { nodes.new ≡ record nodes.old { referrers = taken_out node nodes.old.referrers } }
{
    match home {
        Some(_) => nodes.unlink(Lane::Referrers, node),
        None => {}
    }
}

// Puts a node in front of a list of referrers, out of the one that has it. Where it is in front of this one,
// nothing is written.
fn put(nodes: &mut Nodes<ARow>, node: u32, home: Option<u32>, list: u32)
    requires live { is_live node nodes.old ≡ true }
    requires home { IsHome home node nodes.old.referrers }
    requires list { list < length nodes.old.referrers }
    ensures { nodes.new ≡ record nodes.old { referrers = put_front list node (taken_out node nodes.old.referrers) } }
{
    if is_home(home, list) {
        nodes.move_front(Lane::Referrers, list, node);
    } else {
        leave(nodes, node, home);
        nodes.push_front(Lane::Referrers, list, node);
    }
}

// Takes a node out of the referrers that have it, and puts it in front of these.
fn refer(nodes: &mut Nodes<ARow>, node: u32, home: Option<u32>, to: Option<u32>)
    requires live { is_live node nodes.old ≡ true }
    requires home { IsHome home node nodes.old.referrers }
    requires to { IfSome to (λ list. list < length nodes.old.referrers) }
    ensures { nodes.new ≡ record nodes.old { referrers = referring_by to node nodes.old.referrers } }
{
    match to {
        Some(list) => put(nodes, node, home, list),
        None => leave(nodes, node, home),
    }
}

// Puts a node in front of those that wait, unless it waits there, or takes it away.
fn wait(nodes: &mut Nodes<ARow>, node: u32, waits: bool, dirty: bool)
    requires live { is_live node nodes.old ≡ true }
    requires one { length nodes.old.waiting ≡ 1 }
    requires waits { is_in node (waiting nodes.old) ≡ waits }
    ensures { nodes.new ≡ record nodes.old { waiting = waiting_by dirty node nodes.old.waiting } }
{
    if waits {
        if !dirty {
            nodes.unlink(Lane::Waiting, node);
        }
    } else if dirty {
        nodes.push_front(Lane::Waiting, ALL, node);
    }
}

// Gives a node this row, and the places that go with it.
pub fn write(nodes: &mut Nodes<ARow>, slots: u32, node: u32, row: ARow)
    requires live { is_live node nodes.old ≡ true }
    requires placed { IsPlaced slots node nodes.old }
    requires one { length nodes.old.waiting ≡ 1 }
    requires two { length nodes.old.referrers ≡ slots + slots }
    requires fits { slots + slots < 2 ^ 32 }
    requires below { IsBelow slots row.link }
    ensures { nodes.new ≡ with_row slots node row nodes.old }
{
    let was = nodes.get(node);
    let home = home_by(was.link, was.dirty, slots);
    let waits = was.dirty;
    refer(nodes, node, home, home_by(row.link, row.dirty, slots));
    wait(nodes, node, waits, row.dirty);
    *nodes.get_mut(node) = row;
}

// Takes a node out of the referrers of its slot, where it has one.
pub fn part(nodes: &mut Nodes<ARow>, slots: u32, node: u32)
    requires live { is_live node nodes.old ≡ true }
    requires placed { IsPlaced slots node nodes.old }
    requires fits { slots + slots < 2 ^ 32 }
    ensures { nodes.new ≡ record nodes.old { referrers = taken_out node nodes.old.referrers } }
{
    let row = nodes.get(node);
    let home = home_by(row.link, row.dirty, slots);
    leave(nodes, node, home);
}

// Takes the link of a node that refers to a slot and doesn't wait.
fn lose(nodes: &mut Nodes<ARow>, node: u32)
    requires live { is_live node nodes.old ≡ true }
    requires listed { is_listed node nodes.old.referrers ≡ true }
    ensures { nodes.new ≡ with_lost node nodes.old }
{
    let row = *nodes.get(node);
    nodes.unlink(Lane::Referrers, node);
    *nodes.get_mut(node) = ARow {
        link: Link::Lost,
        ..row
    };
}

// Takes the links of the clean nodes that refer to a slot.
pub fn unlink_referrers(nodes: &mut Nodes<ARow>, slots: u32, slot: u32)
    requires below { slot < slots }
    requires fits { slots + slots < 2 ^ 32 }
    requires one { length nodes.old.waiting ≡ 1 }
    requires two { length nodes.old.referrers ≡ slots + slots }
    ensures { Unlinks slot slots nodes.old nodes.new }
{
    while let Some(node) = nodes.front(Lane::Referrers, slots + slot) {
        lose(nodes, node);
    }
}

// The address of a node, if there is one.
pub fn address_of(nodes: &Nodes<ARow>, node: Option<u32>) -> Option<u32>
    requires { IfSome node (λ live. is_live live nodes.now ≡ true) }
    ensures { result ≡ option_map (address_at nodes.now) node }
{
    match node {
        Some(live) => Some(nodes.get(live).address),
        None => None,
    }
}

// The row of a node, if there is one.
pub fn row_of(nodes: &Nodes<ARow>, node: Option<u32>) -> Option<ARow>
    requires { IfSome node (λ live. is_live live nodes.now ≡ true) }
    ensures { result ≡ option_map (row_at nodes.now) node }
{
    match node {
        Some(live) => Some(*nodes.get(live)),
        None => None,
    }
}

// The address of a referrer, or of the one behind it where that is not to be told.
pub fn pass(nodes: &Nodes<ARow>, skip: u32, at: Option<u32>) -> Option<u32>
    requires live { IfSome at (λ node. is_live node nodes.now ≡ true) }
    requires listed { IfSome at (λ node. is_listed node nodes.now.referrers ≡ true) }
    ensures { (list : ℕ) → IfSome at (λ node. is_in node (list_at list nodes.now.referrers) ≡ true) → result ≡ option_map (address_at nodes.now) (passing nodes.now skip at (list_at list nodes.now.referrers)) }
{
    match at {
        Some(node) => {
            if nodes.get(node).address == skip {
                address_of(nodes, nodes.next(Lane::Referrers, node))
            } else {
                Some(nodes.get(node).address)
            }
        }
        None => None,
    }
}

// Whether a list of referrers has a node.
pub fn has_any(nodes: &Nodes<ARow>, list: u32) -> bool
    requires { list < length nodes.now.referrers }
    ensures { result ≡ is_some (slice_get (list_at list nodes.now.referrers) 0) }
{
    nodes.front(Lane::Referrers, list).is_some()
}
