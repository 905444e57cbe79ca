//! The nodes and headers of new lists: one list holds all nodes, ascending, and the others none.

ghost use Rattle.std.specs.Prelude.{◌≡◌, ◌≤◌, ◌<◌, map, IfOk};
ghost use Rattle.std.specs.List.{range_with_len};
ghost use Rattle.bump_links.specs.Ascending.{ascending_node, only_first};

use super::NONE;
use super::chain::{Header, Node};
use std::alloc::{AllocError, Global};

// The record of a node between its neighbours by number.
fn node_between(node: u32, count: u32, list: u32) -> Node
    requires { node < count }
    ensures { result ≡ ascending_node count list node }
{
    Node {
        forward: if node + 1 < count { node + 1 } else { NONE },
        back: if node > 0 { node - 1 } else { NONE },
        list,
    }
}

// The records of so many nodes, each linked to the next by number, all in one list.
pub(crate) fn ascending_nodes(alloc: Global, count: u32, list: u32) -> Result<Vec<Node>, AllocError>
    ensures { IfOk result (λ made. made.items ≡ map (ascending_node count list) (range_with_len 0 count)) }
{
    let mut made = Vec::with_capacity(alloc, count as usize)?;
    for node in 0..count {
        made.push(node_between(node, count, list))?;
    }
    Ok(made)
}

// The header of a list where `first` holds so many nodes, ascending, and the others none.
fn header_of(list: u32, count: u32, first: u32) -> Header
    requires { 1 ≤ count }
    ensures { result ≡ only_first count first list }
{
    if list == first {
        Header {
            head: 0,
            tail: count - 1,
            size: count,
        }
    } else {
        Header {
            head: NONE,
            tail: NONE,
            size: 0,
        }
    }
}

// The headers of so many lists, of which `first` holds all nodes, ascending.
pub(crate) fn first_headers(
    alloc: Global,
    lists: u32,
    count: u32,
    first: u32,
) -> Result<Vec<Header>, AllocError>
    requires { 1 ≤ count }
    ensures { IfOk result (λ made. made.items ≡ map (only_first count first) (range_with_len 0 lists)) }
{
    let mut made = Vec::with_capacity(alloc, lists as usize)?;
    for list in 0..lists {
        made.push(header_of(list, count, first))?;
    }
    Ok(made)
}
