//! Links, as a caller calls them.
ghost use Rattle.bump_links.specs.Lists.{HoldsEachOnce, list_at};
ghost use Rattle.bump_links.specs.Lists.{all_in_first, moved_to_front};
ghost use Rattle.std.specs.Prelude.{◌≡◌, ◌≤◌, length, ◌<◌, All, IfOk};

use bump_links::{LISTS_MAX, Links, NODES_MAX};
use std::alloc::{AllocError, Global};

/// Lists of which one holds all nodes.
pub fn new(alloc: Global, nodes: u32, lists: u32, first: u32) -> Result<Links, AllocError>
    requires some_nodes { 1 ≤ nodes }
    requires few_nodes { nodes ≤ NODES_MAX }
    requires few_lists { lists ≤ LISTS_MAX }
    requires first { first < lists }
    ensures made { IfOk result (λ made. made ≡ all_in_first nodes lists first) }
    ensures each_once { IfOk result (λ made. HoldsEachOnce made) }
{
    Links::new(alloc, nodes, lists, first)
}

/// How many nodes a list has.
pub fn len(links: &Links, list: u32) -> u32
    requires { list < length links.now.lists }
    ensures { result ≡ length (list_at links.now list) }
{
    links.len(list)
}

/// The nodes of a list, front first.
pub fn walk(links: &Links, alloc: Global, list: u32) -> Result<Vec<u32>, AllocError>
    requires { list < length links.now.lists }
    ensures found { IfOk result (λ found. found.items ≡ list_at links.now list) }
    ensures in_range { IfOk result (λ found. All (λ node. node < links.now.nodes) found.items) }
{
    links.walk(alloc, list)
}

/// Moves a node to the front of a list.
pub fn move_front(links: &mut Links, node: u32, list: u32)
    requires node { node < links.old.nodes }
    requires list { list < length links.old.lists }
    ensures moved { links.new ≡ moved_to_front node list links.old }
    ensures nodes { links.new.nodes ≡ links.old.nodes }
    ensures lists { length links.new.lists ≡ length links.old.lists }
    ensures each_once { HoldsEachOnce links.new }
{
    links.move_front(node, list)
}
