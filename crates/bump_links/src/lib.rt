//! Up to eight doubly linked lists over one array of nodes. Each node is in exactly one of the lists,
//! and moving it to the front of any list takes a few stores, wherever it stands, and no memory.
#![tactic(auto)]

ghost use Rattle.std.specs.Prelude.{◌≡◌, ◌<◌, ◌≤◌, length, All, IfOk, IfSome};
ghost use Rattle.bump_links.specs.Chain.{node_or_none};
ghost use Rattle.bump_links.specs.Spelled.{IsSpelled, lists_of};
ghost use Rattle.bump_links.specs.Lists.{list_at, moved_to_front, all_in_first, first_of, last_of, IsHeldBy, IsNextOf, IsPreviousOf};
ghost use Rattle.bump_links.specs.Lists.{HoldsEachOnce};

mod ascending;
mod chain;

use ascending::{ascending_nodes, first_headers};
use chain::{Header, Node, put_front, unlink};
use std::alloc::{AllocError, Global};
use std::marker::Model;

/// The greatest count of nodes: as many as the chunks of a cache may be. Any count below `NONE` would do.
pub const NODES_MAX: u32 = 128_000_000;

/// The greatest count of lists.
pub const LISTS_MAX: u32 = 8;

/// No node: what a link, a head or a tail holds where it leads nowhere.
const NONE: u32 = u32::MAX;

/// Up to eight lists of nodes. A node is a number below the count of nodes, and a list a number below
/// the count of lists; both counts are fixed when the lists are made.
#[derive(Drop)]
pub struct Links {
    nodes: Vec<Node>,
    headers: Vec<Header>,
}

impl Model for Links {
    ghost use Rattle.bump_links.specs.Lists.{Lists};
    ghost use Rattle.bump_links.specs.Spelled.{IsSpelled, lists_of};

    ghost Value = { Lists };

    ghost view = { λ a. lists_of a.nodes.items a.headers.items };

    ghost invariant = { λ a. IsSpelled a.nodes.items a.headers.items };
}

impl Links {
    /// Lists of which `first` holds all nodes, ascending, and the others none. `nodes` is the count of
    /// nodes, 1 to `NODES_MAX`, `lists` the count of lists, 1 to `LISTS_MAX`, and `first` is below
    /// `lists`. It is refused only for want of memory.
    pub fn new(alloc: Global, nodes: u32, lists: u32, first: u32) -> Result<Links, AllocError>
        requires some_nodes { 1 ≤ nodes }
        requires few_nodes { nodes ≤ NODES_MAX }
        requires few_lists { lists ≤ LISTS_MAX }
        requires first { first < lists }
        ensures made { IfOk result (λ made. made ≡ all_in_first nodes lists first) }
        ensures each_once { IfOk result (λ made. HoldsEachOnce made) }
    {
        let links = Links {
            nodes: ascending_nodes(alloc, nodes, first)?,
            headers: first_headers(alloc, lists, nodes, first)?,
        };
        Ok(links)
    }

    /// The count of nodes, which stays what it was made with: a node is a number below it. It is at most
    /// `NODES_MAX`.
    pub fn nodes(&self) -> u32
        ensures count { result ≡ self.now.nodes }
        ensures few { result ≤ NODES_MAX }
        ensures each_once { HoldsEachOnce self.now }
    {
        self.nodes.len() as u32
    }

    /// The count of lists, which stays what it was made with: a list is a number below it. It is at most
    /// `LISTS_MAX`.
    pub fn lists(&self) -> u32
        ensures count { result ≡ length self.now.lists }
        ensures few { result ≤ LISTS_MAX }
    {
        self.headers.len() as u32
    }

    /// Moves a node to the front of a list, out of the list that holds it, which may be the same. All
    /// other nodes stay where they are. `node` is below the count of nodes and `list` below that of lists.
    pub fn move_front(&mut self, node: u32, list: u32)
        requires node { node < self.old.nodes }
        requires list { list < length self.old.lists }
        ensures moved { self.new ≡ moved_to_front node list self.old }
        ensures nodes { self.new.nodes ≡ self.old.nodes }
        ensures lists { length self.new.lists ≡ length self.old.lists }
        ensures each_once { HoldsEachOnce self.new }
    {
        if self.headers[list as usize].head == node {
            return;
        }
        relink(&mut self.nodes, &mut self.headers, node, list);
    }

    /// The front of a list, or `None` where the list is empty. `list` is below the count of lists.
    pub fn front(&self, list: u32) -> Option<u32>
        requires { list < length self.now.lists }
        ensures first { result ≡ first_of (list_at self.now list) }
        ensures in_range { IfSome result (λ node. node < self.now.nodes) }
    {
        some_node(self.headers[list as usize].head)
    }

    /// The back of a list, or `None` where the list is empty. `list` is below the count of lists.
    pub fn back(&self, list: u32) -> Option<u32>
        requires { list < length self.now.lists }
        ensures last { result ≡ last_of (list_at self.now list) }
        ensures in_range { IfSome result (λ node. node < self.now.nodes) }
    {
        some_node(self.headers[list as usize].tail)
    }

    /// The list that holds a node. `node` is below the count of nodes.
    pub fn list_of(&self, node: u32) -> u32
        requires { node < self.now.nodes }
        ensures { IsHeldBy self.now node result }
    {
        self.nodes[node as usize].list
    }

    /// The node that follows a node in the list that holds it, or `None` behind the last. `node` is below
    /// the count of nodes.
    pub fn after(&self, node: u32) -> Option<u32>
        requires { node < self.now.nodes }
        ensures next { IsNextOf self.now node result }
        ensures in_range { IfSome result (λ next. next < self.now.nodes) }
        ensures each_once { HoldsEachOnce self.now }
    {
        some_node(self.nodes[node as usize].forward)
    }

    /// The node that a node follows in the list that holds it, or `None` before the first. `node` is below
    /// the count of nodes.
    pub fn before(&self, node: u32) -> Option<u32>
        requires { node < self.now.nodes }
        ensures previous { IsPreviousOf self.now node result }
        ensures in_range { IfSome result (λ previous. previous < self.now.nodes) }
        ensures each_once { HoldsEachOnce self.now }
    {
        some_node(self.nodes[node as usize].back)
    }

    /// The count of nodes in a list. `list` is below the count of lists.
    pub fn len(&self, list: u32) -> u32
        requires { list < length self.now.lists }
        ensures { result ≡ length (list_at self.now list) }
    {
        self.headers[list as usize].size
    }

    /// The nodes of a list, front first. `list` is below the count of lists. It is refused only for want
    /// of memory.
    pub fn walk(&self, alloc: Global, list: u32) -> Result<Vec<u32>, AllocError>
        requires { list < length self.now.lists }
        ensures found { IfOk result (λ found. found.items ≡ list_at self.now list) }
        ensures in_range { IfOk result (λ found. All (λ node. node < self.now.nodes) found.items) }
    {
        let header = self.headers[list as usize];
        let mut found = Vec::with_capacity(alloc, header.size as usize)?;
        let mut at = header.head;
        for _step in 0..header.size {
            found.push(at)?;
            at = self.nodes[at as usize].forward;
        }
        Ok(found)
    }
}

// The node that a link leads to.
fn some_node(link: u32) -> Option<u32>
    ensures { result ≡ node_or_none link }
{
    if link == NONE { None } else { Some(link) }
}

// Takes a node out of the list that holds it and puts it before the target list.
fn relink(nodes: &mut [Node], headers: &mut [Header], node: u32, list: u32)
    requires spelled { IsSpelled nodes.old headers.old }
    requires node { node < length nodes.old }
    requires list { list < length headers.old }
    ensures spelled { IsSpelled nodes.new headers.new }
    ensures moved { lists_of nodes.new headers.new ≡ moved_to_front node list (lists_of nodes.old headers.old) }
    ensures each_once { HoldsEachOnce (lists_of nodes.new headers.new) }
{
    let from = nodes[node as usize].list;
    unlink(nodes, &mut headers[from as usize], node);
    put_front(nodes, &mut headers[list as usize], node, list);
}
