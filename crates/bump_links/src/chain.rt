//! One doubly linked list: a header, and links in a slice of nodes that several lists share.

ghost use Rattle.std.specs.Prelude.{◌≡◌, ◌≢◌, ◌<◌, ◌≤◌, ◌∷◌, length};
ghost use Rattle.bump_links.specs.Chain.{list_of, list_under, SpellsList, KeepsOthers};
ghost use Rattle.bump_links.specs.Lists.{times, without};
ghost use Rattle.bump_links.specs.Relink.{LinksForward, LinksBack, header_with_head, with_tail};

use super::{NODES_MAX, NONE};

/// The links of one node, side by side, and the list that holds it.
#[derive(Clone, Copy)]
pub(crate) struct Node {
    /// The node that follows it in its list, or `NONE` behind the last.
    pub(crate) forward: u32,

    /// The node before it in its list, or `NONE` at the front.
    pub(crate) back: u32,

    /// The list that holds it.
    pub(crate) list: u32,
}

/// The ends of one list and its count of nodes.
#[derive(Clone, Copy)]
pub(crate) struct Header {
    /// The front of the list, or `NONE` where it is empty.
    pub(crate) head: u32,

    /// The back of the list, or `NONE` where it is empty.
    pub(crate) tail: u32,

    /// How many nodes the list has.
    pub(crate) size: u32,
}

// Makes `to` come after `before`: by its forward link, or as the head where nothing stands before.
fn link_forward(nodes: &mut [Node], header: &mut Header, before: u32, to: u32)
    requires { before ≢ NONE → before < length nodes.old }
    ensures len { length nodes.new ≡ length nodes.old }
    ensures nodes { LinksForward nodes.old nodes.new before to }
    ensures header { header.new ≡ header_with_head header.old before to }
{
    if before == NONE {
        header.head = to;
    } else {
        let node = &mut nodes[before as usize];
        node.forward = to;
    }
}

// Makes `to` come before `after`: by its back link, or as the tail where nothing stands after.
fn link_back(nodes: &mut [Node], header: &mut Header, after: u32, to: u32)
    requires { after ≢ NONE → after < length nodes.old }
    ensures len { length nodes.new ≡ length nodes.old }
    ensures nodes { LinksBack nodes.old nodes.new after to }
    ensures header { header.new ≡ with_tail header.old after to }
{
    if after == NONE {
        header.tail = to;
    } else {
        let node = &mut nodes[after as usize];
        node.back = to;
    }
}

// Takes a node out of the list that holds it. Its own record keeps its links.
pub(crate) fn unlink(nodes: &mut [Node], header: &mut Header, node: u32)
    requires few { length nodes.old ≤ NODES_MAX }
    requires spelled { SpellsList nodes.old (list_of nodes.old node) header.old (list_under nodes.old header.old) }
    requires held { times node (list_under nodes.old header.old) ≡ 1 }
    ensures spelled { SpellsList nodes.new (list_of nodes.old node) header.new
        (without node (list_under nodes.old header.old)) }
    ensures others { KeepsOthers nodes.old nodes.new (list_of nodes.old node) node }
{
    let Node { forward, back, .. } = nodes[node as usize];
    link_forward(nodes, header, back, forward);
    link_back(nodes, header, forward, back);
    header.size -= 1;
}

// Puts a node that is in no list before all nodes of this one.
pub(crate) fn put_front(nodes: &mut [Node], header: &mut Header, node: u32, list: u32)
    requires few { length nodes.old ≤ NODES_MAX }
    requires node { node < length nodes.old }
    requires spelled { SpellsList nodes.old list header.old (list_under nodes.old header.old) }
    requires free { times node (list_under nodes.old header.old) ≡ 0 }
    ensures spelled { SpellsList nodes.new list header.new (node ∷ list_under nodes.old header.old) }
    ensures others { KeepsOthers nodes.old nodes.new list node }
{
    let front = header.head;
    nodes[node as usize] = Node {
        forward: front,
        back: NONE,
        list,
    };
    header.head = node;
    link_back(nodes, header, front, node);
    header.size += 1;
}
