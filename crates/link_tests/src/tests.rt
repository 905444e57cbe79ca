//! Worked moves with exact answers, many moves beside a plain list of lists, and refused allocations.

ghost use Rattle.std.specs.Prelude.{◌≡◌, ◌<◌, IfOk, length};

use bump_links::Links;
use std::alloc::Global;
use std::fmt::Debug;
use std::process::Abort;
use std::test::Fail;

// What was told of a list or of a node, by its number, is what was wanted. The comparison is proved here, once.
fn expect<T: PartialEq + Debug>(rt: &impl Abort, what: &str, number: u32, told: &T, wanted: &T) {
    assert_eq!(rt; told, wanted, "{what} {number}");
}

// The ends of a list and its count are these.
fn expect_ends(rt: &impl Abort, links: &Links, list: u32, ends: [Option<u32>; 2], count: usize)
    requires { list < length links.now.lists }
{
    expect(rt, "the front of list", list, &links.front(list), &ends[0]);
    expect(rt, "the back of list", list, &links.back(list), &ends[1]);
    expect(
        rt,
        "the count of list",
        list,
        &(links.len(list) as usize),
        &count,
    );
}

// A node's list, and the node behind it, are these.
fn expect_node(rt: &impl Abort, links: &Links, node: u32, list: u32, after: Option<u32>)
    requires { node < links.now.nodes }
{
    expect(rt, "the list of node", node, &links.list_of(node), &list);
    expect(rt, "after node", node, &links.after(node), &after);
}

// A walk of a list finds these nodes, and its ends and its count are theirs.
fn expect_list(
    rt: &impl Abort,
    alloc: Global,
    links: &Links,
    list: u32,
    wanted: &[u32],
) -> Result<(), Fail>
    requires { list < length links.now.lists }
{
    let found = links.walk(alloc, list)?;
    expect(rt, "the walk of list", list, &found.as_slice(), &wanted);
    let ends = [wanted.first().copied(), wanted.last().copied()];
    expect_ends(rt, links, list, ends, wanted.len());
    Ok(())
}

// Whether the list that holds a node has others too, or `None` where there is no such node: a function that knows
// nothing of its arguments, and asks.
fn has_company(links: &Links, node: u32) -> Option<bool> {
    if node >= links.nodes() {
        return None;
    }
    let list = links.list_of(node);
    Some(list < links.lists() && links.len(list) > 1)
}

// The front of a list, or `None` where there is none, or no such list.
fn front_if_list(links: &Links, list: u32) -> Option<u32> {
    if list < links.lists() {
        links.front(list)
    } else {
        None
    }
}

// Which nodes have company in their lists.
fn expect_company(rt: &impl Abort, links: &Links) {
    let company = [(0, Some(true)), (1, Some(false)), (3, None)];
    for (node, wanted) in company.iter() {
        let told = has_company(links, *node);
        expect(rt, "the company of node", *node, &told, wanted);
    }
}

// The front of a list, and of one that isn't there.
fn expect_fronts(rt: &impl Abort, links: &Links) {
    for (list, wanted) in [(1, Some(1)), (2, None)].iter() {
        let told = front_if_list(links, *list);
        expect(rt, "the front of list", *list, &told, wanted);
    }
}

#[test]
fn counts_are_told(rt: HostRuntime) -> Result<(), Fail> {
    let mut links = Links::new(rt.alloc(), 3, 2, 0)?;
    links.move_front(1, 1);
    expect(&rt, "how many nodes", 3, &links.nodes(), &3);
    expect(&rt, "how many lists", 2, &links.lists(), &2);
    expect_company(&rt, &links);
    expect_fronts(&rt, &links);
    Ok(())
}

// Three nodes are told where they are, and moved.
fn move_three(rt: &impl Abort, alloc: Global, links: &mut Links) -> Result<(), Fail>
    requires nodes { links.old.nodes ≡ 3 }
    requires lists { length links.old.lists ≡ 2 }
{
    expect_list(rt, alloc, links, 0, &[0, 1, 2])?;

    links.move_front(1, 1);
    expect_list(rt, alloc, links, 0, &[0, 2])?;
    expect_list(rt, alloc, links, 1, &[1])?;

    links.move_front(2, 0);
    expect_list(rt, alloc, links, 0, &[2, 0])?;
    expect_node(rt, links, 0, 0, None);
    Ok(())
}

#[test]
fn three_nodes_in_two_lists(rt: HostRuntime) -> Result<(), Fail> {
    let alloc = rt.alloc();
    let mut links = Links::new(alloc, 3, 2, 0)?;
    move_three(&rt, alloc, &mut links)
}

// Walks of the last one of eight lists, and of the first.
fn expect_last_and_first(
    rt: &impl Abort,
    alloc: Global,
    links: &Links,
    last: &[u32],
    first: &[u32],
) -> Result<(), Fail>
    requires { length links.now.lists ≡ 8 }
{
    expect_list(rt, alloc, links, 7, last)?;
    expect_list(rt, alloc, links, 0, first)
}

// The only node goes to the front of its own list, and then to another list.
fn move_one(rt: &impl Abort, alloc: Global, links: &mut Links) -> Result<(), Fail>
    requires nodes { links.old.nodes ≡ 1 }
    requires lists { length links.old.lists ≡ 8 }
{
    expect_last_and_first(rt, alloc, links, &[0], &[])?;

    links.move_front(0, 7);
    expect_last_and_first(rt, alloc, links, &[0], &[])?;

    links.move_front(0, 0);
    expect_last_and_first(rt, alloc, links, &[], &[0])?;
    expect_node(rt, links, 0, 0, None);
    Ok(())
}

#[test]
fn one_node_in_eight_lists(rt: HostRuntime) -> Result<(), Fail> {
    let alloc = rt.alloc();
    let mut links = Links::new(alloc, 1, 8, 7)?;
    move_one(&rt, alloc, &mut links)
}

// Moves a node to the front of a list of plain lists.
fn move_plain(alloc: Global, plain: &mut Vec<Vec<u32>>, node: u32, list: u32) -> Result<(), Fail> {
    for (number, nodes) in plain.iter_mut().enumerate() {
        let mut moved = Vec::new(alloc);
        if number == list as usize {
            moved.push(node)?;
        }
        for other in nodes.iter() {
            if *other != node {
                moved.push(*other)?;
            }
        }
        *nodes = moved;
    }
    Ok(())
}

// The nodes of a plain list stand in the list of that number, one behind the other.
fn expect_nodes(rt: &impl Abort, links: &Links, list: u32, nodes: &[u32])
    requires { links.now.nodes ≡ 5 }
{
    for (place, node) in nodes.iter().enumerate() {
        assert!(rt; *node < 5 && place < 5);
        expect_node(rt, links, *node, list, nodes.get(place + 1).copied());
    }
}

// Each reader answers what the plain lists say.
fn expect_plain(
    rt: &impl Abort,
    alloc: Global,
    links: &Links,
    plain: &[Vec<u32>],
) -> Result<(), Fail>
    requires nodes { links.now.nodes ≡ 5 }
    requires lists { length links.now.lists ≡ 8 }
{
    assert!(rt; plain.len() == 8);
    for (list, nodes) in plain.iter().enumerate() {
        assert!(rt; list < 8);
        expect_list(rt, alloc, links, list as u32, nodes)?;
        expect_nodes(rt, links, list as u32, nodes);
    }
    Ok(())
}

// Eight plain lists, of which the fourth has all nodes.
fn new_plain(alloc: Global) -> Result<Vec<Vec<u32>>, Fail> {
    let mut plain = Vec::new(alloc);
    for list in 0..8 {
        let nodes = if list == 3 {
            vec![in alloc; 0, 1, 2, 3, 4]?
        } else {
            Vec::new(alloc)
        };
        plain.push(nodes)?;
    }
    Ok(plain)
}

// Moves nodes that are drawn to lists that are drawn, in both.
fn move_both(
    rt: &impl Abort,
    alloc: Global,
    links: &mut Links,
    plain: &mut Vec<Vec<u32>>,
) -> Result<(), Fail>
    requires nodes { links.old.nodes ≡ 5 }
    requires lists { length links.old.lists ≡ 8 }
{
    let mut draw: u32 = 12345;
    for _move in 0..400 {
        draw = draw.wrapping_mul(1_664_525).wrapping_add(1_013_904_223);
        let node = (draw >> 16) % 5;
        let list = (draw >> 24) % 8;
        links.move_front(node, list);
        move_plain(alloc, plain, node, list)?;
        expect_plain(rt, alloc, links, plain)?;
    }
    Ok(())
}

#[test]
fn many_moves_beside_plain_lists(rt: HostRuntime) -> Result<(), Fail> {
    let alloc = rt.alloc();
    let mut links = Links::new(alloc, 5, 8, 3)?;
    let mut plain = new_plain(alloc)?;
    expect_plain(&rt, alloc, &links, &plain)?;
    move_both(&rt, alloc, &mut links, &mut plain)
}

// Says which call was refused. `checks/refused_allocations` looks for these words, and counts them by call.
fn tell_refused(rt: &impl Eprint, call: &str) -> Result<(), Fail> {
    eprintln!(rt; "an allocation was refused: {call}")?;
    Ok(())
}

// All readers but the walk tell of four nodes, of which the third is alone in the first list.
fn expect_third_alone(rt: &impl Abort, links: &Links)
    requires nodes { links.now.nodes ≡ 4 }
    requires lists { length links.now.lists ≡ 2 }
{
    expect(rt, "how many nodes", 4, &links.nodes(), &4);
    expect(rt, "how many lists", 2, &links.lists(), &2);
    expect_ends(rt, links, 0, [Some(2), Some(2)], 1);
    expect_ends(rt, links, 1, [Some(0), Some(3)], 3);
    expect_node(rt, links, 0, 1, Some(1));
    expect_node(rt, links, 1, 1, Some(3));
    expect_node(rt, links, 2, 0, None);
    expect_node(rt, links, 3, 1, None);
}

// Four nodes in the second of two lists. Where they are refused, they are asked for again.
fn made_again(rt: &impl Eprint, alloc: Global) -> Result<Links, Fail>
    ensures { IfOk result (λ links. (links.nodes ≡ 4) × (length links.lists ≡ 2)) }
{
    match Links::new(alloc, 4, 2, 1) {
        Ok(links) => Ok(links),
        Err(_) => {
            tell_refused(rt, "Links::new")?;
            Ok(Links::new(alloc, 4, 2, 1)?)
        }
    }
}

// A walk of the second list. One that is refused changes nothing, and is made again.
fn walk_again(rt: &(impl Abort + Eprint), alloc: Global, links: &Links) -> Result<(), Fail>
    requires nodes { links.now.nodes ≡ 4 }
    requires lists { length links.now.lists ≡ 2 }
{
    let found = match links.walk(alloc, 1) {
        Ok(found) => found,
        Err(_) => {
            tell_refused(rt, "Links::walk")?;
            expect_third_alone(rt, links);
            links.walk(alloc, 1)?
        }
    };
    let wanted: [u32; 3] = [0, 1, 3];
    expect(
        rt,
        "the walk of list",
        1,
        &found.as_slice(),
        &wanted.as_slice(),
    );
    Ok(())
}

// Holds whichever one allocation is refused: the call may be made again, and the lists are as before.
#[test]
fn a_refused_allocation_changes_nothing(rt: HostRuntime) -> Result<(), Fail> {
    let mut links = made_again(&rt, rt.alloc())?;
    links.move_front(2, 0);
    expect_third_alone(&rt, &links);
    walk_again(&rt, rt.alloc(), &links)?;
    expect_third_alone(&rt, &links);
    walk_again(&rt, rt.alloc(), &links)
}
