//! What a World tells, printed. The text is no promise: the stored run compares it.

ghost use Rattle.std.specs.Prelude.{◌<◌, length};

use bump_core::{Place, World};
use std::io;

// Prints a list, front first: each item's chunk, references and marks. The class is one of the configuration's.
fn print_list(rt: &impl Print, world: &World, class: u32, place: Place) -> io::Result<()>
    requires { class < length world.now.classes }
{
    let len = world.list_len(class, place);
    print!(rt; "class {class} {place:?} {len}:")?;
    for chunk in world.list(class, place) {
        let head = world.head(chunk);
        let time = world.time(chunk);
        print!(rt;
            " {chunk}(refs {}, active {}, time {time})",
            head.refs, head.active
        )?;
    }
    println!(rt; "")
}

/// Prints the lists of all classes that may have items, and the accounts of all workers.
pub fn print_world(rt: &impl Print, world: &World) -> io::Result<()> {
    for class in 0..world.classes() {
        print_list(rt, world, class, Place::Hot)?;
        print_list(rt, world, class, Place::Warm)?;
        print_list(rt, world, class, Place::Cold)?;
        print_list(rt, world, class, Place::Dying)?;
        print_list(rt, world, class, Place::Unused)?;
    }
    for worker in 0..world.workers() {
        let accounts = world.accounts(worker);
        let applied = world.applied(worker).len();
        println!(rt; "worker {worker}: {accounts:?}, applied {applied}")?;
    }
    Ok(())
}
