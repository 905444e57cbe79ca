//! The slots of an LRU cache over `bump_links`: an example to be copied. It takes all slots, touches one and takes one
//! more, which evicts the slot that was touched longest ago. In this folder `rt try` runs it, and `rt run` proves it
//! first.
#![tactic(auto)]

ghost use Rattle.std.specs.Prelude.{◌≡◌};

pub mod lru;

use anyhow::Result;
use lru::Lru;

fn print_in_use(rt: &(impl Print + AllocGlobal), lru: &Lru) -> Result<()> {
    let slots = lru.in_use(rt.alloc())?;
    println!(rt; "in use: {slots:?}")?;
    Ok(())
}

// Takes all three slots, touches one, and takes one more.
fn play(rt: &(impl Print + AllocGlobal), lru: &mut Lru) -> Result<()>
    requires { lru.old.count ≡ 3 }
{
    for _ in 0..3 {
        let taken = lru.insert();
        println!(rt; "insert: {taken:?}")?;
    }
    print_in_use(rt, lru)?;
    lru.touch(0);
    println!(rt; "touch 0")?;
    print_in_use(rt, lru)?;
    let taken = lru.insert();
    println!(rt; "insert: {taken:?}")?;
    print_in_use(rt, lru)
}

fn run(rt: &(impl Print + AllocGlobal)) -> Result<()> {
    let mut lru = Lru::new(rt.alloc(), 3)?;
    play(rt, &mut lru)
}

fn main(rt: HostRuntime) -> Result<()> {
    run(&rt)
}
