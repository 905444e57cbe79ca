//! A store of which no chunk had a life.
ghost use Rattle.std.specs.Prelude.{◌≡◌, ◌<◌, None, IfSome};
ghost use Rattle.bump_heads.specs.Rule.{chunks as all_chunks};
ghost use Rattle.head_tests.specs.Stores.{HasSmallClass};

use super::expecting::{expect, expect_seen};
use super::stores::{Small, head, life_of, open, refusal};
use super::*;
use bump_heads::{ClassConfig, Config, Segment};
use std::alloc::{AllocError, Global};
use std::marker::Brand;
use std::process::Abort;
use std::test::Fail;

// What is seen of the chunks, which have this generation, and that the first one has no item of it, nor of the next.
fn look_at<N: Name>(rt: &impl Abort, heads: &Heads<N>, worker: &mut WorkerSeat<N>, generation: u32)
    requires chunks { all_chunks heads.now ≡ 2 }
    requires alone { worker.old.hold ≡ None }
    requires later { generation < 4294967295 }
{
    let never = head(0, "", Segment::Hot, generation);
    expect_seen(rt, heads, 0, (never, 0));
    expect_seen(rt, heads, 1, (never, 0));
    let stale = Some(TakeRefusal::Stale);
    let why = refusal(heads, worker, life_of(0, generation));
    expect(rt, "this life", &why, &stale);
    let why = refusal(heads, worker, life_of(0, generation + 1));
    expect(rt, "the next life", &why, &stale);
    let told = (heads.chunks(), heads.refs_limit());
    expect(rt, "the sizes", &told, &(2, 4));
    expect(rt, "the worker", &worker.worker(), &0);
    worker.promise();
}

fn run_in<N: Name>(
    rt: &impl Abort,
    alloc: Global,
    blank: Blank,
    config: &Config,
) -> Result<(), AllocError>
    requires name { blank.table ≡ N.table }
    requires config { blank.config ≡ config.now }
    requires small { HasSmallClass config.now }
    requires first { 0 < config.now.first_generation }
{
    let Small {
        heads,
        class,
        mut worker,
        lane,
    } = open::<N>(alloc, blank, config)?;
    look_at(rt, &heads, &mut worker, config.first_generation - 1);
    expect(rt, "the class", &class.class(), &0);
    expect(rt, "its lane", &lane.worker(), &0);
    Ok(())
}

// One worker, and one class of two chunks. None where memory is refused.
fn config_from(alloc: Global, first_generation: u32) -> Option<Config>
    requires { 0 < first_generation }
    ensures small { IfSome result HasSmallClass }
    ensures first { IfSome result (λ c. 0 < c.first_generation) }
{
    let class = ClassConfig {
        chunks: 2,
        hot: 1,
        warm: 1,
    };
    Config::new(1, 4, 4, first_generation, vec![in alloc; class].ok()?).ok()
}

#[test]
fn a_fresh_store_has_no_life(rt: HostRuntime) -> Result<(), Fail> {
    let alloc = rt.alloc();
    for first_generation in [1, 7] {
        let config = config_from(alloc, first_generation).ok_or("no memory")?;
        let blank = Blank::new(alloc, &config)?;
        run_in::<Brand>(&rt, alloc, blank, &config)?;
    }
    Ok(())
}
