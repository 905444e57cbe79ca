//! Whoever changes a cache.
ghost use Rattle.std.specs.Prelude.{◌≡◌, ◌<◌};

use crate::states::CacheState;
use bump_heads::Name;
use call_log::{Caller, LogName};

/// A caller that has a part, as who changes a cache needs one: the type says so. So a function that takes a `Changer`
/// states no `requires { 0 < me.parts }`, and a loop that passes one on to it needs no invariant. A call takes its
/// field: `cache.put(rt, &mut changer.me, ..)`.
#[derive(Drop)]
pub struct Changer<N: Name + LogName> {
    /// The caller.
    pub me: Caller<N, CacheState>,
    ghost part: { 0 < me.parts },
}

impl<N: Name + LogName> Changer<N> {
    /// Takes a caller that has a part: that of `open` has some, as has each of `Caller::another`.
    pub fn new(me: Caller<N, CacheState>) -> Changer<N>
        requires part { 0 < me.parts }
        ensures me { result.me ≡ me }
    {
        Changer { me }
    }
}
