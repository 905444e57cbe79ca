//! How a trace is to be run.
ghost use Rattle.std.specs.Prelude.{◌≤◌};

/// How a trace is run.
#[derive(Clone, Copy, Debug, PartialEq, Eq)]
pub enum Mode {
    /// On a World.
    Model,

    /// On a store, by one thread.
    Serial,

    /// On a store, the lines behind `par` by a thread for each worker and for each drainer.
    Par,
}

/// A run that the words ask for.
#[derive(Clone, Copy)]
pub struct Run<'a> {
    /// How the trace is run.
    pub mode: Mode,

    /// The name of its file.
    pub file: &'a str,

    /// How many drainers there are, 1 to 64. 1 where the trace is run without threads.
    pub drainers: u32,

    ghost range: { (1 ≤ drainers) × (drainers ≤ 64) },
}
