//! What a user may set for a run of value iteration.

ghost use Rattle.std.specs.Prelude.{◌≡◌};
ghost use Rattle.spd_model.specs.Options.{default_options};

/// How a run of value iteration goes. A result depends on `turns` and `span` alone.
#[derive(Clone, Copy, PartialEq, Eq, Debug)]
pub struct Options {
    /// How many threads compute a turn: 1 to 64.
    pub workers: u32,
    /// How many nodes the store of a turn or of building may hold: 16 to 8,388,608.
    pub nodes: u32,
    /// The turn at which a run ends at the latest: 0 to 1,000,000.
    pub turns: u32,
    /// The width of the ranges of values that are merged, in units of 10^-9: 0 to 10^30.
    pub span: i128,
    /// How many answers a memo table keeps: 1 to 8,388,608.
    pub memo: u32,
}

impl Default for Options {
    fn default() -> Options
        ensures { result ≡ default_options }
    {
        Options {
            workers: 1,
            nodes: 262_144,
            turns: 10_000,
            span: 0,
            memo: 65_536,
        }
    }
}
