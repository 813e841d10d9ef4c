// The levels that a list has.
ghost use Rattle.std.specs.Prelude.{◌+◌, ◌≤◌};

// How many levels there are, and the place of the lowest: each has a place.
#[derive(Clone, Copy, PartialEq, Eq)]
pub struct Grid {
    pub levels: u64,
    pub base: u64,
    pub ghost within: { base + levels ≤ 262144 },
}
