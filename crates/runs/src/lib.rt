// The runs of an answer in a list of numbers, five a run: written one after the other, then turned round, since a search finds the last
// run first.
#![tactic(auto)]

ghost use Rattle.std.specs.Prelude.{◌+◌, ◌*◌, ◌≤◌, ◌<◌, length};
ghost use Rattle.runs.specs.Runs.{Put, SwappedRuns, Reversed};

#[derive(Clone, Copy)]
pub struct Run {
    pub first: i32,
    pub last: i32,
    pub state: i32,
    pub level: i32,
    pub edge: i32,
}

// Run m of the list.
pub fn put_run(out: &mut [i32], m: usize, r: Run)
    requires { (m < 65536) × (5 * m + 5 ≤ length out.old) }
    ensures { Put m r out.old out.new }
{
    let at = 5 * m;
    out[at..at + 5].copy_from_slice(&[r.first, r.last, r.state, r.level, r.edge]);
}

// Runs a and b change places.
fn swap_runs(out: &mut [i32], a: usize, b: usize)
    requires { (a < b) × ((b < 65536) × (5 * b + 5 ≤ length out.old)) }
    ensures { SwappedRuns a b out.old out.new }
{
    for f in 0..5 {
        out.swap(5 * a + f, 5 * b + f);
    }
}

// The first m runs, turned round.
pub fn reverse_runs(out: &mut [i32], m: usize)
    requires { (m < 65536) × (5 * m ≤ length out.old) }
    ensures { Reversed m out.old out.new }
{
    for i in 0..m / 2 {
        swap_runs(out, i, m - 1 - i);
    }
}
