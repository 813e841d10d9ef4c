// Whether a list in the workspace is one that the operations take.
ghost use Rattle.std.specs.Prelude.{◌≡◌, ℕ, ◌+◌, ◌*◌, ◌<◌, ◌≤◌, true, length};
ghost use Rattle.quadratic.specs.Quad.{quad, Fine};
ghost use Rattle.curve.specs.Pieces.{Apart};
ghost use Rattle.curve_test.specs.Valid.{Valid, Listed};

use curve::Grid;
use quadratic::Packed;

// Whether q is within the ranges of those that are kept, and of 3 changes more.
fn small(q: Packed) -> bool
    ensures { result ≡ true → ((quad q).a + (quad q).k ≤ 1048573) × ((q.z ≤ 549755813888) × (q.c ≤ 1152921504606846976)) }
{
    let a = q.w % quadratic::CHANGE;
    let k = q.w / quadratic::CHANGE;
    a + k <= 1048573 && q.z <= 549755813888 && q.c <= quadratic::NONE
}

// Whether q may be in force at v.
fn fine_at(q: Packed, v: u64) -> bool
    requires { v < 262144 }
    ensures { result ≡ true → Fine 1048573 9007199254740992 (quad q) v }
{
    if !small(q) {
        return false;
    }
    let a = q.w % quadratic::CHANGE;
    let k = q.w / quadratic::CHANGE;
    let z = q.z;
    let c = q.c;
    if 65535 * a < z.abs_diff(a * v) {
        return false;
    }
    let rise = a * (v * v) + c;
    let fall = 2 * (z * v);
    if rise < fall {
        return false;
    }
    if a == 0 && c == quadratic::NONE {
        return k == 0;
    }
    rise < fall + 9007199254740992
}

// Whether it may be at the levels from x to e.
fn fine_on(q: Packed, x: u64, e: u64, base: u64) -> bool
    requires { base + e < 262144 }
    ensures { result ≡ true → (j : ℕ) → x ≤ j → j ≤ e → Fine 1048573 9007199254740992 (quad q) (base + j) }
{
    for j in x..e + 1 {
        if !fine_at(q, base + j) {
            return false;
        }
    }
    true
}

// Whether there is a list at o.
fn scan(ws: &[u64], o: usize, grid: Grid) -> bool
    requires { o + 4 * grid.levels ≤ length ws.now }
    ensures { result ≡ true → Listed ws.now o grid.levels grid.base }
{
    let mut n: usize = 0;
    let mut x: u64 = 0;
    // A turn goes on to the end of a piece.
    while x < grid.levels {
        let at = o + 4 * n;
        let e = ws[at];
        if e < x || grid.levels <= e {
            return false;
        }
        let q = Packed {
            w: ws[at + 1],
            z: ws[at + 2],
            c: ws[at + 3],
        };
        if !fine_on(q, x, e, grid.base) {
            return false;
        }
        n += 1;
        x = e + 1;
    }
    true
}

// Whether the list at o is there, with room for a full one, on a grid within the signed 16-bit levels.
pub fn valid(ws: &[u64], o: usize, grid: Grid) -> bool
    ensures { result ≡ true → Valid ws.now o grid.levels grid.base }
{
    0 < grid.levels
        && 131072 <= grid.base
        && grid.base + grid.levels <= 196608
        && room(ws, o, grid.levels)
        && scan(ws, o, grid)
}

// Whether full lists at o and p share no word.
pub fn apart(o: usize, p: usize, levels: u64) -> bool
    ensures { result ≡ true → Apart o p (4 * levels) }
{
    if 1048576 < o || 1048576 < p || 1024 < levels {
        return false;
    }
    let words = 4 * levels as usize;
    o + words <= p || p + words <= o
}

// Whether there is room for a full list of at most 1024 levels at o.
pub fn room(ws: &[u64], o: usize, levels: u64) -> bool
    ensures { result ≡ true → (levels ≤ 1024) × (o + 4 * levels ≤ length ws.now) }
{
    o <= 1048576 && levels <= 1024 && o + 4 * (levels as usize) <= ws.len()
}
