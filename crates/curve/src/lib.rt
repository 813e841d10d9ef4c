// Cost functions of the level as lists of pieces in a lent workspace.
//
// A list over L levels starts at a word of the workspace. A piece is four words: the index of its last level, then a, z and c of the
// quadratic in force up to there; its number of changes stands above a, in the same word. Last levels rise, and the piece that ends at L - 1 is the last: no
// header, at most L pieces. "None" is the constant 2^60. Equal neighbours are joined where they can arise (`append`); searches would be many times slower without.
//
// Convention: `f` and `g` are lists that are read, `dst` is where a list is written, `levels` is L and `base` the place of level 0. A list
// that is written has the 4 L words from dst on, and no other word changes (`Kept`). A list that is read shares no word with them
// (`Lent`), so dst is never a source. Only `copy` writes just the words that its source has, so that saved lists can stand end to end.
//
// An inner crate: overlap and ranges are `requires` of its functions. specs/Curve.antt has the laws that give them (`curve_reads`,
// `curve_sized`, ..) and say what each result costs at each level (`curve_least`, `curve_shift`, ..).
#![tactic(auto)]

ghost use Rattle.std.specs.Prelude.{◌≡◌, true, false, ◌⊎◌, ℕ, ◌+◌, ◌*◌, ◌-◌, ◌≤◌, ◌<◌, length, get_or, MatchOption};
ghost use Rattle.quadratic.specs.Quad.{quad, Small, Sized, Fine, raised, pushed, moved, mirrored, better, value, flat, none, up, down, Under, Over, Stays, count_limit, cost_limit};
ghost use Rattle.curve.specs.Lows.{rank_of, LeastIn, TwoLeast, TwoLowered, LessAt, Drops, Prefixed, Lowered, prefix_of, costs, lowest};
ghost use Rattle.curve.specs.Pieces.{end_of, Passed, Yields, none_only, quad_at, Kept, Built, Is, Formed, piece, Stored, Appended, Emits, Made, Apart, Held, Lent, Copyable, Copied, shift_of, mirror_of, constant_but, Turnable};

mod levels;

pub use levels::Grid;
use quadratic::Packed;
pub use quadratic::Rank;

// The piece at a place, without its end.
fn load(ws: &[u64], at: usize) -> Packed
    requires { at + 4 ≤ length ws.now }
    ensures { quad result ≡ quad_at ws.now at }
{
    Packed {
        w: ws[at + 1],
        z: ws[at + 2],
        c: ws[at + 3],
    }
}

// A piece: how many stand before it, its first and its last level, and its quadratic.
#[derive(Clone, Copy)]
struct Piece {
    index: usize,
    from: u64,
    to: u64,
    q: Packed,
}

// How far a walk over the pieces of a list has come: so many are passed, and the next one begins at the level `from`. It borrows no word and so is no
// iterator of the library: the list that is read lies in the slice that is written.
#[derive(Clone, Copy)]
struct Walk {
    list: usize,
    index: usize,
    from: u64,
}

impl Walk {
    fn over(list: usize) -> Walk
        ensures { result ≡ record { list = list; index = 0; from = 0 } }
    {
        Walk {
            list,
            index: 0,
            from: 0,
        }
    }

    // The next piece, if it begins below the level `end`.
    fn next(&mut self, ws: &[u64], end: u64) -> Option<Piece>
        requires { self.old.from < end → (self.old.list + 4 * self.old.index + 4 ≤ length ws.now) × (end_of ws.now self.old.list self.old.index < 262144) }
        ensures { MatchOption result ((end ≤ self.old.from) × (self.new ≡ self.old)) (λ p. Passed ws.now self.old self.new end p) }
    {
        if end <= self.from {
            return None;
        }
        let at = self.list + 4 * self.index;
        let piece = Piece {
            index: self.index,
            from: self.from,
            to: ws[at],
            q: load(ws, at),
        };
        self.index += 1;
        self.from = piece.to + 1;
        Some(piece)
    }
}

// A piece put at a place, with its end.
fn store(ws: &mut [u64], at: usize, end: u64, q: Packed)
    requires { at + 4 ≤ length ws.old }
    ensures { Stored ws.old ws.new at end (quad q) }
{
    ws[at] = end;
    ws[at + 1] = q.w;
    ws[at + 2] = q.z;
    ws[at + 3] = q.c;
}

// One piece more after the n at dst, or the last one longer.
fn append(ws: &mut [u64], dst: usize, n: usize, end: u64, q: Packed) -> usize
    requires { dst + 4 * (n + 1) ≤ length ws.old }
    ensures { Appended ws.old ws.new dst n end (quad q) result }
{
    if 0 < n {
        let back = dst + 4 * (n - 1);
        let last = load(ws, back);
        if last == q {
            ws[back] = end;
            return n;
        }
    }
    let at = dst + 4 * n;
    store(ws, at, end, q);
    n + 1
}

// How far from a to y p stays at most q, which it is at a. Many stretches have one level: no crossing is looked for there. The copies
// keep the callee's two quadratics out of memory where it is not called.
fn reach(p: Packed, q: Packed, a: u64, y: u64, base: u64) -> u64
    requires small { (Small (quad p) × Small (quad q)) × ((a ≤ y) × (base + y < 262144)) }
    requires under { Under (quad p) (quad q) (base + a) }
    ensures { Stays (quad p) (quad q) (base + a) (base + y) (base + result) }
{
    if a == y {
        return y;
    }
    let w = Packed {
        w: p.w,
        z: p.z,
        c: p.c,
    };
    let l = Packed {
        w: q.w,
        z: q.z,
        c: q.c,
    };
    quadratic::crossing(w, l, base + a, base + y) - base
}

// Levels up to an end at which one quadratic is the better one.
#[derive(Clone, Copy)]
struct Stretch {
    winner: Packed,
    end: u64,
}

// The better of p and q at the level a, p where they are equal, and how far to y it stays so. Of equal costs the one with fewer changes is the better: the
// other has to be cheaper by one. Where p is none it is q, and none is frequent: each least so far begins with it.
fn next_stretch(p: Packed, q: Packed, a: u64, y: u64, base: u64) -> Stretch
    requires sized { (Sized (quad p) × Sized (quad q)) × ((a ≤ y) × (base + y < 262144)) }
    requires by_index { (j : ℕ) → a ≤ j → j ≤ y → Yields (base + j) (quad p) (quad q) }
    ensures { ((a ≤ result.end) × (result.end ≤ y)) × ((j : ℕ) → a ≤ j → j ≤ result.end → quad result.winner ≡ better (base + j) (quad p) (quad q)) }
{
    if p.c == quadratic::NONE {
        return Stretch { winner: q, end: y };
    }
    let more = quadratic::more_changes(p.w / quadratic::CHANGE, q.w / quadratic::CHANGE);
    let p1 = Packed { c: p.c + more, ..p };
    if quadratic::under(p1, q, base + a) {
        let s = reach(p1, q, a, y, base);
        return Stretch { winner: p, end: s };
    }
    let q1 = Packed {
        c: q.c + 1 - more,
        ..q
    };
    let t = reach(q1, p, a, y, base);
    Stretch { winner: q, end: t }
}

// The piece after the ith, where that ends at y.
fn next(i: usize, e: u64, y: u64) -> usize
    requires { i < 1099511627776 }
    ensures { ((e ≡ y) × (result ≡ i + 1)) ⊎ ((e ≡ y → ⊥) × (result ≡ i)) }
{
    if e == y { i + 1 } else { i }
}

// dst: at each level the less of f's and of g's with pen and ch changes added. A turn for each stretch, which mostly is all of the levels that two pieces
// share: a loop inside, over the stretches of two pieces, would take longer to begin than its one turn.
pub fn least_of_two(ws: &mut [u64], f: usize, g: usize, pen: u64, ch: u64, dst: usize, grid: Grid)
    requires lent { Lent ws.old f dst (4 * grid.levels) grid.levels × (Lent ws.old g dst (4 * grid.levels) grid.levels × (dst + 4 * grid.levels ≤ length ws.old)) }
    requires pen_bound { (pen ≤ 1152921504606846976) × (ch ≤ count_limit) }
    requires by_index { (j : ℕ) → j < grid.levels → Sized (piece ws.old f grid.levels j) }
    requires by_index_2 { (j : ℕ) → j < grid.levels → Sized (raised pen ch (piece ws.old g grid.levels j)) }
    requires by_index_3 { (j : ℕ) → j < grid.levels → Yields (grid.base + j) (piece ws.old f grid.levels j) (raised pen ch (piece ws.old g grid.levels j)) }
    ensures { Made (λ (j : ℕ). better (grid.base + j) (piece ws.old f grid.levels j) (raised pen ch (piece ws.old g grid.levels j))) ws.old ws.new dst grid.levels }
{
    let mut i: usize = 0;
    let mut k: usize = 0;
    let mut n: usize = 0;
    let mut x: u64 = 0;
    // A turn goes on to the end of a stretch, in one list or in both, so neither is counted through.
    while x < grid.levels {
        let at = f + 4 * i;
        let to = g + 4 * k;
        let e = ws[at];
        let h = ws[to];
        let p = load(ws, at);
        let l = load(ws, to);
        let q = quadratic::raise(l, pen, ch);
        let y = e.min(h);
        let r = next_stretch(p, q, x, y, grid.base);
        n = append(ws, dst, n, r.end, r.winner);
        i = next(i, e, r.end);
        k = next(k, h, r.end);
        x = r.end + 1;
    }
}

// dst: f with w times the square (u - v)² more at each level. Neighbours of f that differ still do, so that none are compared.
pub fn add_loss(ws: &mut [u64], f: usize, u: u64, w: u64, dst: usize, grid: Grid)
    requires lent { Lent ws.old f dst (4 * grid.levels) grid.levels × (dst + 4 * grid.levels ≤ length ws.old) }
    requires u_bound { (u < 262144) × (w < 256) }
    requires by_index { (j : ℕ) → j < grid.levels → Sized (piece ws.old f grid.levels j) }
    ensures { Made (λ (j : ℕ). pushed w u (piece ws.old f grid.levels j)) ws.old ws.new dst grid.levels }
{
    let mut pieces = Walk::over(f);
    while let Some(piece) = pieces.next(ws, grid.levels) {
        let q = quadratic::add_square(piece.q, u, w);
        store(ws, dst + 4 * piece.index, piece.to, q);
    }
}

// One rank at the levels from x up to y, y not among them.
fn constant_to(ws: &mut [u64], dst: usize, n: usize, x: u64, y: u64, rank: Rank) -> usize
    requires { ((n ≤ x) × (x ≤ y)) × ((dst + 4 * y ≤ length ws.old) × (rank.changes ≤ count_limit)) }
    ensures { Emits (λ (j : ℕ). flat rank.value rank.changes) ws.old ws.new dst n x y result }
{
    if x < y {
        let q = Packed {
            w: quadratic::CHANGE * rank.changes,
            z: 0,
            c: rank.value,
        };
        append(ws, dst, n, y - 1, q)
    } else {
        n
    }
}

// dst: at each level f's of gap levels below; none where there is no such level.
pub fn shift(ws: &mut [u64], f: usize, gap: u64, dst: usize, grid: Grid)
    requires lent { Lent ws.old f dst (4 * grid.levels) grid.levels × (dst + 4 * grid.levels ≤ length ws.old) }
    requires gap_bound { gap < 1024 }
    requires by_index { (j : ℕ) → j < grid.levels → Sized (piece ws.old f grid.levels j) }
    ensures { Made (shift_of gap (piece ws.old f grid.levels)) ws.old ws.new dst grid.levels }
{
    if grid.levels <= gap {
        constant_to(ws, dst, 0, 0, grid.levels, Rank::NONE);
        return;
    }
    let mut n = constant_to(ws, dst, 0, 0, gap, Rank::NONE);
    let mut pieces = Walk::over(f);
    while let Some(piece) = pieces.next(ws, grid.levels - gap) {
        let q = quadratic::shift(piece.q, gap);
        let y = piece.to.min(grid.levels - 1 - gap);
        n = append(ws, dst, n, y + gap, q);
    }
}

// How many pieces there are. Here, in `copy` and in `all_none` the levels are given alone, since a list's words say nothing of a base.
pub fn count(ws: &[u64], f: usize, levels: u64) -> usize
    requires { Held ws.now f levels × (levels ≤ 262144) }
    ensures { Built (Is (piece ws.now f levels)) ws.now f result levels }
{
    let mut pieces = Walk::over(f);
    let mut n: usize = 0;
    while let Some(_) = pieces.next(ws, levels) {
        n += 1;
    }
    n
}

// dst: f from its last level to its first, its pieces read in their order and written from the last place to the first. Neighbours of f that
// differ still do, so that none are compared.
pub fn mirror(ws: &mut [u64], f: usize, dst: usize, grid: Grid)
    requires lent { Lent ws.old f dst (4 * grid.levels) grid.levels × (dst + 4 * grid.levels ≤ length ws.old) }
    requires le_base { 131072 ≤ grid.base }
    requires by_index { (j : ℕ) → j < grid.levels → Turnable (2 * grid.base + (grid.levels - 1)) (piece ws.old f grid.levels j) }
    ensures { Made (mirror_of (2 * grid.base + (grid.levels - 1)) grid.levels (piece ws.old f grid.levels)) ws.old ws.new dst grid.levels }
{
    let n = count(ws, f, grid.levels);
    let mut pieces = Walk::over(f);
    while let Some(piece) = pieces.next(ws, grid.levels) {
        let q = quadratic::mirror(piece.q, 2 * grid.base + (grid.levels - 1));
        store(
            ws,
            dst + 4 * (n - 1 - piece.index),
            grid.levels - 1 - piece.from,
            q,
        );
    }
}

// A cost with its changes, and a level that has it.
#[derive(Clone, Copy, PartialEq, Eq)]
pub struct Low {
    pub rank: Rank,
    pub level: u64,
}

impl Low {
    // What is not there, at the lowest level.
    pub const NONE: Low = Low {
        rank: Rank::NONE,
        level: 0,
    };

    // Where there is no level: more than none.
    pub const NOWHERE: Low = Low {
        rank: Rank {
            value: quadratic::NONE + 1,
            changes: 0,
        },
        level: 0,
    };
}

// How many pieces there are, and the least so far.
#[derive(Clone, Copy)]
struct Run {
    n: usize,
    best: Rank,
}

// The first level of [a, v] at which p costs less than best. It is so at v, and p falls up to there. Many pieces have one level: nothing is looked for there.
fn first_below(p: Packed, best: u64, a: u64, v: u64, base: u64) -> u64
    requires small { (Small (quad p) × (best ≤ 1152921504606846978)) × ((a ≤ v) × (base + v < 262144)) }
    requires over { Over (flat best 0) (quad p) (base + v) }
    ensures { Drops (quad p) best a v base result }
{
    if a == v {
        return v;
    }
    let w = Packed {
        w: 0,
        z: 0,
        c: best,
    };
    if quadratic::under(w, p, base + a) {
        let s = quadratic::crossing(w, p, base + a, base + v) - base;
        s + 1
    } else {
        a
    }
}

// The least so far at the levels from a to e, at which p is in force. It is p's where p costs less than the limit: the best before, with one more where p
// has fewer changes.
fn running_min_on(ws: &mut [u64], dst: usize, run: Run, p: Packed, a: u64, e: u64, base: u64) -> Run
    requires small { Small (quad p) × ((v : ℕ) → base + a ≤ v → v ≤ base + e → down (quad p) v ≤ up (quad p) v) }
    requires n_le_a { ((run.n ≤ a) × (a ≤ e)) × ((base + e < 262144) × ((run.best.value ≤ 1152921504606846977) × (run.best.changes ≤ count_limit))) }
    requires e_in_bounds { dst + 4 * (e + 1) ≤ length ws.old }
    ensures { Prefixed ws.old ws.new dst base a e (quad p) run result }
{
    let n = run.n;
    let best = run.best;
    let v = quadratic::lowest_min(p, base + a, base + e) - base;
    let least = quadratic::eval(p, base + v);
    let limit = best.value + quadratic::more_changes(best.changes, least.changes);
    if limit <= least.value {
        let all = constant_to(ws, dst, n, a, e + 1, best);
        return Run { n: all, best };
    }
    let s = first_below(p, limit, a, v, base);
    let before = constant_to(ws, dst, n, a, s, best);
    let fallen = append(ws, dst, before, v, p);
    let after = constant_to(ws, dst, fallen, v + 1, e + 1, least);
    Run {
        n: after,
        best: least,
    }
}

// dst: at each level the least of f's at that level and at those below.
pub fn running_min(ws: &mut [u64], f: usize, dst: usize, grid: Grid)
    requires lent { Lent ws.old f dst (4 * grid.levels) grid.levels × (dst + 4 * grid.levels ≤ length ws.old) }
    requires by_index { (j : ℕ) → j < grid.levels → Small (piece ws.old f grid.levels j) × (down (piece ws.old f grid.levels j) (grid.base + j) ≤ up (piece ws.old f grid.levels j) (grid.base + j)) }
    ensures { Made (prefix_of grid.base (piece ws.old f grid.levels)) ws.old ws.new dst grid.levels }
{
    let mut run = Run {
        n: 0,
        best: Low::NOWHERE.rank,
    };
    let mut pieces = Walk::over(f);
    while let Some(piece) = pieces.next(ws, grid.levels) {
        run = running_min_on(ws, dst, run, piece.q, piece.from, piece.to, grid.base);
    }
}

// The less of best and of the least of p on [a, b], which may be empty; best where they are equal.
fn lower(best: Low, p: Packed, a: u64, b: u64, base: u64) -> Low
    requires small { Small (quad p) × ((v : ℕ) → base + a ≤ v → v ≤ base + b → down (quad p) v ≤ up (quad p) v) }
    requires b_bound { (base + b < 262144) × (best.rank.changes ≤ count_limit) }
    ensures { Lowered best (quad p) a b base result }
{
    if b < a {
        return best;
    }
    let v = quadratic::lowest_min(p, base + a, base + b);
    let rank = quadratic::eval(p, v);
    if quadratic::comes_first(rank, best.rank) {
        Low {
            rank,
            level: v - base,
        }
    } else {
        best
    }
}

// The least of f at the levels from .. to, and the lowest level that has it; more than none, at level 0, where there is no such level.
pub fn least_in(ws: &[u64], f: usize, from: u64, to: u64, grid: Grid) -> Low
    requires held { Held ws.now f grid.levels }
    requires to_lt_levels { to < grid.levels }
    requires by_index { (j : ℕ) → j < grid.levels → Fine count_limit cost_limit (piece ws.now f grid.levels j) (grid.base + j) }
    ensures { LeastIn (costs grid.base (piece ws.now f grid.levels)) from to result }
{
    let mut best = Low::NOWHERE;
    let mut pieces = Walk::over(f);
    while let Some(piece) = pieces.next(ws, to + 1) {
        let a = piece.from.max(from);
        let b = piece.to.min(to);
        best = lower(best, piece.q, a, b, grid.base);
    }
    best
}

// The least at the lowest level that has it, and the least at the other levels.
#[derive(Clone, Copy, PartialEq, Eq)]
pub struct Two {
    pub least: Low,
    pub second: Rank,
}

// The less of two, the first where they are equal.
fn lesser_rank(a: Rank, b: Rank) -> Rank
    requires { (a.changes ≤ count_limit) × ((b.changes ≤ count_limit) × (b.value ≤ 4611686018427387904)) }
    ensures { ((rank_of result ≤ rank_of a) × (rank_of result ≤ rank_of b)) × ((result ≡ a) ⊎ (result ≡ b)) }
{
    if quadratic::comes_first(b, a) { b } else { a }
}

// The less of best and of p at v, where v lies in [x, y]; else best.
fn lesser_at(best: Rank, p: Packed, v: u64, x: u64, y: u64) -> Rank
    requires small { Small (quad p) × ((u : ℕ) → x ≤ u → u ≤ y → down (quad p) u ≤ up (quad p) u) }
    requires y_bound { (y < 262144) × (best.changes ≤ count_limit) }
    ensures { LessAt best (quad p) v x y result }
{
    if v < x {
        return best;
    }
    if y < v {
        return best;
    }
    let here = quadratic::eval(p, v);
    lesser_rank(best, here)
}

// The two least of the levels up to e: best is of those below a, and from a on p is in force. p falls to its least and does not fall after it, so
// that its next least value stands beside its least.
fn lower_two(best: Two, p: Packed, a: u64, e: u64, base: u64) -> Two
    requires small { Small (quad p) × ((v : ℕ) → base + a ≤ v → v ≤ base + e → down (quad p) v ≤ up (quad p) v) }
    requires a_le_e { (a ≤ e) × ((0 < base) × ((base + e < 262144) × ((best.least.rank.changes ≤ count_limit) × (best.second.changes ≤ count_limit)))) }
    ensures { TwoLowered best (quad p) a e base result }
{
    let v = quadratic::lowest_min(p, base + a, base + e);
    let here = quadratic::eval(p, v);
    let least = best.least.rank;
    if quadratic::comes_first(here, least) {
        let before = lesser_at(least, p, v - 1, base + a, base + e);
        let second = lesser_at(before, p, v + 1, base + a, base + e);
        return Two {
            least: Low {
                rank: here,
                level: v - base,
            },
            second,
        };
    }
    let second = lesser_rank(best.second, here);
    Two { second, ..best }
}

// The least of f, the lowest level that has it, and the least at the other levels, in one pass; none where there is no other level.
pub fn two_least(ws: &[u64], f: usize, grid: Grid) -> Two
    requires held { Held ws.now f grid.levels × (0 < grid.base) }
    requires by_index { (j : ℕ) → j < grid.levels → Fine count_limit cost_limit (piece ws.now f grid.levels j) (grid.base + j) }
    ensures { TwoLeast (costs grid.base (piece ws.now f grid.levels)) grid.levels result }
{
    let mut best = Two {
        least: Low {
            rank: Rank::NONE,
            level: 0,
        },
        second: Rank::NONE,
    };
    let mut pieces = Walk::over(f);
    while let Some(piece) = pieces.next(ws, grid.levels) {
        best = lower_two(best, piece.q, piece.from, piece.to, grid.base);
    }
    best
}

// dst: one rank at every level.
pub fn constant(ws: &mut [u64], dst: usize, levels: u64, rank: Rank)
    requires { (dst + 4 * levels ≤ length ws.old) × (rank.changes ≤ count_limit) }
    ensures { Made (λ (j : ℕ). flat rank.value rank.changes) ws.old ws.new dst levels }
{
    constant_to(ws, dst, 0, 0, levels, rank);
}

// dst: the least of two at every level but the one that has it, where it is the other.
pub fn constant_but(ws: &mut [u64], dst: usize, levels: u64, two: Two)
    requires { ((dst + 4 * levels ≤ length ws.old) × (two.least.level < levels)) × ((two.least.rank.changes ≤ count_limit) × (two.second.changes ≤ count_limit)) }
    ensures { Made (constant_but two) ws.old ws.new dst levels }
{
    let Low { rank, level } = two.least;
    let below = constant_to(ws, dst, 0, 0, level, rank);
    let here = constant_to(ws, dst, below, level, level + 1, two.second);
    constant_to(ws, dst, here, level + 1, levels, rank);
}

// The words of the list at f put at dst: four for each of the pieces, whose number is returned.
pub fn copy(ws: &mut [u64], f: usize, dst: usize, levels: u64) -> usize
    requires { Copyable ws.old f dst levels × (levels ≤ 262144) }
    ensures { Copied ws.old ws.new f dst levels result }
{
    let n = count(ws, f, levels);
    for i in 0..4 * n {
        ws[dst + i] = ws[f + i];
    }
    n
}

// What f costs at level j, and with how many changes.
pub fn value_at(ws: &[u64], f: usize, j: u64, grid: Grid) -> Rank
    requires held { Held ws.now f grid.levels }
    requires j_lt_levels { j < grid.levels }
    requires by_index { (i : ℕ) → i < grid.levels → Fine count_limit cost_limit (piece ws.now f grid.levels i) (grid.base + i) }
    ensures { (rank_of result ≡ costs grid.base (piece ws.now f grid.levels) j) × (result.changes ≤ count_limit) }
{
    let mut i: usize = 0;
    // A while and not a for: the last piece ends above j, so no end of a range is ever reached.
    while ws[f + 4 * i] < j {
        i += 1;
    }
    let p = load(ws, f + 4 * i);
    quadratic::eval(p, grid.base + j)
}

// Whether f is one piece, none. Since equal neighbours are joined, a list that is none everywhere is; a wrong no would cost time only.
pub fn all_none(ws: &[u64], f: usize, levels: u64) -> bool
    requires { Held ws.now f levels × ((0 < levels) × (levels ≤ 262144)) }
    ensures { result ≡ none_only ws.now f levels }
{
    ws[f] + 1 == levels && ws[f + 3] == quadratic::NONE
}
