// Labels at one boundary: which label has it, and what its rule makes of the count that is kept of it: its changes, where one of another kind than the
// label asks for counts two (`Marks` in `model/specs`).
#![tactic(auto)]

ghost use Rattle.std.specs.Prelude.{◌≡◌, suc, ◌-◌, ◌+◌, ◌≤◌, ◌<◌, eqb};
ghost use Rattle.model.specs.Model.{change_of, need, asked_of, within};
ghost use Rattle.model.specs.Marks.{mark_of};
ghost use Rattle.model.specs.Checked.{Checked};
ghost use Rattle.model.specs.Labels.{label_on, used, used_at, counts, count_after, count_before, label_test};
ghost use Rattle.coded.specs.Coded.{Coded};
ghost use Rattle.labels.specs.Boundary.{label_of, leads_from};

use plan::{Edge, Kind, Label, Plan};

// The boundary after t readings, and the label that has it.
#[derive(Clone, Copy)]
pub struct Boundary {
    pub t: usize,
    pub label: Option<Label>,
}

// Which list of a layer: that of the ways to a state with a count.
#[derive(Clone, Copy)]
pub struct Key {
    pub count: usize,
    pub state: usize,
}

// Up to this c a label asks for c changes, above it for one change of a kind.
const MOST_CHANGES: u8 = 7;

// The c of one up. The other one is 9, one down.
const ONE_UP: u8 = 8;

// The most counts that are kept apart inside an open label: 0 to 7.
pub const COUNTS: usize = MOST_CHANGES as usize + 1;

// 1 for a change, 0 for a stay.
#[tactic(auto, unfolding(model::specs::Model::change_of))]
pub fn change_of(k: Kind) -> usize
    ensures { result ≡ change_of k }
{
    match k {
        Kind::Stay => 0,
        _ => 1,
    }
}

// 1 for a change of the kind that the label asks for.
#[tactic(auto, unfolding(model::specs::Model::asked_of, model::specs::Model::up_of, model::specs::Model::down_of, model::specs::Model::change_of))]
fn asked_of(l: Label, x: Kind) -> usize
    ensures { result ≡ asked_of l x }
{
    if l.c <= MOST_CHANGES {
        return change_of(x);
    }
    match x {
        Kind::Up(_) => usize::from(l.c == ONE_UP),
        Kind::Down(_) => usize::from(l.c != ONE_UP),
        _ => 0,
    }
}

// What an edge of this kind adds to the count inside the label: a change of another kind than the label asks for counts as two, more than
// such a label allows.
#[tactic(auto, using(model::proofs::Held::change_low), unfolding(model::specs::Marks::mark_of))]
fn mark_of(l: Label, x: Kind) -> usize
    ensures { (result ≡ mark_of l x) × (result ≤ 2) }
{
    let change = change_of(x);
    if asked_of(l, x) == change { change } else { 2 }
}

// The count that the label asks for.
#[tactic(auto, unfolding(model::specs::Model::need))]
fn need_of(l: Label) -> usize
    ensures { (result ≡ need l) × (result < counts) }
{
    if l.c <= MOST_CHANGES { l.c as usize } else { 1 }
}

// Boundaries p to q - 1 have t.
#[tactic(auto, unfolding(model::specs::Model::within))]
fn is_within(l: Label, t: usize) -> bool
    ensures { result ≡ within l.p l.q t }
{
    l.p as usize <= t && t < l.q as usize
}

// The label that has boundary t, looked up in the plan's list of numbers. Labels stand in order, so going down from the last one the first that starts
// at t or before decides: those below it end before it starts. Here and in `counts_at` the plan and its numbers come alone, since the struct that
// keeps them together (`layer::Problem`) has what stands above labels.
#[tactic(auto, unfolding(model::specs::Labels::label_on))]
pub fn label_on(plan: &Plan, code: &[u64], t: usize) -> Option<Label>
    requires { Checked plan.now × Coded plan.now code.now }
    ensures { label_of result ≡ label_on plan.now t }
{
    for i in (0..coded::label_count(code)).rev() {
        let l = coded::label_in(code, i);
        if is_within(l, t) {
            return Some(l);
        }
        if l.p as usize <= t {
            return None;
        }
    }
    None
}

// How many counts are kept apart where this label has the next boundary.
#[tactic(auto, unfolding(model::specs::Labels::used))]
fn used(on: Option<Label>) -> usize
    ensures { result ≡ used (label_of on) }
{
    match on {
        None => 1,
        Some(l) => need_of(l) + 1,
    }
}

// How many counts are kept apart after t readings.
#[tactic(auto, using(crate::proofs::Covering::used_here))]
pub fn counts_at(plan: &Plan, code: &[u64], t: usize) -> usize
    requires { Checked plan.now × Coded plan.now code.now }
    ensures { (result ≡ used_at plan.now t) × (result ≤ counts) }
{
    used(label_on(plan, code, t))
}

// Boundary t is the last that the label has.
fn closes(l: Label, t: usize) -> bool
    requires { t < 65536 }
    ensures { result ≡ eqb (suc t) l.q }
{
    t + 1 == l.q as usize
}

// The count before a boundary, from the count k after it.
#[tactic(auto, unfolding(model::specs::Labels::count_before))]
pub fn count_before(boundary: Boundary, x: Kind, k: usize) -> usize
    requires { (boundary.t < 65536) × (k < 65536) }
    ensures { (result ≡ count_before (label_of boundary.label) boundary.t x k) × (result < 65536) }
{
    match boundary.label {
        None => 0,
        Some(l) => {
            let after = if closes(l, boundary.t) { need_of(l) } else { k };
            after.saturating_sub(mark_of(l, x))
        }
    }
}

// The count after a boundary, from the count k before it.
#[tactic(auto, unfolding(model::specs::Labels::count_after))]
fn count_after(boundary: Boundary, x: Kind, k: usize) -> usize
    requires { (boundary.t < 65536) × (k < 65536) }
    ensures { result ≡ count_after (label_of boundary.label) boundary.t x k }
{
    match boundary.label {
        None => 0,
        Some(l) => {
            if closes(l, boundary.t) {
                0
            } else {
                k + mark_of(l, x)
            }
        }
    }
}

// The label's rule is kept at a boundary, with the count k before it.
#[tactic(auto, unfolding(model::specs::Labels::label_test))]
fn label_test(boundary: Boundary, x: Kind, k: usize) -> bool
    requires { (boundary.t < 65536) × (k < 65536) }
    ensures { result ≡ label_test (label_of boundary.label) boundary.t x k }
{
    match boundary.label {
        None => k == 0,
        Some(l) => {
            let after = k + mark_of(l, x);
            if closes(l, boundary.t) {
                after == need_of(l)
            } else {
                after <= need_of(l)
            }
        }
    }
}

// The edge may lead at a boundary to the list: to its state with its count.
#[tactic(auto, unfolding(crate::specs::Boundary::leads_from))]
pub fn leads(boundary: Boundary, e: Edge, key: Key) -> bool
    requires { (boundary.t < 65536) × (key.count < 65536) }
    ensures { result ≡ leads_from (label_of boundary.label) boundary.t e key.count key.state }
{
    if key.state != e.to as usize {
        return false;
    }
    let x = e.kind;
    let before = count_before(boundary, x, key.count);
    label_test(boundary, x, before) && key.count == count_after(boundary, x, before)
}
