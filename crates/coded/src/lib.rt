// The edges and labels of a plan as numbers in a list, one number each, and how many there are. What a search looks up at every reading stands in
// such a list. A step could as well read the plan that it is lent; the list stays because the edits in must-fail speak of its numbers.
#![tactic(auto)]

ghost use Rattle.std.specs.Prelude.{◌≡◌, ◌+◌, ◌<◌, length, get_or};
ghost use Rattle.coded.specs.Coded.{kind_with, edge_in, label_in, edge_number, label_number, EdgesFrom, LabelsFrom, Numbered, Written};

use plan::{Edge, Kind, Label, Plan};

// The numbers of a list: 32 edges, then 64 labels, then the two counts.
const COUNTS_AT: usize = Plan::MAX_EDGES + Plan::MAX_LABELS;

pub const SIZE: usize = COUNTS_AT + 2;

// The kind with this number, at this gap. A number that no kind has stands in no list that `code_of` made; it is read as stay.
fn kind_with(number: u8, gap: u16) -> Kind
    ensures { result ≡ kind_with number gap }
{
    match number {
        0 => Kind::Stay,
        1 => Kind::Any,
        2 => Kind::Up(gap),
        3 => Kind::Down(gap),
        4 => Kind::Abs(gap),
        5..=255 => Kind::Stay,
    }
}

// Edge i.
pub fn edge_in(code: &[u64], i: usize) -> Edge
    requires { i < length code.now }
    ensures { result ≡ edge_in (get_or code.now i 0) }
{
    let w = code[i];
    let gap = (w / 4294967296 % 65536) as u16;
    let number = (w / 16777216 % 256) as u8;
    let kind = kind_with(number, gap);
    Edge {
        from: (w % 256) as u8,
        to: (w / 256 % 256) as u8,
        kind,
        class: (w / 65536 % 256) as u8,
    }
}

// Label i.
pub fn label_in(code: &[u64], i: usize) -> Label
    requires { 32 + i < length code.now }
    ensures { result ≡ label_in (get_or code.now (32 + i) 0) }
{
    let w = code[Plan::MAX_EDGES + i];
    Label {
        p: (w % 65536) as u16,
        q: (w / 65536 % 65536) as u16,
        c: (w / 4294967296 % 256) as u8,
    }
}

// How many edges the plan has.
pub fn edge_count(code: &[u64]) -> usize
    requires { 96 < length code.now }
    ensures { result ≡ get_or code.now 96 0 }
{
    code[COUNTS_AT] as usize
}

// How many labels it has.
pub fn label_count(code: &[u64]) -> usize
    requires { 97 < length code.now }
    ensures { result ≡ get_or code.now 97 0 }
{
    code[COUNTS_AT + 1] as usize
}

// The number of an edge: from, to, class and kind with 8 bits each, lowest first, and the gap above them.
fn edge_number(e: Edge) -> u64
    ensures { (result ≡ edge_number e) × (edge_in result ≡ e) }
{
    let kind = e.kind;
    let number = plan::kind_number(kind) as u64;
    let gap = plan::gap_of(kind) as u64;
    let ends = (e.from as u64) + 256 * (e.to as u64);
    ends + 65536 * (e.class as u64) + 16777216 * number + 4294967296 * gap
}

// The number of a label: p and q with 16 bits each, lowest first, and c above them.
fn label_number(l: Label) -> u64
    ensures { (result ≡ label_number l) × (label_in result ≡ l) }
{
    (l.p as u64) + 65536 * (l.q as u64) + 4294967296 * (l.c as u64)
}

// Plan and list come apart here: only what `code_of` makes of them is a plan's list.
fn put_edges(plan: Plan, code: &mut [u64])
    requires { length code.old ≡ 98 }
    ensures { EdgesFrom plan 32 code.new × Numbered plan 32 0 code.new }
{
    for i in 0..Plan::MAX_EDGES {
        code[i] = edge_number(plan.edges[i]);
    }
}

fn put_labels(plan: Plan, code: &mut [u64])
    requires { EdgesFrom plan 32 code.old × Numbered plan 32 0 code.old }
    ensures { LabelsFrom plan 64 code.new × Numbered plan 32 64 code.new }
{
    for i in 0..Plan::MAX_LABELS {
        code[Plan::MAX_EDGES + i] = label_number(plan.labels[i]);
    }
}

fn put_counts(plan: Plan, code: &mut [u64])
    requires { LabelsFrom plan 64 code.old × Numbered plan 32 64 code.old }
    ensures { Written plan code.new }
{
    code[COUNTS_AT] = plan.edgecount as u64;
    code[COUNTS_AT + 1] = plan.labelcount as u64;
}

// The edges and labels of a plan as a list of numbers.
pub fn code_of(plan: Plan) -> [u64; SIZE]
    ensures { Written plan result }
{
    let mut code = [0; SIZE];
    put_edges(plan, &mut code);
    put_labels(plan, &mut code);
    put_counts(plan, &mut code);
    code
}
