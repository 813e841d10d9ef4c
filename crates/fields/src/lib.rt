// The fields of plan files and answer files: a tag, the length of the body in two bytes, the body.
#![tactic(auto)]

ghost use Rattle.std.specs.Prelude.{◌≡◌, ◌+◌, ◌-◌, ◌*◌, ◌≤◌, ◌<◌, length, drop, take, ◌++◌};
ghost use Rattle.integers.specs.Bytes.{word};
ghost use Rattle.fields.specs.Fields.{row, row_of, may_stand, length_fits, count_fits, field_at, field_number, part_of, field_body, put_at, number8};
ghost use Rattle.fields.specs.Told.{field_of, refusal_in, told_number};

use plan::Refusal;

// A row of the table of tags: the stages at which the tag may stand, the stage after it, the length of its body.
#[derive(Clone, Copy)]
pub struct Row {
    pub first: u8,
    pub last: u8,
    pub next: u8,
    pub len: usize,
}

// A field: its tag, where its body starts and how long it is; or the refusal. An enum of its own and not a Result: the readers take a field
// apart by its name in a `let .. else`, and hand the same field on for its body.
#[derive(Clone, Copy)]
pub enum Field {
    Body { tag: u8, start: usize, len: usize },
    Wrong(Refusal),
}

impl Field {
    // Why the field is refused; none where it is not.
    pub fn refusal(self) -> Option<Refusal>
        ensures which { result ≡ refusal_in self }
        ensures number { told_number result ≡ field_number (field_of self) }
    {
        match self {
            Field::Body { .. } => None,
            Field::Wrong(refusal) => Some(refusal),
        }
    }
}

fn row_with(first: u8, last: u8, next: u8, len: usize) -> Row
    ensures { result ≡ row first last next len }
{
    Row {
        first,
        last,
        next,
        len,
    }
}

// The table of tags. A tag that has no row of its own stands nowhere.
#[tactic(auto, unfolding(crate::specs::Fields::row_of))]
pub fn row_of(tag: u8) -> Row
    ensures { result ≡ row_of tag }
{
    match tag {
        0x01 => row_with(0, 0, 1, 4),
        0x02 => row_with(1, 1, 2, 3),
        0x03 => row_with(2, 2, 2, 6),
        0x04 => row_with(2, 3, 3, 5),
        0x05 => row_with(2, 3, 4, 0),
        0x81 => row_with(5, 5, 6, 8),
        0x82 => row_with(6, 6, 6, 8),
        0x83 => row_with(5, 5, 4, 1),
        _ => row_with(1, 0, 4, 0),
    }
}

#[tactic(auto, unfolding(crate::specs::Fields::may_stand))]
fn may_stand(stage: u8, tag: u8) -> bool
    ensures { result ≡ may_stand stage tag }
{
    let row = row_of(tag);
    (row.first..=row.last).contains(&stage)
}

#[tactic(auto, unfolding(crate::specs::Fields::length_fits))]
fn length_fits(tag: u8, len: usize) -> bool
    ensures { result ≡ length_fits tag len }
{
    if tag == 0x05 {
        len % 2 == 0
    } else {
        len == row_of(tag).len
    }
}

#[tactic(auto, unfolding(crate::specs::Fields::count_fits))]
fn count_fits(tag: u8, len: usize) -> bool
    ensures { result ≡ count_fits tag len }
{
    tag != 0x05 || plan::count_ok(len / 2)
}

// The number of two bytes, the high one first, as the readers of files name it.
pub fn word(high: u8, low: u8) -> u16
    ensures { result ≡ word high low }
{
    u16::from_be_bytes([high, low])
}

// The field at a position of a file, at a stage of it.
#[tactic(auto, unfolding(crate::specs::Fields::field_at, crate::specs::Fields::checked_field))]
pub fn read_field(s: &[u8], at: usize, stage: u8) -> Field
    ensures { field_of result ≡ field_at s.now at stage }
{
    let left = s.len().saturating_sub(at);
    if left < 3 {
        return Field::Wrong(Refusal::CutShort);
    }
    let tag = s[at];
    let len = word(s[at + 1], s[at + 2]) as usize;
    if !may_stand(stage, tag) {
        return Field::Wrong(Refusal::TagOutOfPlace);
    }
    if !length_fits(tag, len) {
        return Field::Wrong(Refusal::WrongLength);
    }
    if !count_fits(tag, len) {
        return Field::Wrong(Refusal::BadCount);
    }
    if left - 3 < len {
        return Field::Wrong(Refusal::CutShort);
    }
    Field::Body {
        tag,
        start: at + 3,
        len,
    }
}

// The len bytes from start, as a part of the file; none where they run past its end.
#[tactic(auto, unfolding(crate::specs::Fields::part_of))]
pub fn part(s: &[u8], start: usize, len: usize) -> &[u8]
    ensures { result.now ≡ part_of s.now start len }
{
    if s.len() < start || s.len() - start < len {
        return &[];
    }
    &s[start..start + len]
}

// The body of a field, as a part of the file; none where the field is refused. An enum holds no reference, so the field's answer and its
// body are handed out by two functions.
pub fn field_body(s: &[u8], f: Field) -> &[u8]
    ensures { result.now ≡ field_body s.now (field_of f) }
{
    match f {
        Field::Body { start, len, .. } => part(s, start, len),
        Field::Wrong(_) => &[],
    }
}

// Stores the bytes from a position on; nothing where they run past the end.
#[tactic(auto, unfolding(crate::specs::Fields::put_at))]
pub fn put(out: &mut [u8], at: usize, bytes: &[u8])
    ensures { out.new ≡ put_at out.old at bytes.now }
{
    if out.len() < at || out.len() - at < bytes.len() {
        return;
    }
    out[at..at + bytes.len()].copy_from_slice(bytes);
}

// The number of eight bytes, the highest first; 0 of any other count.
#[tactic(auto, unfolding(crate::specs::Fields::number8))]
pub fn number8(b: &[u8]) -> u64
    ensures { result ≡ number8 b.now }
{
    let Ok(bytes) = <[u8; 8]>::try_from(b) else {
        return 0;
    };
    u64::from_be_bytes(bytes)
}
