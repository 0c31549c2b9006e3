// The reader: the records of a file, one after the other, each a part of the file with its place.
ghost use Rattle.std.specs.Prelude.{◌≡◌, ◌≢◌, ◌<◌, ◌≤◌, ℕ, length, drop, IfOk, IfSome, MatchOption, MatchResult};
ghost use Rattle.table.specs.Bytes.{le2};
ghost use Rattle.table.specs.Reading.{node_of, task_of, body_step, part_step, step_at};
ghost use Rattle.table.specs.Kinds.{kind_number};
ghost use Rattle.table.specs.Means.{entry_of, step_said, body_said, part_said};

use crate::fault::LoadFault;
use crate::kind::Kind;
use model::refusal::Refusal;
use model::task::Task;

// A record of the file; a task's name is lent by the file.
#[derive(Clone, Copy, Debug, PartialEq, Eq)]
pub enum Record<'a> {
    Node { rate: u32, floor: u64, cap: u64 },
    Task { task: Task, name: &'a [u8] },
}

// A record with the byte where it starts.
#[derive(Clone, Copy, Debug, PartialEq, Eq)]
pub struct Placed<'a> {
    pub record: Record<'a>,
    pub at: usize,
}

// The first four bytes of a record, and the bytes after them.
#[derive(Clone, Copy)]
struct Header<'a> {
    len: u16,
    // the number as it stands in the file, which may be that of no kind
    kind: u16,
    rest: &'a [u8],
}

fn read_header<'a>(left: &'a [u8]) -> Option<Header<'a>>
    ensures { MatchOption result
        (length left.now < 4)
        (λ h. (4 ≤ length left.now) × (h.len ≡ le2 left.now 0) × (h.kind ≡ le2 left.now 2) × (h.rest.now ≡ drop 4 left.now)) }
{
    // a rule of the project: the four bytes of a header are taken apart by one slice pattern
    let [a, b, c, d, rest @ ..] = left else {
        return None;
    };
    Some(Header {
        len: u16::from_le_bytes([*a, *b]),
        kind: u16::from_le_bytes([*c, *d]),
        rest,
    })
}

fn read_node<'a>(body: &'a [u8]) -> Option<Record<'a>>
    ensures { MatchOption result (length body.now ≢ 20) (λ n. (length body.now ≡ 20) × (entry_of n ≡ node_of body.now)) }
{
    let (rate, rest) = body.split_first_chunk()?;
    let (floor, rest) = rest.split_first_chunk()?;
    let cap = rest.as_array()?;
    Some(Record::Node {
        rate: u32::from_le_bytes(*rate),
        floor: u64::from_le_bytes(*floor),
        cap: u64::from_le_bytes(*cap),
    })
}

fn read_task<'a>(body: &'a [u8]) -> Option<Record<'a>>
    ensures { MatchOption result (length body.now < 18) (λ t. entry_of t ≡ task_of body.now) }
{
    let (units, rest) = body.split_first_chunk()?;
    let (period, rest) = rest.split_first_chunk()?;
    let (deadline, rest) = rest.split_first_chunk()?;
    let (draw, name) = rest.split_first_chunk()?;
    let task = Task {
        units: u16::from_le_bytes(*units),
        period: u32::from_le_bytes(*period),
        deadline: u32::from_le_bytes(*deadline),
        draw: u64::from_le_bytes(*draw),
    };
    Some(Record::Task { task, name })
}

// The body of a record of a kind, unless it has a length that the kind does not have.
fn read_body<'a>(kind: Kind, body: &'a [u8]) -> Option<Record<'a>>
    ensures { (at to : ℕ) → body_said result at to ≡ body_step (kind_number kind) body.now at to }
{
    match kind {
        Kind::Node => read_node(body),
        Kind::Task if (19..=30).contains(&body.len()) => read_task(body),
        Kind::Task => None,
    }
}

// The record at the front of what is left, and its length; nothing where no byte is left.
fn read_part<'a>(left: &'a [u8]) -> Result<Option<(Record<'a>, usize)>, Refusal>
    ensures said { (at : ℕ) → part_said result at ≡ part_step left.now at }
    ensures fits { IfOk result (λ o. IfSome o (λ p. (4 ≤ p.1) × (p.1 ≤ length left.now))) }
{
    if left.is_empty() {
        return Ok(None);
    }
    let header = read_header(left).ok_or(Refusal::PastEnd)?;
    let len = usize::from(header.len);
    if len < 4 {
        return Err(Refusal::WrongLength);
    }
    if left.len() < len {
        return Err(Refusal::PastEnd);
    }
    let kind = Kind::try_from(header.kind)?;
    let record = read_body(kind, &header.rest[..len - 4]).ok_or(Refusal::WrongLength)?;
    Ok(Some((record, len)))
}

// Walks through a file from its front.
#[derive(Debug, Drop, PartialEq, Eq)]
pub struct Reader<'a> {
    file: &'a [u8],
    at: usize,
    ghost within: { at ≤ length file.now },
}

impl<'a> Reader<'a> {
    // A reader at the front of a file.
    pub fn new(file: &'a [u8]) -> Reader<'a>
        ensures file { result.file.now ≡ file.now }
        ensures place { result.at ≡ 0 }
    {
        Reader { file, at: 0 }
    }

    // The next record, nothing at the end, or why it is refused; only a record moves the reader on.
    pub fn next(&mut self) -> Result<Option<Placed<'a>>, LoadFault>
        ensures said { step_said result self.new.at ≡ step_at self.old.file.now self.old.at }
        ensures file { self.new.file.now ≡ self.old.file.now }
        ensures place { MatchResult result
            (λ o. MatchOption o (self.new.at ≡ self.old.at) (λ _. self.old.at < self.new.at))
            (λ _. self.new.at ≡ self.old.at) }
    {
        let at = self.at;
        let part = read_part(&self.file[at..]).map_err(|refusal| LoadFault { refusal, at })?;
        let Some((record, len)) = part else {
            return Ok(None);
        };
        self.at += len;
        Ok(Some(Placed { record, at }))
    }
}
