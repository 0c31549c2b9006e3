// The kinds of records, and the numbers that stand for them in a file.
ghost use Rattle.table.specs.Kinds.{NamesKind};

use model::refusal::Refusal;

#[derive(Clone, Copy, Debug, PartialEq, Eq)]
pub(crate) enum Kind {
    Node,
    Task,
}

impl TryFrom<u16> for Kind {
    type Error = Refusal;

    ghost try_from_gives = { NamesKind };

    fn try_from(number: u16) -> Result<Kind, Refusal> {
        match number {
            1 => Ok(Kind::Node),
            2 => Ok(Kind::Task),
            _ => Err(Refusal::UnknownKind),
        }
    }
}
