// Why a call is refused. Each refusal has a number, which answer files and the calls for C give.

ghost use Rattle.std.specs.Prelude.{◌≡◌};
ghost use Rattle.plan.specs.Refusals.{refusal_number, Decodes};

use std::error::Error;
use std::fmt;

#[derive(Clone, Copy, Debug, PartialEq, Eq)]
pub enum Refusal {
    // A header or a body is cut short, or the file ends where a field is due.
    CutShort = 1,
    // A tag may not stand there.
    TagOutOfPlace = 2,
    // The length is wrong for the tag, or odd for readings.
    WrongLength = 3,
    // hi is below lo, the grid is too wide, or a level lies off it.
    BadLevel = 4,
    // The number of states, a set of states, or a state is not one that may be.
    BadState = 5,
    // An edge with a wrong state, kind, gap or class.
    BadEdge = 6,
    // An edge with the two states and the kind of an earlier one.
    RepeatedEdge = 7,
    // A label with a wrong start, end or c.
    BadLabel = 8,
    // No readings, or too many.
    BadCount = 9,
    // No room for an edge or a label more.
    PlanFull = 10,
    // An edge after a label, a change after sealing, or a use before it.
    OutOfTurn = 11,
    // A label starts before the earlier one ends.
    LabelsOverlap = 12,
    // A label ends after the last reading.
    LabelTooLate = 13,
    // The workspace has too few words.
    WorkspaceTooShort = 14,
    // A lent list is too short for what is written to it.
    ListTooShort = 15,
    // No allowed segmentation exists.
    NoSegmentation = 16,
    // An answer file's runs, or the refusal that it holds, break a rule.
    BadAnswer = 17,
    // A moving window over a plan with labels.
    LabelsInWindow = 18,
    // A window of no readings, of too many, or of more than the record has.
    BadWindow = 19,
    // More changes asked for than a table goes up to.
    TooManyChanges = 20,
}

impl Refusal {
    pub fn number(self) -> u8
        ensures { result ≡ refusal_number self }
    {
        self as u8
    }
}

// A number that no refusal has.
#[derive(Clone, Copy, Debug, PartialEq, Eq)]
pub struct UnknownRefusal(pub u8);

impl TryFrom<u8> for Refusal {
    type Error = UnknownRefusal;

    ghost try_from_gives = { Decodes };

    fn try_from(number: u8) -> Result<Refusal, UnknownRefusal> {
        match number {
            1 => Ok(Refusal::CutShort),
            2 => Ok(Refusal::TagOutOfPlace),
            3 => Ok(Refusal::WrongLength),
            4 => Ok(Refusal::BadLevel),
            5 => Ok(Refusal::BadState),
            6 => Ok(Refusal::BadEdge),
            7 => Ok(Refusal::RepeatedEdge),
            8 => Ok(Refusal::BadLabel),
            9 => Ok(Refusal::BadCount),
            10 => Ok(Refusal::PlanFull),
            11 => Ok(Refusal::OutOfTurn),
            12 => Ok(Refusal::LabelsOverlap),
            13 => Ok(Refusal::LabelTooLate),
            14 => Ok(Refusal::WorkspaceTooShort),
            15 => Ok(Refusal::ListTooShort),
            16 => Ok(Refusal::NoSegmentation),
            17 => Ok(Refusal::BadAnswer),
            18 => Ok(Refusal::LabelsInWindow),
            19 => Ok(Refusal::BadWindow),
            20 => Ok(Refusal::TooManyChanges),
            _ => Err(UnknownRefusal(number)),
        }
    }
}

impl fmt::Display for Refusal {
    fn fmt<W: fmt::Write>(&self, f: &mut fmt::Formatter<W>) -> fmt::Result {
        let number = self.number();
        write!(f, "refusal {number}")
    }
}

impl fmt::Display for UnknownRefusal {
    fn fmt<W: fmt::Write>(&self, f: &mut fmt::Formatter<W>) -> fmt::Result {
        let number = self.0;
        write!(f, "no refusal has the number {number}")
    }
}

impl Error for Refusal {}

impl Error for UnknownRefusal {}
