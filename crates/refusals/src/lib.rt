// The refusals of document 01's table and of document 02's Items, and their numbers.

#![tactic(auto)]

ghost use Rattle.std.specs.Prelude.{◌≡◌};
ghost use Rattle.lists.specs.Refusal as refusal;
ghost use Rattle.refusals.specs.Refusals.{refusal_of};

#[derive(Debug, Clone, Copy, PartialEq, Eq)]
pub enum Refusal {
    TargetShort = 1,
    TextLong = 2,
    LineBad = 10,
    KeyBad = 11,
    ArgumentBad = 12,
    OperatorBad = 13,
    ValueBad = 14,
    ContentBad = 15,
    PairExtra = 16,
    CommaMissing = 17,
    RuleExtra = 18,
    LabelMissing = 19,
    LineOpen = 20,
    FileTwice = 21,
    DeviceBad = 3,
    OutcomeBad = 4,
    TooNew = 5,
    SheetBad = 6,
    SetBad = 7,
    SubstitutionLong = 30,
    LinkBad = 31,
    ListFull = 32,
    OwnerBad = 33,
    ModeBad = 34,
    CommandMissing = 35,
    ModeShared = 36,
}

// A refusal and the line of the text that it is about.
#[derive(Debug, Clone, Copy, PartialEq, Eq)]
pub struct LineRefusal {
    pub refusal: Refusal,
    pub line: usize,
}

// A refusal, the position of the record or file of a set that it is about, and the line of its text, or 0.
#[derive(Debug, Clone, Copy, PartialEq, Eq)]
pub struct SetRefusal {
    pub refusal: Refusal,
    pub position: usize,
    pub line: usize,
}

pub fn number(r: Refusal) -> u32
    ensures { result ≡ refusal.number (refusal_of r) }
{
    r as u32
}
