// Why something is refused, each refusal named once, with its number in document 01 and in the requests after it. Nothing here knows a
// syntax.
#![tactic(auto)]

ghost use Rattle.std.specs.Prelude.{◌≡◌};

// Each stands with its number. 8, a level other than 1, 2 and 5, no longer occurs: such blocks are passed over.
#[derive(Clone, Copy, Debug, PartialEq, Eq, Hash)]
pub enum Refusal {
    PastEnd = 1,
    TooManyZeros = 2,
    WrapperDiffers = 3,
    WrongIdentifier = 4,
    WrongVersion = 5,
    TooManyBlocks = 6,
    NotZero = 7,
    WrongLength = 9,
    NotInOrder = 10,
    RepeatedTarget = 11,
    BytesRemain = 12,
    UnfitOutput = 13,
    NotValid = 14,
    TooManyPoints = 15,
    NotATrack = 16,
    SecondLevel1 = 17,
    SecondLevel5 = 18,
    SeventeenthLevel2 = 19,
    WrongUnit = 30,
    StartCodeInside = 31,
    BrokenMessages = 32,
    NoneOfOurs = 33,
}

impl Refusal {
    ghost use Rattle.refusals.specs.Numbered.{number_of};

    // By which it is answered: 0 stands for none.
    pub fn number(self) -> u8
        ensures { result ≡ number_of self }
    {
        self as u8
    }
}
