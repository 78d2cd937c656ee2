// What a refusal is about: the names of the syntax elements of A/341, tables E.1.1 to E.1.3, in their order there; then what is none of them,
// the end of the data and a byte of the wrapper. And the number by which each crosses to C.
#![tactic(auto)]

ghost use Rattle.std.specs.Prelude.{◌≡◌};
ghost use Rattle.element.specs.Element.{number_of};

use bits::Unread;
use refusals::Refusal;

// Nothing, where a reading is not refused, or not for an element: it crosses to C as 0, so that it is no Option.
#[derive(Clone, Copy, Debug, PartialEq, Eq, Hash)]
pub enum Element {
    Nothing = 0,
    AppIdentifier = 1,
    AppVersion = 2,
    MetadataRefreshFlag = 3,
    NumExtBlocks = 4,
    DmAlignmentZeroBit = 5,
    ExtBlockLength = 6,
    ExtBlockLevel = 7,
    MinPq = 8,
    MaxPq = 9,
    AvgPq = 10,
    TargetMaxPq = 11,
    TrimSlope = 12,
    TrimOffset = 13,
    TrimPower = 14,
    TrimChromaWeight = 15,
    TrimSaturationGain = 16,
    MsWeight = 17,
    ActiveAreaLeftOffset = 18,
    ActiveAreaRightOffset = 19,
    ActiveAreaTopOffset = 20,
    ActiveAreaBottomOffset = 21,
    ExtDmAlignmentZeroBit = 22,
    End = 23,
    Wrapper = 24,
}

// Its number, for C.
pub fn number_of(e: Element) -> u8
    ensures { result ≡ number_of e }
{
    e as u8
}

// A refusal on its way: which, of which element, and where that begins.
#[derive(Clone, Copy, Debug, PartialEq, Eq, Hash)]
pub struct Refused {
    pub refusal: Refusal,
    pub element: Element,
    pub offset: usize,
}

impl Refused {
    ghost use Rattle.element.specs.Refused.{refused, unread_of};

    pub fn at(refusal: Refusal, element: Element, offset: usize) -> Self
        ensures { result ≡ refused refusal element offset }
    {
        Refused {
            refusal,
            element,
            offset,
        }
    }

    // What could not be read was this element.
    pub fn of(element: Element, why: Unread) -> Self
        ensures { result ≡ unread_of element why }
    {
        Refused {
            refusal: why.refusal,
            element,
            offset: why.offset,
        }
    }
}
