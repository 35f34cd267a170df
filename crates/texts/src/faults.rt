// Why a text is no draft: the fault of a field stands inside the fault of its line, and that inside
// the fault of the text.
ghost use Rattle.std.specs.Prelude.{◌≡◌};
ghost use Rattle.texts.specs.declared.faults.FieldFault.{FieldFault};
ghost use Rattle.texts.specs.declared.faults.LineFault.{LineFault};
ghost use Rattle.texts.specs.declared.faults.TextFault.{TextFault};
ghost use Rattle.texts.specs.Faults.{inner_of, told, told_of_line, refusal_of};

use automata::faults::SignFault;
use drafts::faults::CallFault;
use fields::numbers::NumberFault;

// A refusal as it is told: its number, the line and the field that it names, and the number inside
// it; 0 where none applies. Lines and fields count from 1. Numbers, since these are what the line of a refusal prints.
#[derive(Clone, Copy, PartialEq, Eq, Debug)]
pub struct Refusal {
    pub number: u8,
    pub line: usize,
    pub field: u8,
    pub inner: u8,
}

impl Refusal {
    // A refusal that names no line, no field and no inner number. By its number: an impl of From for each fault would have to
    // stand where both the fault and `Refusal` are known, and neither crate of them knows the other.
    pub fn plain(number: u8) -> Refusal
        ensures { result ≡ told number 0 0 0 }
    {
        Refusal {
            number,
            line: 0,
            field: 0,
            inner: 0,
        }
    }
}

// Why a field is not well formed.
#[derive(Clone, Copy, PartialEq, Eq, Debug)]
pub enum FieldFault {
    Number(NumberFault),
    // not one kind letter, or not one listed sign
    NotListed,
}

impl FieldFault {
    // The number by which the refusal is known. A method: `u8::from(fault)` at a call would not say which number is meant.
    pub fn number(self) -> u8
        ensures { result ≡ inner_of self }
    {
        match self {
            FieldFault::Number(fault) => fault.number(),
            FieldFault::NotListed => 5,
        }
    }
}

// Why a line is refused.
#[derive(Clone, Copy, PartialEq, Eq, Debug)]
pub enum LineFault {
    // it does not begin with its record letter and a tab
    Record,
    // it has more or fewer fields than its record
    FieldCount,
    // the field of this number, counted from 1, is not well formed
    Field { field: u8, fault: FieldFault },
    // the signs are refused
    Open(SignFault),
    // the draft refuses the call
    Call(CallFault),
}

// A fault of a field, with the field's number.
impl From<(u8, FieldFault)> for LineFault {
    ghost from_gives = { λ x y. y ≡ LineFault.Field x.0 x.1 };

    fn from((field, fault): (u8, FieldFault)) -> LineFault {
        LineFault::Field { field, fault }
    }
}

// A fault of the number in a field, with the field's number.
impl From<(u8, NumberFault)> for LineFault {
    ghost from_gives = { λ x y. y ≡ LineFault.Field x.0 (FieldFault.Number x.1) };

    fn from((field, fault): (u8, NumberFault)) -> LineFault {
        LineFault::from((field, FieldFault::Number(fault)))
    }
}

impl From<SignFault> for LineFault {
    ghost from_gives = { λ x y. y ≡ LineFault.Open x };

    fn from(value: SignFault) -> LineFault {
        LineFault::Open(value)
    }
}

impl From<CallFault> for LineFault {
    ghost from_gives = { λ x y. y ≡ LineFault.Call x };

    fn from(value: CallFault) -> LineFault {
        LineFault::Call(value)
    }
}

// Why a text is refused.
#[derive(Clone, Copy, PartialEq, Eq, Debug)]
pub enum TextFault {
    // it has more than 32,768 bytes
    TooLong,
    // it has no last byte, or that is no newline
    NoEnd,
    // the line of this number, counted from 1
    Line { line: usize, fault: LineFault },
}

// A fault of a line, with the line's number.
impl From<(usize, LineFault)> for TextFault {
    ghost from_gives = { λ x y. y ≡ TextFault.Line x.0 x.1 };

    fn from((line, fault): (usize, LineFault)) -> TextFault {
        TextFault::Line { line, fault }
    }
}

// A fault of a line as it is told, with the line's number.
impl From<(usize, LineFault)> for Refusal {
    ghost from_gives = { λ x y. y ≡ told_of_line x.0 x.1 };

    fn from((line, fault): (usize, LineFault)) -> Refusal {
        match fault {
            LineFault::Record => Refusal {
                line,
                field: 1,
                ..Refusal::plain(22)
            },
            LineFault::FieldCount => Refusal {
                line,
                ..Refusal::plain(23)
            },
            LineFault::Field { field, fault } => Refusal {
                line,
                field,
                inner: fault.number(),
                ..Refusal::plain(24)
            },
            LineFault::Open(fault) => Refusal {
                line,
                inner: fault.number(),
                ..Refusal::plain(25)
            },
            LineFault::Call(fault) => Refusal {
                line,
                inner: fault.number(),
                ..Refusal::plain(25)
            },
        }
    }
}

// A fault of a text as it is told.
impl From<TextFault> for Refusal {
    ghost from_gives = { λ x y. y ≡ refusal_of x };

    fn from(value: TextFault) -> Refusal {
        match value {
            TextFault::TooLong => Refusal::plain(20),
            TextFault::NoEnd => Refusal::plain(21),
            TextFault::Line { line, fault } => Refusal::from((line, fault)),
        }
    }
}

impl TextFault {
    // The same as `Refusal::from`, named for callers.
    pub fn refusal(self) -> Refusal
        ensures { result ≡ refusal_of self }
    {
        Refusal::from(self)
    }
}
