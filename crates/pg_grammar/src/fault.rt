//! What is wrong with a text.
ghost use Rattle.pg_grammar.specs.declared.fault.FaultKind.TheVariants.{OutOfMemory};
ghost use Rattle.pg_grammar.specs.FaultTexts.{kind_text};
ghost use Rattle.std.specs.Prelude.{◌≡◌};

use std::alloc::{AllocError, AllocFailed};
use std::error::Error;
use std::fmt;

/// The kinds of faults. Offsets count bytes from 0. Of several faults the one that stands first is
/// answered. Of two that stand at one offset a `BadInterval` comes before a `NothingToRepeat`, a
/// `BadClass` or `BadCollating` before a `BadRange`, and an `UnmatchedGroup` before an `EmptyOperand`.
#[derive(Clone, Copy, Debug, PartialEq, Eq)]
pub enum FaultKind {
    /// A backslash is the last byte of the text. The fault stands at it.
    TrailingBackslash,
    /// A backslash stands before a byte whose escape has no meaning. The fault stands at the backslash.
    BadEscape,
    /// A backslash stands before a digit from 1 to 9. The fault stands at the backslash.
    BackReference,
    /// A bracket has no end (XBD 9.3.5). The fault stands at its `[`.
    UnmatchedBracket,
    /// `[:` and `:]` enclose the name of no class. The fault stands at the inner `[`.
    BadClass,
    /// `[=` and `=]`, or `[.` and `.]`, enclose other than one byte. The fault stands at the inner `[`.
    BadCollating,
    /// A range in a bracket ends below its start, starts or ends with a class or an equivalence class,
    /// or begins where another one ended. The fault stands at the element that begins it; in the last case,
    /// at the one that begins the range before it.
    BadRange,
    /// A `\)` of a basic expression closes no group: the fault stands at it. Or a group is still open
    /// where the text ends: it stands there.
    UnmatchedGroup,
    /// An interval isn't closed, or its bounds aren't one or two numbers in order, of at most 255. The
    /// fault stands at what opens it.
    BadInterval,
    /// A repetition has nothing to its left. The fault stands at the repetition.
    NothingToRepeat,
    /// A group or an alternative is empty. The fault stands at the end of the group, at the bar behind
    /// the alternative, or where the text ends.
    EmptyOperand,
    /// More than 100 groups are open. The fault stands at what opens the last of them.
    TooDeep,
    /// A request for memory was refused. The fault stands at 0.
    OutOfMemory,
    /// The text is longer than 4,096 bytes. This fault comes before all others, and stands at 4,096.
    TooLong,
}

impl FaultKind {
    /// What is wrong, in words.
    pub fn text(self) -> &'static str
        ensures { result.now ≡ kind_text self }
    {
        match self {
            FaultKind::TrailingBackslash => "trailing backslash",
            FaultKind::BadEscape => "bad escape",
            FaultKind::BackReference => "back reference",
            FaultKind::UnmatchedBracket => "unmatched bracket",
            FaultKind::BadClass => "bad class",
            FaultKind::BadCollating => "bad collating element",
            FaultKind::BadRange => "bad range",
            FaultKind::UnmatchedGroup => "unmatched group",
            FaultKind::BadInterval => "bad interval",
            FaultKind::NothingToRepeat => "nothing to repeat",
            FaultKind::EmptyOperand => "empty operand",
            FaultKind::TooDeep => "groups too deep",
            FaultKind::OutOfMemory => "out of memory",
            FaultKind::TooLong => "pattern too long",
        }
    }
}

impl fmt::Display for FaultKind {
    ghost use Rattle.std.specs.Prelude.{Some};

    ghost output = { λ kind. Some (kind_text kind) };

    fn fmt<W: fmt::Write>(&self, f: &mut fmt::Formatter<W>) -> fmt::Result {
        f.write_str(self.text())
    }
}

impl Error for FaultKind {}

/// A fault of a text, and the offset at which it stands.
#[derive(Clone, Copy, Debug, PartialEq, Eq)]
pub struct SyntaxFault {
    pub kind: FaultKind,
    pub at: usize,
}

impl fmt::Display for SyntaxFault {
    ghost use Rattle.std.specs.Prelude.{Some};
    ghost use Rattle.pg_grammar.specs.FaultTexts.{fault_text};

    ghost output = { λ fault. Some (fault_text fault) };

    fn fmt<W: fmt::Write>(&self, f: &mut fmt::Formatter<W>) -> fmt::Result {
        let kind = self.kind;
        let at = self.at;
        match kind {
            FaultKind::OutOfMemory => write!(f, "{kind}"),
            _ => write!(f, "{kind} at {at}"),
        }
    }
}

impl Error for SyntaxFault {}

impl From<AllocError> for SyntaxFault {
    ghost from_gives = { λ _ f. f ≡ record { kind = OutOfMemory; at = 0 } };

    fn from(_error: AllocError) -> SyntaxFault {
        SyntaxFault {
            kind: FaultKind::OutOfMemory,
            at: 0,
        }
    }
}

/// A fault of one of several patterns.
#[derive(Clone, Copy, Debug, PartialEq, Eq)]
pub struct ListFault {
    /// The number of the pattern, counted from 1 over all lists; 0 for want of memory.
    pub pattern: usize,
    pub fault: SyntaxFault,
}

impl fmt::Display for ListFault {
    ghost use Rattle.std.specs.Prelude.{Some};
    ghost use Rattle.pg_grammar.specs.FaultTexts.{list_text};

    ghost output = { λ fault. Some (list_text fault) };

    fn fmt<W: fmt::Write>(&self, f: &mut fmt::Formatter<W>) -> fmt::Result {
        let pattern = self.pattern;
        let fault = self.fault;
        match fault.kind {
            FaultKind::OutOfMemory => write!(f, "{fault}"),
            _ => write!(f, "pattern {pattern}: {fault}"),
        }
    }
}

impl Error for ListFault {}

impl From<AllocError> for ListFault {
    ghost from_gives = { λ _ f. f ≡ record { pattern = 0; fault = record { kind = OutOfMemory; at = 0 } } };

    fn from(error: AllocError) -> ListFault {
        ListFault {
            pattern: 0,
            fault: SyntaxFault::from(error),
        }
    }
}

impl<T: Drop> From<AllocFailed<T>> for ListFault {
    ghost from_gives = { λ _ f. f ≡ record { pattern = 0; fault = record { kind = OutOfMemory; at = 0 } } };

    fn from(error: AllocFailed<T>) -> ListFault {
        ListFault::from(AllocError::from(error))
    }
}
