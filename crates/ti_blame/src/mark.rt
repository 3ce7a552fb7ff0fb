// Annotations, and their order.
ghost use Rattle.std.specs.Prelude.{◌≡◌, Some};
ghost use Rattle.ti_blame.specs.Keys.{rank, kind_of, mark_at, key_of, mark_of, reason_of};

use crate::reason::Reason;
use ti_base::Place;

/// What is annotated.
#[derive(Clone, Copy, Debug, PartialEq, Eq)]
pub enum MarkKind {
    Method,
    Result,
    Variable,
}

/// A `single` annotation: of a method or of its result, at the place of the method's name, or of a local variable or parameter, at the
/// place of its declared name.
#[derive(Clone, Copy, Debug, PartialEq, Eq)]
pub struct Mark {
    pub place: Place,
    pub kind: MarkKind,
}

impl MarkKind {
    /// The position of the kind in the order of annotations at one place, from 0 to 2.
    pub fn rank(self) -> u8
        ensures { result ≡ rank self }
    {
        match self {
            MarkKind::Method => 0,
            MarkKind::Result => 1,
            MarkKind::Variable => 2,
        }
    }

    /// The kind with this rank; `Variable` for ranks above 2.
    pub fn of_rank(rank: u8) -> MarkKind
        ensures { result ≡ kind_of rank }
    {
        match rank {
            0 => MarkKind::Method,
            1 => MarkKind::Result,
            _ => MarkKind::Variable,
        }
    }
}

/// An annotation as a key, ordered by line, column and kind.
#[derive(Clone, Copy, Debug, PartialEq, Eq, PartialOrd, Ord)]
pub struct MarkKey {
    pub line: u32,
    pub col: u32,
    /// The rank of the kind.
    pub rank: u8,
}

impl MarkKey {
    /// The key of an annotation.
    pub fn of(mark: Mark) -> MarkKey
        ensures { result ≡ key_of mark }
    {
        MarkKey {
            line: mark.place.line,
            col: mark.place.col,
            rank: mark.kind.rank(),
        }
    }

    /// The annotation with this key.
    pub fn mark(self) -> Mark
        ensures { result ≡ mark_at self }
    {
        let (line, col) = (self.line, self.col);
        Mark {
            place: Place { line, col },
            kind: MarkKind::of_rank(self.rank),
        }
    }
}

/// The annotation that a reason is; `None` for collectives and unconditional reasons.
pub fn mark_of(reason: Reason) -> Option<Mark>
    ensures { result ≡ mark_of reason }
{
    let (place, kind) = match reason {
        Reason::OfMethod(at) => (at, MarkKind::Method),
        Reason::OfResult(at) => (at, MarkKind::Result),
        Reason::OfVariable(at) => (at, MarkKind::Variable),
        Reason::OfCollective(_) | Reason::Always => return None,
    };
    Some(Mark { place, kind })
}

/// An annotation as a reason.
pub fn reason_of(mark: Mark) -> Reason
    ensures { result ≡ reason_of mark }
{
    match mark.kind {
        MarkKind::Method => Reason::OfMethod(mark.place),
        MarkKind::Result => Reason::OfResult(mark.place),
        MarkKind::Variable => Reason::OfVariable(mark.place),
    }
}
