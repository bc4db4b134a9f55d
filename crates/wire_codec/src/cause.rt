//! Why bytes are no frame.

ghost use Rattle.std.specs.Prelude.{◌≡◌};
ghost use Rattle.wire_codec.specs.Causes.{cause_word};

/// Why the bytes at an offset can't be part of a frame.
#[derive(Clone, Copy, Debug, PartialEq, Eq)]
pub enum Cause {
    /// The length says more than the longest body has.
    TooLong,
    /// The kind is none of insert, delete and undo.
    Kind,
    /// A number is out of the range of its field.
    Range,
    /// A character is no Unicode scalar value (RFC 3629).
    Char,
    /// A site or a name of a context isn't above the one before it, or a run could have been part of the one before it.
    Order,
    /// A count, a length of a run or a generation of a context is 0.
    Zero,
    /// A field passes the end of the body, or the body goes on after its last field.
    Length,
    /// An insert or delete whose context hasn't just the earlier ones of its site.
    Own,
    /// An undo whose context hasn't its target at the generation before its own.
    Target,
    /// An undo entry of a context that names no original of that context, or a run with such an entry.
    Stray,
}

impl Cause {
    /// The word for the cause in reports and messages.
    pub fn word(self) -> &'static str
        ensures { result.now ≡ cause_word self }
    {
        match self {
            Cause::TooLong => "toolong",
            Cause::Kind => "kind",
            Cause::Range => "range",
            Cause::Char => "char",
            Cause::Order => "order",
            Cause::Zero => "zero",
            Cause::Length => "length",
            Cause::Own => "own",
            Cause::Target => "target",
            Cause::Stray => "stray",
        }
    }
}
