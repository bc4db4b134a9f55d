//! The lines of traces.

use op_name::Member;
use ttf_form::Form;

/// A line of a trace: a member, with its form at a context. Lines are numbered from 1.
#[derive(Clone, Copy, Debug, PartialEq, Eq)]
pub enum TraceLine {
    /// The base form of the member, at its base context.
    Base {
        member: Member,
        form: Form,
    },
    /// The form of the member after the inclusion of the form of line `over` in that of line `left`, which is about the
    /// same member. The two have equal contexts, and this one's is that context with the member of `over`.
    Step {
        left: u64,
        over: u64,
        member: Member,
        form: Form,
    },
}
