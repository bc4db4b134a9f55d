//! The laws that stand beside replies: the bytes of a log decide them.

ghost use Rattle.log_replies.specs.Laws.{OneReply, OneExplanation, OnePast};

use session_log::{one_loading, one_refusal};
use trace_explain::one_trace;

/// The bytes that are read as a log decide the reply. It does nothing.
pub fn one_reply()
    ensures { OneReply }
{
    one_refusal();
    one_loading();
}

/// The bytes that are read as a log decide the reply of `explain`. It does nothing.
pub fn one_explanation()
    ensures { OneExplanation }
{
    one_refusal();
    one_loading();
    one_trace();
}

/// The bytes that are read as a log decide the reply of `at`. It does nothing.
pub fn one_past()
    ensures { OnePast }
{
    one_refusal();
    one_loading();
}
