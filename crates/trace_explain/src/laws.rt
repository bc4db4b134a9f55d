//! The laws of traces, each as the contract of a function that does nothing.

ghost use Rattle.trace_explain.specs.Laws.{EndsInExecutedForm, OneTrace};

/// The listing rule gives a member of a history one list of lines.
pub fn one_trace()
    ensures { OneTrace }
{}

/// A trace ends in the form in which its member was executed.
pub fn ends_in_executed_form()
    ensures { EndsInExecutedForm }
{}
