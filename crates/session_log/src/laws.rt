//! Laws of logs: each says what its definitions give, and does nothing.

ghost use Rattle.session_log.specs.Laws.{OneReading, LogsHaveNoFault, OneFault, OneRefusal, OneLoading, RoundTrip};
ghost use Rattle.session_log.specs.Readers.{OneLoadOn};

/// Bytes are the log of one list of operations at most.
pub fn one_reading()
    ensures { OneReading }
{}

/// What is a log has no fault.
pub fn logs_have_no_fault()
    ensures { LogsHaveNoFault }
{}

/// At most one reason not to read bytes holds, apart from memory.
pub fn one_fault()
    ensures { OneFault }
{}

/// At most one reason not to load bytes holds, apart from memory.
pub fn one_refusal()
    ensures { OneRefusal }
{}

/// There is one loaded state at most; where there is one, no reason to refuse the log holds.
pub fn one_loading()
    ensures { OneLoading }
{}

/// The log of a settled site is loaded as the same history and the same waiting operations, under any number.
pub fn round_trip()
    ensures { RoundTrip }
{}

/// What a reader keeps decides what loading gives, whatever follows.
pub fn what_is_kept_decides()
    ensures { OneLoadOn }
{
    logs_have_no_fault();
    one_loading();
    one_refusal();
}
