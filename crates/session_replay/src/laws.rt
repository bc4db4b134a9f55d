//! The laws of sessions: each says what its definitions give, and does nothing.

ghost use Rattle.session_replay.specs.Laws.{SessionsStaySound, LocalOperationsSettle, DeliveriesSettle, NoReleaseSaysWaits};
ghost use Rattle.session_replay.specs.Laws.{TranscriptsAreThere, OneTranscript};
ghost use Rattle.session_replay.specs.Generating.{SitesStayAlone};
ghost use Rattle.session_replay.specs.Derivation.{DerivedReportsAreThere, OneDerivedReport};

use cot_site::no_release_waits;

/// Each step of a line leaves a sound session: histories are valid, and what waits and all messages are well
/// formed.
pub fn sessions_stay_sound()
    ensures { SessionsStaySound }
{}

/// After a local operation with its releases, no operation of any site is ready.
pub fn local_operations_settle()
    ensures { LocalOperationsSettle }
{}

/// After a delivery with its releases, no operation of any site is ready.
pub fn deliveries_settle()
    ensures { DeliveriesSettle }
{}

/// No line of a release says `waits`: from a sound session on, no step of a line of a script writes that.
pub fn no_release_says_waits()
    ensures { NoReleaseSaysWaits }
{
    no_release_waits();
}

/// The report of a script has a transcript: its lines, done one after the other, write it, and the refusal, if there is
/// one. After each event with its releases the session is sound and no operation of any site is ready; whatever
/// waits, waits for a named member, and a delivery that waits names it; `show` writes the text of the definition.
pub fn transcripts_are_there()
    ensures { TranscriptsAreThere }
{}

/// No other report of the script has a transcript.
pub fn one_transcript()
    ensures { OneTranscript }
{}

/// The report of a script is that of a session that is read with forms: beside each history stands a list of
/// derived forms, one for each operation at the members before it, and texts, visible places and the counts that
/// refused places tell are read from the cells that they give.
pub fn derived_reports_are_there()
    ensures { DerivedReportsAreThere }
{}

/// No other report of the script can be read so, whichever derived forms stand beside the histories.
pub fn one_derived_report()
    ensures { OneDerivedReport }
{}

/// Where no message is delivered, each site of a generated session has the operations of its own events, one for each
/// event, and no others; they are of originals of its own.
pub fn sites_stay_alone()
    ensures { SitesStayAlone }
{}
