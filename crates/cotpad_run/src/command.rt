//! Commands, and the words that spell them.

ghost use Rattle.std.specs.Prelude.{◌≡◌, Some, None, IfSome, MatchOption, map, option_map, string_bytes};
ghost use Rattle.log_replies.specs.Editing.{edit_data};
ghost use Rattle.log_replies.specs.Editing as made;
ghost use Rattle.cotpad_run.specs.Commands.{CommandData, command_data};
ghost use Rattle.cotpad_run.specs.Commands as asked;
ghost use Rattle.cotpad_run.specs.Words.{Spells};
ghost use Rattle.cotpad_run.specs.Code.Reading.{command_in, command_row, edit_in, edit_row, explain_in, where_in, find_in, at_in, gen_in, loop_in, port_in, placed_in, nl_in, del_in, undo_in, redo_in, first_in, one_in, alone_in};

use log_replies::Edit;
use op_name::Member;
use script_text::{parse_long, parse_member, parse_name, parse_number, parse_site, spells_set};
use session_replay::{MAX_EVENTS, MAX_WINDOW};

/// The greatest port.
pub const MAX_PORT: u32 = 65_535;

/// What the program is asked to do.
#[derive(Clone, Copy, Debug)]
pub enum Command<'a> {
    /// `replay`: reads a script, and writes the report of its session.
    Replay,
    /// `show`: reads a log, and writes its text.
    Show,
    /// `edit SITE EDIT`: reads a log, edits it as this site, and writes the log of the result.
    Edit {
        site: u16,
        edit: Edit<'a>,
    },
    /// `upgrade`: reads a log of either version, and writes it in version 2.
    Upgrade,
    /// `history`: reads a log, and writes a line for each operation.
    History,
    /// `digest`: reads a log, and writes hashes of its operations and its text.
    Digest,
    /// `gen START EVENTS WINDOW`: generates a session of four sites, and writes what it did and shows.
    Gen {
        start: u64,
        events: u32,
        window: u32,
    },
    /// `explain MEMBER`: reads a log, and writes the steps that derive the form in which the operation was executed.
    Explain {
        member: Member,
    },
    /// `where V`: reads a log, and writes the line and the column of the place after so many shown characters.
    Where {
        place: u32,
    },
    /// `find L C`: reads a log, and writes the place of its text that has this line and column.
    Find {
        line: u32,
        column: u32,
    },
    /// `at COUNTS GROUPS`: reads a log, and writes its text at the set of members that the two lists spell.
    At {
        counts: &'a str,
        groups: &'a str,
    },
    /// `playback`: reads a log, and writes its text after each operation.
    Playback,
    /// `serve PORT`: reads a log, waits for a peer at the port, exchanges with it, and writes the log of the result.
    Serve {
        port: u16,
    },
    /// `join PORT`: reads a log, goes to a peer that waits at the port, exchanges with it, and writes the log of the result.
    Join {
        port: u16,
    },
    /// `loop START`: generates a session of two sites, which exchange twice over a pair, and writes what went and whether
    /// they show the same text.
    Loop {
        start: u64,
    },
    /// `help`: lists the commands.
    Help,
    /// `--help`: the same.
    DashedHelp,
    /// `version`: tells the version of the program.
    Version,
    /// `--version`: the same.
    DashedVersion,
}

/// The command that these words spell, which are those after the program's name. None exactly where they spell
/// no command.
#[tactic(auto, using(crate::proofs::Spelling::found, crate::proofs::Spelling::only), unfolding(crate::specs::Code::Reading::command_in))]
pub(crate) fn command_of(words: &[String]) -> Option<Command<'_>>
    ensures read { option_map command_data result ≡ command_in (map string_bytes words.now) }
    ensures found { IfSome result (λ command. Spells words.now (command_data command)) }
    ensures only { (command : CommandData) → Spells words.now command → option_map command_data result ≡ Some command }
{
    let (word, parts) = first(words)?;
    command_row(word, parts)
}

// The row of the word, with these parts.
#[tactic(auto, unfolding(crate::specs::Code::Reading::command_row))]
fn command_row<'a>(word: &str, parts: &'a [String]) -> Option<Command<'a>>
    ensures { option_map command_data result ≡ command_row word.now (map string_bytes parts.now) }
{
    match word {
        "replay" => replay_of(parts),
        "show" => show_of(parts),
        "edit" => edit_of(parts),
        "upgrade" => upgrade_of(parts),
        "history" => history_of(parts),
        "digest" => digest_of(parts),
        "gen" => gen_of(parts),
        "explain" => explain_of(parts),
        "where" => where_of(parts),
        "find" => find_of(parts),
        "at" => at_of(parts),
        "playback" => playback_of(parts),
        "serve" => serve_of(parts),
        "join" => join_of(parts),
        "loop" => loop_of(parts),
        "help" => help_of(parts),
        "--help" => dashed_help_of(parts),
        "version" => version_of(parts),
        "--version" => dashed_version_of(parts),
        _ => None,
    }
}

fn replay_of(parts: &[String]) -> Option<Command<'_>>
    ensures { option_map command_data result ≡ alone_in asked.Replay (map string_bytes parts.now) }
{
    if parts.is_empty() {
        Some(Command::Replay)
    } else {
        None
    }
}

fn show_of(parts: &[String]) -> Option<Command<'_>>
    ensures { option_map command_data result ≡ alone_in asked.Show (map string_bytes parts.now) }
{
    if parts.is_empty() {
        Some(Command::Show)
    } else {
        None
    }
}

// `SITE EDIT`
#[tactic(auto, unfolding(crate::specs::Code::Reading::edit_in))]
fn edit_of(parts: &[String]) -> Option<Command<'_>>
    ensures { option_map command_data result ≡ edit_in (map string_bytes parts.now) }
{
    let (site, rest) = first(parts)?;
    let site = parse_site(site)?;
    let (word, parts) = first(rest)?;
    match edit_row(word, parts) {
        Some(edit) => Some(Command::Edit { site, edit }),
        None => None,
    }
}

// The row of the word of an edit, with these parts.
#[tactic(auto, unfolding(crate::specs::Code::Reading::edit_row))]
fn edit_row<'a>(word: &str, parts: &'a [String]) -> Option<Edit<'a>>
    ensures { option_map edit_data result ≡ edit_row word.now (map string_bytes parts.now) }
{
    match word {
        "ins" => ins_of(parts),
        "run" => run_of(parts),
        "nl" => nl_of(parts),
        "del" => del_of(parts),
        "undo" => undo_of(parts),
        "redo" => redo_of(parts),
        _ => None,
    }
}

fn ins_of(parts: &[String]) -> Option<Edit<'_>>
    ensures { option_map edit_data result ≡ option_map (λ p. made.Ins p.0 p.1) (placed_in (map string_bytes parts.now)) }
{
    let (place, text) = placed_of(parts)?;
    Some(Edit::Ins { place, text })
}

fn run_of(parts: &[String]) -> Option<Edit<'_>>
    ensures { option_map edit_data result ≡ option_map (λ p. made.Run p.0 p.1) (placed_in (map string_bytes parts.now)) }
{
    let (place, text) = placed_of(parts)?;
    Some(Edit::Run { place, text })
}

// `V TEXT`
#[tactic(auto, unfolding(crate::specs::Code::Reading::placed_in))]
fn placed_of(parts: &[String]) -> Option<(u32, &str)>
    ensures { option_map (λ p. (p.0, p.1.now)) result ≡ placed_in (map string_bytes parts.now) }
{
    let (place, rest) = first(parts)?;
    let place = parse_number(place)?;
    let text = one(rest)?;
    if text.is_empty() {
        None
    } else {
        Some((place, text))
    }
}

#[tactic(auto, unfolding(crate::specs::Code::Reading::nl_in))]
fn nl_of(parts: &[String]) -> Option<Edit<'_>>
    ensures { option_map edit_data result ≡ nl_in (map string_bytes parts.now) }
{
    let place = parse_number(one(parts)?)?;
    Some(Edit::Nl { place })
}

#[tactic(auto, unfolding(crate::specs::Code::Reading::del_in))]
fn del_of(parts: &[String]) -> Option<Edit<'_>>
    ensures { option_map edit_data result ≡ del_in (map string_bytes parts.now) }
{
    let place = parse_number(one(parts)?)?;
    Some(Edit::Del { place })
}

#[tactic(auto, unfolding(crate::specs::Code::Reading::undo_in))]
fn undo_of(parts: &[String]) -> Option<Edit<'_>>
    ensures { option_map edit_data result ≡ undo_in (map string_bytes parts.now) }
{
    let name = parse_name(one(parts)?)?;
    Some(Edit::Undo { name })
}

#[tactic(auto, unfolding(crate::specs::Code::Reading::redo_in))]
fn redo_of(parts: &[String]) -> Option<Edit<'_>>
    ensures { option_map edit_data result ≡ redo_in (map string_bytes parts.now) }
{
    let name = parse_name(one(parts)?)?;
    Some(Edit::Redo { name })
}

fn upgrade_of(parts: &[String]) -> Option<Command<'_>>
    ensures { option_map command_data result ≡ alone_in asked.Upgrade (map string_bytes parts.now) }
{
    if parts.is_empty() {
        Some(Command::Upgrade)
    } else {
        None
    }
}

fn history_of(parts: &[String]) -> Option<Command<'_>>
    ensures { option_map command_data result ≡ alone_in asked.History (map string_bytes parts.now) }
{
    if parts.is_empty() {
        Some(Command::History)
    } else {
        None
    }
}

fn digest_of(parts: &[String]) -> Option<Command<'_>>
    ensures { option_map command_data result ≡ alone_in asked.Digest (map string_bytes parts.now) }
{
    if parts.is_empty() {
        Some(Command::Digest)
    } else {
        None
    }
}

// `START EVENTS WINDOW`
#[tactic(auto, unfolding(crate::specs::Code::Reading::gen_in))]
fn gen_of(parts: &[String]) -> Option<Command<'_>>
    ensures { option_map command_data result ≡ gen_in (map string_bytes parts.now) }
{
    let (start, rest) = first(parts)?;
    let start = parse_long(start)?;
    let (events, rest) = first(rest)?;
    let events = parse_number(events)?;
    let window = parse_number(one(rest)?)?;
    if events <= MAX_EVENTS && 1 <= window && window <= MAX_WINDOW {
        Some(Command::Gen {
            start,
            events,
            window,
        })
    } else {
        None
    }
}

#[tactic(auto, unfolding(crate::specs::Code::Reading::explain_in))]
fn explain_of(parts: &[String]) -> Option<Command<'_>>
    ensures { option_map command_data result ≡ explain_in (map string_bytes parts.now) }
{
    let member = parse_member(one(parts)?)?;
    Some(Command::Explain { member })
}

#[tactic(auto, unfolding(crate::specs::Code::Reading::where_in))]
fn where_of(parts: &[String]) -> Option<Command<'_>>
    ensures { option_map command_data result ≡ where_in (map string_bytes parts.now) }
{
    let place = parse_number(one(parts)?)?;
    Some(Command::Where { place })
}

// `L C`
#[tactic(auto, unfolding(crate::specs::Code::Reading::find_in))]
fn find_of(parts: &[String]) -> Option<Command<'_>>
    ensures { option_map command_data result ≡ find_in (map string_bytes parts.now) }
{
    let (line, rest) = first(parts)?;
    let line = parse_number(line)?;
    let column = parse_number(one(rest)?)?;
    Some(Command::Find { line, column })
}

// `COUNTS GROUPS`
#[tactic(auto, using(crate::proofs::Spelling::set_read, crate::proofs::Spelling::set_unread), unfolding(crate::specs::Code::Reading::at_in))]
fn at_of(parts: &[String]) -> Option<Command<'_>>
    ensures { option_map command_data result ≡ at_in (map string_bytes parts.now) }
{
    let (counts, rest) = first(parts)?;
    let groups = one(rest)?;
    if spells_set(counts, groups) {
        Some(Command::At { counts, groups })
    } else {
        None
    }
}

fn playback_of(parts: &[String]) -> Option<Command<'_>>
    ensures { option_map command_data result ≡ alone_in asked.Playback (map string_bytes parts.now) }
{
    if parts.is_empty() {
        Some(Command::Playback)
    } else {
        None
    }
}

fn serve_of(parts: &[String]) -> Option<Command<'_>>
    ensures { option_map command_data result ≡ option_map asked.Serve (port_in (map string_bytes parts.now)) }
{
    let port = port_of(parts)?;
    Some(Command::Serve { port })
}

fn join_of(parts: &[String]) -> Option<Command<'_>>
    ensures { option_map command_data result ≡ option_map asked.Join (port_in (map string_bytes parts.now)) }
{
    let port = port_of(parts)?;
    Some(Command::Join { port })
}

// The one word is a port.
#[tactic(auto, unfolding(crate::specs::Code::Reading::port_in))]
fn port_of(parts: &[String]) -> Option<u16>
    ensures { result ≡ port_in (map string_bytes parts.now) }
{
    let port = parse_number(one(parts)?)?;
    if 1 <= port && port <= MAX_PORT {
        Some(port as u16)
    } else {
        None
    }
}

#[tactic(auto, unfolding(crate::specs::Code::Reading::loop_in))]
fn loop_of(parts: &[String]) -> Option<Command<'_>>
    ensures { option_map command_data result ≡ loop_in (map string_bytes parts.now) }
{
    let start = parse_long(one(parts)?)?;
    Some(Command::Loop { start })
}

fn help_of(parts: &[String]) -> Option<Command<'_>>
    ensures { option_map command_data result ≡ alone_in asked.Help (map string_bytes parts.now) }
{
    if parts.is_empty() {
        Some(Command::Help)
    } else {
        None
    }
}

fn dashed_help_of(parts: &[String]) -> Option<Command<'_>>
    ensures { option_map command_data result ≡ alone_in asked.DashedHelp (map string_bytes parts.now) }
{
    if parts.is_empty() {
        Some(Command::DashedHelp)
    } else {
        None
    }
}

fn version_of(parts: &[String]) -> Option<Command<'_>>
    ensures { option_map command_data result ≡ alone_in asked.Version (map string_bytes parts.now) }
{
    if parts.is_empty() {
        Some(Command::Version)
    } else {
        None
    }
}

fn dashed_version_of(parts: &[String]) -> Option<Command<'_>>
    ensures { option_map command_data result ≡ alone_in asked.DashedVersion (map string_bytes parts.now) }
{
    if parts.is_empty() {
        Some(Command::DashedVersion)
    } else {
        None
    }
}

// The first word and the others, if there is one.
fn first(words: &[String]) -> Option<(&str, &[String])>
    ensures { MatchOption result (first_in (map string_bytes words.now) ≡ None)
        (λ p. first_in (map string_bytes words.now) ≡ Some (p.0.now, map string_bytes p.1.now)) }
{
    let (word, others) = words.split_first()?;
    Some((word.as_str(), others))
}

// The one word, if there is one alone.
fn one(words: &[String]) -> Option<&str>
    ensures { MatchOption result (one_in (map string_bytes words.now) ≡ None) (λ w. one_in (map string_bytes words.now) ≡ Some w.now) }
{
    let (word, others) = first(words)?;
    if others.is_empty() { Some(word) } else { None }
}
