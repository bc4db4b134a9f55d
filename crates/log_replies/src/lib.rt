//! The commands `show`, `edit`, `upgrade`, `explain`, `where`, `find`, `at` and `playback`: each reads the log of a site, and writes
//! one reply to it.
//!
//! A command says which site it loads and what it replies to the state (the trait `Replies`); `answer` reads, replies and
//! writes, and its table says which answer comes when, and what it leaves. `playback` writes its reply piece by piece, and has a table
//! of its own. The bytes of the log decide the reply.
#![tactic(auto)]

mod addressing;
mod edit;
mod explain;
mod laws;
mod loaded;
mod past;
mod played;
mod replying;
mod show;
mod status;
mod upgrade;
mod written;

pub use addressing::{Finding, Locating};
pub use edit::{Edit, Editing};
pub use explain::Explaining;
pub use laws::{one_explanation, one_past, one_reply};
pub use loaded::{PIECE, empty_piece, load_input};
pub use past::ShowingPast;
pub use played::answer_played;
pub use replying::{Replies, answer};
pub use show::{Show, show_text};
pub use status::{Status, code_of};
pub use upgrade::Upgrading;
