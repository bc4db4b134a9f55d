//! Writing the lines of reports.

mod event;
mod explained;
mod made;
mod raw;
mod reasons;
mod refusal;
mod shown;
mod states;

pub use event::{Event, verdict_line};
pub use explained::{base_line, put_form, step_line};
pub use made::{op_line, put_made};
pub use raw::{raw_bad_line, raw_more_line};
pub use reasons::local_line;
pub use refusal::{Refusal, refused_line};
pub use shown::shown_lines;
pub use states::state_line;
