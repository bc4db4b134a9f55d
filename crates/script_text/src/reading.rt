//! Reading the lines of scripts.

mod chars;
mod field;
mod items;
mod kept;
mod line;
mod octets;
mod parse;
mod rows;
mod sets;
mod stream;
mod words;

pub use chars::Chars;
pub use line::{Line, LineBad};
pub use octets::Octets;
pub use parse::{LONGEST, each_line_has_a_spelling, parse_line};
pub use sets::{read_set, spells_set};
pub use stream::{LineStream, MAX_SCRIPT, lines_stay_the_same};
pub use words::{parse_long, parse_member, parse_name, parse_number, parse_site};
