//! The script language: which text is which line, and the text of each reply.
//!
//! `parse_line` answers a line exactly where the text is one, and then that line, unless memory runs out;
//! `reply_text` appends a reply's text. `specs/Grammar` has the grammar by the words of the line, with
//! `specs/Words` and `specs/Numbers` for single words, and `specs/Texts` has the replies. The laws of
//! `laws` say the same in other words: lines of known texts, numbers as their decimal digits, and each line
//! within the limits read as it is written, and no other line read (`specs/LineTexts`). What a line does, and
//! which line may follow which, is left to the layers that carry it out.
#![tactic(auto)]

mod changes;
mod cursor;
mod laws;
mod line;
mod number;
mod parse;
mod stage;
mod text;
mod word;

pub use laws::{
    known_lines, lines_are_read_as_written, lines_keep_the_limits, numbers_are_decimals,
};
pub use line::{Line, LineFault, LineReply};
pub use parse::{MOST_IN_LINE, parse_line};
pub use stage::Stage;
pub use text::reply_text;
