//! The words of the program, the scripts that it reads and the texts of its report.
#![tactic(auto)]

mod command;
mod escape;
mod laws;
mod number;
mod place;
mod report;
mod script;
mod text;
mod unescape;
mod words;

pub use command::{Command, LAST_MOMENT};
pub use laws::{long_scripts_are_judged_by_their_front, numbers_are_decimal, texts_read_back};
pub use number::{MAX_DIGITS, number_up_to};
pub use script::{MAX_SCRIPT, Script, ScriptFault, parse_script};
pub use text::Text;
pub use words::{LAST_PORT, MOST_CONNECTIONS, MOST_GENERATED, Task, parse_words};

#[cfg(test)]
mod tests;
