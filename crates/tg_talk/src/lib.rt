//! Lines over a reader and a writer: one is taken, one is written; and talks, a client's lines over one session.
#![tactic(auto)]

mod answering;
mod fault;
mod input_lines;
mod laws;
mod line_buffer;
mod opening;
mod refusal;
mod steady;
mod talking;
mod telling;
mod watched;
mod wording;
mod write_line;

pub use answering::{Finished, Responder, Said, Text, answer_lines, text_of_answer};
pub use fault::TalkFault;
pub use input_lines::{InputLines, Next};
pub use laws::{ends_have_meanings, talks_have_meanings};
pub use line_buffer::{Found, LineBuffer, MOST_LINES};
pub use opening::open_vault;
pub use refusal::too_many_line;
pub use steady::Steady;
pub use talking::{Talked, talk};
pub use watched::Watched;
pub use write_line::{buffered, pay_last, send_last_line, send_line};
