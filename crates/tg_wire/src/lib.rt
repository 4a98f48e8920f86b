//! The lines of the protocol: from JSON to events, steps, goals and configurations, and from answers to JSON.
#![tactic(auto)]

mod ascii;
mod before;
mod config;
mod decoded;
mod edges;
mod escaped;
mod explain;
mod fault;
mod field;
mod flat;
mod key;
mod last_line;
mod laws;
mod line;
mod line_room;
mod member;
mod members;
mod object;
mod object_line;
mod op;
mod plain;
mod read;
mod refusal;
mod scan;
mod unescaped;
mod unshared;
mod write;
mod write_step;

pub use config::{read_config, read_goal};
pub use explain::{LineKind, key_at_fault};
pub use fault::WireFault;
pub use laws::{
    configs_say, goals_read_back, goals_say, lines_say, one_reply_a_line, steps_read_back,
    steps_say, worked_answers, worked_lines,
};
pub use line::{LONGEST_LINE, Line};
pub use line_room::LineRoom;
pub use read::{read_line, read_line_in, read_line_into, read_step};
pub use refusal::{error_line, open_fault_line};
pub use unshared::{Unshared, write_could_in, write_unshared_in};
pub use write::{
    write_answer, write_answer_in, write_reply, write_reply_in, write_swept, write_swept_in,
    write_verdict,
};
pub use write_step::{goal_reads_back, step_reads_back, write_goal_in, write_step_in};
