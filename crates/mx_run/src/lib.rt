//! A script of commands from its source to its sink: its lines, the commands that they make, and
//! the block that answers each one.
//!
//! Room: engine and scripts.
#![tactic(auto)]

mod answer;
mod laws;
mod script;
mod session;
mod status;
mod stop;
mod take;

pub use laws::{commands_have_one_output, complete_commands_stay, lines_give_the_script};
pub use status::run_script;
pub use stop::Stop;
