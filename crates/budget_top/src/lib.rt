//! What the program does, from the words of the command line to the status: it merges message lines, answers the lines of a device,
//! serves the requests of devices, tells of a book that it generates, or plays a world of devices, over the outside that it is given.
#![tactic(auto)]

mod answer;
mod begun;
mod device_run;
mod dispatch;
mod generate_run;
mod in_memory;
mod input;
mod laws;
mod line;
mod merge;
mod opening;
mod planning;
mod play;
mod serve_run;
mod session;
mod stop;
mod sync_line;
mod tally;
mod values;
mod verdict;
mod words;
mod world_run;
mod write;

pub use dispatch::{refusal_status, run};
pub use in_memory::run_in_memory;
pub use laws::{
    answers_stay, ends_are_told, lines_are_cut, lines_are_obeyed, lines_are_written, merges_agree,
    plans_are_asked, replies_are_cut, states_stay_valid,
};
pub use planning::plan;
pub use words::{Mode, Plan, WordFault};
