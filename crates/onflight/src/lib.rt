// Status and times of the OnFlight log's frames, at the offsets of the paper's table, counted from the start of the frame.
#![tactic(auto)]

pub mod status;
pub mod time;
