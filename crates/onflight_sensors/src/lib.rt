// What the sensors of an OnFlight frame measured, at the offsets of the paper's table, counted from the start of the frame.
#![tactic(auto)]

pub mod position;
pub mod ratio;
pub mod sensor;
