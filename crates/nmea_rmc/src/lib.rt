// Fields of NMEA sentences: RMC.
#![tactic(auto)]

mod angle;
pub mod rmc;
