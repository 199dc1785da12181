// A frame of every kind, written into an output buffer and read back; gyro numbers, written and read back; and what the writers
// refuse. The file `stdout`, with which the output is compared, was not made by this program: the frames were put together with
// Python's struct and zlib.
#![tactic(auto)]

mod bytes;
mod gyros;
mod limits;
mod mgl_trips;
mod nmea_trips;
mod onflight_trips;
mod refusals;

use std::io;

fn main(rt: HostRuntime) -> io::Result<()> {
    let mut to = rt.stdout();
    mgl_trips::trips(&mut to)?;
    onflight_trips::trips(&mut to)?;
    nmea_trips::trips(&mut to)?;
    limits::all(&mut to)?;
    gyros::trips(&mut to)?;
    refusals::all(&mut to)
}
