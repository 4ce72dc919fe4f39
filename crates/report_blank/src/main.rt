// Prints the report of a blank log of two sectors.
#![tactic(auto)]

use std::io;

fn main(rt: HostRuntime) -> io::Result<()> {
    let log = [0u8; 1024];
    let mut text = [0u8; 128];
    let Ok(n) = report::report(&log, &mut text) else {
        return Ok(());
    };
    rt.write_all(&text[..n])
}
