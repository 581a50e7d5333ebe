//! Cases of partial loads in parts, over a tablet in memory: what happens between their look-up and their publishing.
//! Each line of the input is a call with its input, and the output has the line again with the answer behind it.
#![tactic(auto)]

mod opening;
mod partials;
mod rows;
mod tablets;
mod told;

use std::io;
use tablets::Tablets;

fn main(rt: HostRuntime) -> io::Result<()> {
    let mut tablets = Tablets::new(rt.alloc());
    for line in rt.lines(rt.alloc()) {
        let line = line?;
        if line.is_empty() || line.starts_with('#') {
            println!(rt; "{line}")?;
        } else {
            let told = tablets.answer(rt.alloc(), line.as_str())?;
            println!(rt; "{line} -> {told}")?;
        }
    }
    Ok(())
}
