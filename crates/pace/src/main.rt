// pace [times]: reads long lines, and prints what came of it; with a word behind it, how fast they are read.
#![tactic(auto)]

mod lines;
mod reads;

use std::{env, io};

fn main(rt: HostRuntime) -> io::Result<()> {
    let mut words = env::args(&rt)?;
    let _ = words.next();
    if words.next().is_some() {
        return reads::reads(&rt, reads::time);
    }
    reads::reads(&rt, reads::show)
}
