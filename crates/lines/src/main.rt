// lines: lines read by known books, limits, and a service of many calls.
#![tactic(auto)]

mod answers;
mod books;
mod builds;
mod limits;
mod reads;
mod refusals;
mod service;

use std::io;

fn main(rt: HostRuntime) -> io::Result<()> {
    reads::reads(&rt)?;
    limits::limits(&rt)?;
    service::service(&rt)
}
