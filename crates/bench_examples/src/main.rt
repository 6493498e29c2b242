// The bench examples, asked of the services: for each a label, the record, and the terms. What is printed is compared with the stored output.
#![tactic(auto)]

mod ask;
mod lists;
mod run_only;
mod services;
mod table;

use std::io;

fn main(rt: HostRuntime) -> io::Result<()> {
    table::first_six(&rt)?;
    table::last_six(&rt)?;
    table::images(&rt)?;
    run_only::lists(&rt)?;
    run_only::swapped(&rt)?;
    run_only::skeletons_and_points(&rt)?;
    run_only::ceilings(&rt)?;
    run_only::rooms(&rt)?;
    run_only::quotients(&rt)?;
    run_only::images(&rt)?;
    services::arithmetic(&rt)?;
    services::arithmetic_refused(&rt)?;
    services::leading_parts(&rt)?;
    services::shorter_parts(&rt)
}
