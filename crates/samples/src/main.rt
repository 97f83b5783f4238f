// Runs document 01's samples through the library, and prints a line each. What must be printed stands in `stdout`, which was derived
// from the document and not from a run.
#![tactic(auto)]

mod rows;
mod shortcuts;
mod shown;

use std::io;

fn main(rt: HostRuntime) -> io::Result<()> {
    rows::two_cells(&rt)?;
    rows::imports(&rt)?;
    rows::ir_versions(&rt)?;
    rows::nested(&rt)?;
    shortcuts::own_result(&rt)?;
    shortcuts::wire_order(&rt)?;
    shortcuts::branches(&rt)?;
    shortcuts::defaults(&rt)?;
    shortcuts::prefixes(&rt)
}
