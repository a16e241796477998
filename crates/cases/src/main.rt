// Cases 1 to 5 of document 01, the totals of the paper's Table 4, runs of a box and runs on skewed grids: the library's plans
// and runs, and every word of the runs compared with a plain nested loop.

#![tactic(auto)]

mod cells;
mod maps;
mod report;

use std::io;

fn main(rt: HostRuntime) -> io::Result<()> {
    let mut cells = [0u32; 786432];
    let mut out = [0u32; 786432];
    cells::fill(&mut cells);
    report::cases(&rt, &cells, &mut out)
}
