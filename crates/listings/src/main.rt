// The two printed listings of document 01, with the line that document 02 adds: the library's plan and run of a grid of 5 cells.

#![tactic(auto)]

use case_runs::fresh;
use model::{Chain, Outcome, Refusal};
use std::io;

// A number as four bytes of a sheet.
fn bytes(rt: &impl Print, x: u32) -> io::Result<()> {
    print!(rt; "{x:08X}")
}

fn firing(rt: &impl Print, index: u32, first: u32, second: u32) -> io::Result<()> {
    print!(rt; "10")?;
    bytes(rt, index)?;
    bytes(rt, first)?;
    bytes(rt, second)?;
    println!(rt)
}

fn last(rt: &impl Print, clocks: u32) -> io::Result<()> {
    print!(rt; "1100")?;
    bytes(rt, clocks)?;
    println!(rt)
}

// The run of a chain of two references on cells 1 to 5, as the program `run` would write it.
fn run(rt: &impl Print, chain: Chain) -> io::Result<()> {
    let cells = [1u32, 2, 3, 4, 5];
    let mut store = [0u32; 3];
    let mut out = [0u32; 4];
    let r = runner::run(chain, &[], fresh(), &mut store, &cells, &mut out, 100);
    let answer = r.answer;
    if let Ok(o) = answer {
        if let Outcome::Done(c) = o {
            if c.firings == 2 {
                firing(rt, 0, out[0], out[1])?;
                firing(rt, 1, out[2], out[3])?;
                last(rt, c.clocks)?;
            }
        }
    }
    Ok(())
}

// The chain as a sheet.
fn sheet(rt: &impl Print, chain: Chain) -> io::Result<()> {
    let mut text = [0u8; 256];
    let n = sheet_calls::write_chain(chain, &[], &mut text).unwrap_or(0);
    if n <= 256 {
        rt.write_all(&text[..n])?;
    }
    Ok(())
}

fn main(rt: HostRuntime) -> io::Result<()> {
    let Ok(request) = sheet_calls::read_request(b"010100000005\n020000\n020003\n0400\n") else {
        return Ok(());
    };
    let Ok(chain) = planner::plan(request, &[]) else {
        return Ok(());
    };
    println!(rt; "the listing of plan")?;
    sheet(&rt, chain)?;
    println!(rt; "the listing of run")?;
    run(&rt, chain)
}
