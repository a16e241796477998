// Runs the chain sheet on standard input over the cells behind it: writes a `10` line for each firing, then `11`, or `1F` and
// the number of the refusal.

#![tactic(auto)]

ghost use Rattle.std.specs.Prelude.{◌≤◌, length};
ghost use Rattle.program_writer.specs.Texts.{Within};
ghost use Rattle.program_laws.specs.Loops.{Supplied, RunDue};

use model::{BLOCK_PLACES, CELL_PLACES, ROW_NUMBERS, RUN_TEXT_PLACES, STORE_PLACES, WORD_PLACES};
use program_jobs::Job;
use std::io;
use std::io::{Read, Stdin};

// The job, and of the block at hand the first `len` bytes, from `at` on.
#[derive(Drop)]
struct Ready {
    job: Job,
    at: usize,
    len: usize,
}

// Reads, where the block is used up and nothing is left to do without more input.
fn supply(input: &mut Stdin, job: Job, at: usize, len: usize, block: &mut [u8]) -> Ready
    requires { len ≤ length block.old }
    ensures within { Within result.len block.new }
    ensures supplied { Supplied job at len block.old result.job result.at result.len block.new }
{
    if at != len {
        return Ready { job, at, len };
    }
    let stage = job.stage;
    let line = job.line;
    let v = line.verdict;
    if !program_stages::wants_input(stage, v) {
        return Ready { job, at, len };
    }
    match input.read(block) {
        Ok(n) => {
            let got = n as isize;
            Ready {
                job: program_jobs::after_read(job, got),
                at: 0,
                len: n,
            }
        }
        Err(_) => Ready {
            job: program_jobs::after_read(job, -1),
            at: 0,
            len: 0,
        },
    }
}

// Writes the text that is due where a turn leaves this job.
fn write_due(rt: &impl Print, job: Job, text: &[u8]) -> io::Result<()>
    requires { RunDue job text.now }
{
    rt.write_all(text)
}

// Where a read or a write fails, the program ends without a last line.
fn main(rt: HostRuntime) {
    let mut block = [0u8; BLOCK_PLACES];
    let mut rows = [0u32; ROW_NUMBERS];
    let mut store = [0u32; STORE_PLACES];
    let mut cells = [0u32; CELL_PLACES];
    let mut words = [0u32; WORD_PLACES];
    let mut text = [0u8; RUN_TEXT_PLACES];
    let mut job = program_jobs::begin();
    let mut at: usize = 0;
    let mut len: usize = 0;
    // A loop has to end, and nothing says that the input does: no run has so many turns.
    for _ in 0..u64::MAX {
        let stage = job.stage;
        if program_stages::is_over(stage) {
            return;
        }
        let s = supply(&mut rt.stdin(), job, at, len, &mut block);
        len = s.len;
        let ready = s.job;
        let t = program_driver::advance(
            ready,
            &block[..len],
            s.at,
            &mut rows,
            &mut store,
            &mut cells,
            &mut words,
            &mut text,
        );
        at = t.at;
        let next = t.job;
        job = next;
        let bytes = t.bytes;
        if write_due(&rt, next, &text[..bytes]).is_err() {
            return;
        }
    }
}
