// What the functions for C and Rust answer, as numbers.

#![tactic(auto)]

ghost use Rattle.std.specs.Prelude.{◌≡◌, Ok, Err};
ghost use Rattle.model.specs.Answers.{verdict_number};
ghost use Rattle.zohmirka_reports.specs.Reports.{sheet_report, report_of};

use model::{Counts, Outcome, Refusal};

// What planning answers C: a refusal's number or 0, and how many bytes of the sheet were written.
#[repr(C)]
#[derive(Clone, Copy)]
pub struct Sheet {
    pub refusal: u32,
    pub bytes: usize,
}

// What a run call answers C: a refusal's number or 0; the outcome, 0 Done, 1 Spent, 2 Starved, 3 Stalled, 4 Full, and 5 after a
// refusal; and the call's counts.
#[repr(C)]
#[derive(Clone, Copy)]
pub struct Report {
    pub refusal: u32,
    pub outcome: u32,
    pub cells: u32,
    pub firings: u32,
    pub clocks: u32,
}

// A verdict's number, 0 where it accepts.
#[tactic(auto, unfolding(model::specs::Answers::verdict_number))]
pub fn number(v: Result<(), Refusal>) -> u32
    ensures { result ≡ verdict_number v }
{
    match v {
        Ok(()) => 0,
        Err(r) => u32::from(u8::from(r)),
    }
}

// What a call answers that wrote so many bytes of a sheet, or was refused.
#[tactic(auto, unfolding(model::specs::Answers::verdict_number))]
pub fn written(wrote: Result<usize, Refusal>) -> Sheet
    ensures { result ≡ sheet_report wrote }
{
    match wrote {
        Ok(bytes) => Sheet { refusal: 0, bytes },
        Err(x) => Sheet {
            refusal: number(Err(x)),
            bytes: 0,
        },
    }
}

// The report of a run call that was refused, and of one that ended.
pub fn refused(x: Refusal) -> Report
    ensures { result ≡ report_of (Err x) }
{
    Report {
        refusal: number(Err(x)),
        outcome: 5,
        cells: 0,
        firings: 0,
        clocks: 0,
    }
}

fn counted(outcome: u32, c: Counts) -> Report
    ensures { result ≡ record { refusal = 0; outcome = outcome; cells = c.cells; firings = c.firings; clocks = c.clocks } }
{
    Report {
        refusal: 0,
        outcome,
        cells: c.cells,
        firings: c.firings,
        clocks: c.clocks,
    }
}

pub fn ended(o: Outcome) -> Report
    ensures { result ≡ report_of (Ok o) }
{
    match o {
        Outcome::Done(c) => counted(0, c),
        Outcome::Spent(c) => counted(1, c),
        Outcome::Starved(c) => counted(2, c),
        Outcome::Stalled(c) => counted(3, c),
        Outcome::Full(c) => counted(4, c),
    }
}
