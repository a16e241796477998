// What the programs write of an input that is at hand whole, cut into pieces.
ghost use Rattle.std.specs.Prelude.{◌≤◌, length};
ghost use Rattle.program_writer.specs.Texts.{Within};

use program_jobs::Job;

// Where the piece ends that starts at `at`.
fn piece_end(at: usize, piece: usize, len: usize) -> usize
    requires { at ≤ len }
    ensures { (at ≤ result) × (result ≤ len) }
{
    at + piece.min(len - at)
}

fn plan_text(input: &[u8], piece: usize, text: &mut [u8]) -> usize
    ensures { Within result text.new }
{
    let mut arriving = program_intake::open();
    let mut rows = [0u32; 1024];
    let mut at = 0;
    // Behind the last piece come empty ones, which change nothing.
    for _ in 0..input.len() {
        let end = piece_end(at, piece, input.len());
        arriving = program_intake::take_block(false, arriving, &mut rows, &input[at..end]);
        at = end;
    }
    program_answer::plan_answer(arriving, &rows, text)
}

// Lays `part` behind the first `done` characters of the text; as much of it as has places.
fn append(part: &[u8], text: &mut [u8], done: usize) -> usize
    requires { done ≤ length text.old }
    ensures { Within result text.new }
{
    let n = part.len().min(text.len() - done);
    text[done..done + n].copy_from_slice(&part[..n]);
    done + n
}

// The job, told of the end of the input where that is due.
fn supply(job: Job, at: usize, len: usize) -> Job {
    if at == len && program_stages::wants_input(job.stage, job.line.verdict) {
        return program_jobs::close_input(job);
    }
    job
}

fn run_text(input: &[u8], piece: usize, text: &mut [u8]) -> usize
    ensures { Within result text.new }
{
    let mut rows = [0u32; 1024];
    let mut store = [0u32; 16384];
    let mut cells = [0u32; 5];
    let mut words = [0u32; 40];
    let mut part = [0u8; 300];
    let mut job = program_jobs::begin();
    let mut at = 0;
    let mut done = 0;
    for _ in 0..100000u32 {
        if program_stages::is_over(job.stage) {
            return done;
        }
        let ready = supply(job, at, input.len());
        let end = piece_end(at, piece, input.len());
        let s = program_driver::advance(
            ready,
            &input[..end],
            at,
            &mut rows,
            &mut store,
            &mut cells,
            &mut words,
            &mut part,
        );
        at = s.at.min(input.len());
        done = append(&part[..s.bytes], text, done);
        job = s.job;
    }
    done
}

// The text of `plan`, where the sheet's name starts with a p, else that of `run`.
pub(crate) fn text_of(kind: u8, input: &[u8], piece: usize, text: &mut [u8]) -> usize
    ensures { Within result text.new }
{
    if kind == b'p' {
        return plan_text(input, piece, text);
    }
    run_text(input, piece, text)
}
