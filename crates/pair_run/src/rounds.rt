// The raw chain's call in rounds: each lends it places for some firings, whose rows both kernels get.
ghost use Rattle.std.specs.Prelude.{◌≡◌, ◌≤◌, ◌<◌, length};
ghost use Rattle.pair_run.specs.Rounds.{is_full, recounted_by, with_counts, Prefix, Begin, Leaves, room_of, Buffered};

use crate::ports::{Port, give_both};
use model::{Chain, Counts, Outcome, Ran, Refusal, State};
use values::counts_of;

// The next clock would fire, and there are too few places.
fn is_full(a: Result<Outcome, Refusal>) -> bool
    ensures { result ≡ is_full a }
{
    matches!(a, Ok(Outcome::Full(_)))
}

// The same outcome with other counts.
fn recounted(o: Outcome, c: Counts) -> Outcome
    ensures { result ≡ recounted_by o c }
{
    match o {
        Outcome::Done(_) => Outcome::Done(c),
        Outcome::Spent(_) => Outcome::Spent(c),
        Outcome::Starved(_) => Outcome::Starved(c),
        Outcome::Stalled(_) => Outcome::Stalled(c),
        Outcome::Full(_) => Outcome::Full(c),
    }
}

fn with_counts(a: Result<Outcome, Refusal>, c: Counts) -> Result<Outcome, Refusal>
    ensures { result ≡ with_counts a c }
{
    Ok(recounted(a?, c))
}

// A run call over the cells from `taken` on, with the first `places` words of `batch` as its output.
fn piece(
    raw: Chain,
    rows: &[u32],
    state: State,
    store: &mut [u32],
    cells: &[u32],
    taken: usize,
    batch: &mut [u32],
    places: usize,
    left: u32,
) -> Ran
    requires { (taken ≤ length cells.now) × (places ≤ length batch.old) }
    ensures { Prefix result store.new batch.new places raw rows.now state store.old
        cells.now taken batch.old left }
{
    runner::run(
        raw,
        rows,
        state,
        store,
        &cells[taken..],
        &mut batch[..places],
        left,
    )
}

// The raw chain's call with places for `most` firings, in rounds of at most `block` firings. Where 10 or 11 turns it back, the
// first round is refused.
fn in_rounds(
    raw: Chain,
    rows: &[u32],
    n: usize,
    most: usize,
    block: usize,
    first: Port,
    second: Port,
    state0: State,
    store: &mut [u32],
    cells: &[u32],
    out: &mut [u32],
    other: &mut [u32],
    allowance: u32,
    batch: &mut [u32],
) -> Ran
    requires { Begin raw rows.now n most block first second (length out.old) (length other.old) (length batch.old)
        allowance }
    ensures { Leaves result raw rows.now most first second state0 store.old store.new
        cells.now out.old out.new other.old other.new allowance }
{
    let mut state = state0;
    let mut taken = 0;
    let mut clocks = 0u32;
    let mut fired = 0;
    // Which round is the last one shows in its own answer.
    loop {
        let few = block.min(most - fired);
        let places = few * n;
        let left = allowance - clocks;
        let ran = piece(raw, rows, state, store, cells, taken, batch, places, left);
        let answer = ran.answer;
        let c = counts_of(answer);
        let firings = c.firings as usize;
        give_both(first, second, n, batch, firings, fired, out, other);
        state = ran.state;
        taken += c.cells as usize;
        clocks += c.clocks;
        fired += firings;
        if !is_full(answer) || most <= fired {
            let all = Counts {
                cells: taken as u32,
                firings: fired as u32,
                clocks,
            };
            return Ran {
                answer: with_counts(answer, all),
                state,
            };
        }
    }
}

// How many firings both outputs have places for.
fn room(out: usize, other: usize, one: usize, two: usize) -> usize
    requires { (0 < one) × (0 < two) }
    ensures { result ≡ room_of out other one two }
{
    (out / one).min(other / two)
}

// All rounds, each of as many firings as have their rows in the batch.
fn in_batch(
    raw: Chain,
    rows: &[u32],
    n: usize,
    first: Port,
    second: Port,
    state: State,
    store: &mut [u32],
    cells: &[u32],
    out: &mut [u32],
    other: &mut [u32],
    allowance: u32,
    batch: &mut [u32],
) -> Ran
    requires { Buffered raw rows.now n first second (length batch.old) }
    ensures { Leaves result raw rows.now
        (room_of (length out.old) (length other.old) first.width second.width) first second state
        store.old store.new cells.now out.old out.new other.old
        other.new allowance }
{
    let most = room(out.len(), other.len(), first.width, second.width);
    let block = batch.len() / n;
    in_rounds(
        raw, rows, n, most, block, first, second, state, store, cells, out, other, allowance, batch,
    )
}

// Over a batch of 1,024 words, which are cleared sooner.
fn in_small(
    raw: Chain,
    rows: &[u32],
    n: usize,
    first: Port,
    second: Port,
    state: State,
    store: &mut [u32],
    cells: &[u32],
    out: &mut [u32],
    other: &mut [u32],
    allowance: u32,
) -> Ran
    requires { Buffered raw rows.now n first second 1024 }
    ensures { Leaves result raw rows.now
        (room_of (length out.old) (length other.old) first.width second.width) first second state
        store.old store.new cells.now out.old out.new other.old
        other.new allowance }
{
    let mut batch = [0u32; 1024];
    in_batch(
        raw, rows, n, first, second, state, store, cells, out, other, allowance, &mut batch,
    )
}

// Over a batch of 8,192 words, but where few cells are lent: a firing takes one.
pub(crate) fn in_buffer(
    raw: Chain,
    rows: &[u32],
    n: usize,
    first: Port,
    second: Port,
    state: State,
    store: &mut [u32],
    cells: &[u32],
    out: &mut [u32],
    other: &mut [u32],
    allowance: u32,
) -> Ran
    requires { Buffered raw rows.now n first second 1024 }
    ensures { Leaves result raw rows.now
        (room_of (length out.old) (length other.old) first.width second.width) first second state
        store.old store.new cells.now out.old out.new other.old
        other.new allowance }
{
    if cells.len() <= 1024 / n {
        return in_small(
            raw, rows, n, first, second, state, store, cells, out, other, allowance,
        );
    }
    let mut batch = [0u32; 8192];
    in_batch(
        raw, rows, n, first, second, state, store, cells, out, other, allowance, &mut batch,
    )
}
