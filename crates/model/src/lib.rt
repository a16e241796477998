// The types of the reuse chain. Their meaning stands in specs/, in the terms of document 01.

#![tactic(auto)]

ghost use Rattle.std.specs.Prelude.{◌≡◌};
ghost use Rattle.model.specs.Answers.{number_of};

// Cells that passed a filter's splitter: its input counter.
#[derive(Clone, Copy)]
pub struct CellsPassed(pub u32);

// Firings made: the output counter, one for all filters.
#[derive(Clone, Copy)]
pub struct FiringsMade(pub u32);

// A grid: a rectangle by its first `dims` sizes, slowest dimension first; where it is skewed, `rows` rows, which are lent
// beside it, each by its start and its length. No enum of the two: `PastCounts` speaks of what plays no part, too.
#[derive(Clone, Copy)]
pub struct Grid {
    pub skewed: bool,
    pub rows: u32,
    pub dims: u8,
    pub sizes: [u32; 4],
}

// A window of `count` references. Entry d of reference k's offset is offsets[4 * k + d].
#[derive(Clone, Copy)]
pub struct Window {
    pub count: u8,
    pub offsets: [i16; 128],
}

// An offset of a window that has a name, by its entries; of a window of two dimensions the third is 0.
#[derive(Clone, Copy)]
pub struct Triple(pub i16, pub i16, pub i16);

// The two factors of a blend.
#[derive(Clone, Copy)]
pub struct Factors {
    pub a: f32,
    pub b: f32,
}

#[derive(Clone, Copy)]
pub enum Kernel {
    Raw,
    Difference,
    Scaled(f32),
    Blend(Factors),
}

// A smaller box: whether its line stood, and where it did, in each of the grid's dimensions the lowest and the highest index
// of the iterations. No Option: `PastCounts` speaks of what stands beside a box that does not stand.
#[derive(Clone, Copy)]
pub struct Bounds {
    pub stood: bool,
    pub lowest: [i32; 4],
    pub highest: [i32; 4],
}

// One of two kernels on one chain: its own window, whose references are in its author's order, and the kernel.
#[derive(Clone, Copy)]
pub struct Side {
    pub window: Window,
    pub kernel: Kernel,
}

// What is to be planned.
#[derive(Clone, Copy)]
pub struct Request {
    pub grid: Grid,
    pub window: Window,
    pub bounds: Bounds,
    pub kernel: Kernel,
}

// The author's order of terms: whether its line stood, and where it did, filters[t] is the filter that holds the author's
// reference t. No Option, as with Bounds.
#[derive(Clone, Copy)]
pub struct Order {
    pub stood: bool,
    pub filters: [u8; 32],
}

// A chain: reference k of the window is filter k's; FIFO k, between filters k and k + 1, has capacities[k] places.
#[derive(Clone, Copy)]
pub struct Chain {
    pub grid: Grid,
    pub window: Window,
    pub bounds: Bounds,
    pub capacities: [u32; 31],
    pub order: Order,
    pub kernel: Kernel,
}

// Where a run stands. Counters past the chain's references play no part.
#[derive(Clone, Copy)]
pub struct State {
    pub passed: [CellsPassed; 32],
    pub fired: FiringsMade,
}

// What one call did.
#[derive(Clone, Copy)]
pub struct Counts {
    pub cells: u32,
    pub firings: u32,
    pub clocks: u32,
}

// How a call that is not refused ends.
#[derive(Clone, Copy)]
pub enum Outcome {
    Done(Counts),
    Spent(Counts),
    Starved(Counts),
    Stalled(Counts),
    Full(Counts),
}

// The byte of the `11` line, for the outcomes in which a run of the program ends.
pub const DONE_BYTE: u8 = 0;

pub const STALLED_BYTE: u8 = 1;

pub const STARVED_BYTE: u8 = 2;

// The most cells of a grid, references of a window, rows of a skewed grid, and places of all FIFOs together.
pub const MOST_CELLS: usize = 1048576;

pub const MOST_REFERENCES: u8 = 32;

pub const MOST_ROWS: u32 = 512;

pub const MOST_PLACES: usize = 16384;

// A start and a length of each of the most rows.
pub const ROW_NUMBERS: usize = 2 * MOST_ROWS as usize;

// Why input is turned back, from number 1 to 16.
#[derive(Clone, Copy)]
pub enum Refusal {
    Malformed,
    Misplaced,
    BadGrid,
    BadCount,
    EqualOffsets,
    NoIteration,
    NoCentre,
    BadFactor,
    TooLarge,
    ShortStore,
    BadState,
    ShortOutput,
    BadName,
    BadOrder,
    BadBox,
    BadRows,
}

// The number of a refusal.
impl From<Refusal> for u8 {
    #[tactic(auto, unfolding(crate::specs::Answers::number_of))]
    fn from(x: Refusal) -> u8
        ensures { result ≡ number_of x }
    {
        match x {
            Refusal::Malformed => 1,
            Refusal::Misplaced => 2,
            Refusal::BadGrid => 3,
            Refusal::BadCount => 4,
            Refusal::EqualOffsets => 5,
            Refusal::NoIteration => 6,
            Refusal::NoCentre => 7,
            Refusal::BadFactor => 8,
            Refusal::TooLarge => 9,
            Refusal::ShortStore => 10,
            Refusal::BadState => 11,
            Refusal::ShortOutput => 12,
            Refusal::BadName => 13,
            Refusal::BadOrder => 14,
            Refusal::BadBox => 15,
            Refusal::BadRows => 16,
        }
    }
}

// What the three steps of planning give (document 003, section 3.3), of a grid, a window and a box that 3 to 6 and 15 let
// pass.
#[derive(Clone, Copy)]
pub struct Steps {
    // The offsets sorted, and for each of the author's references the filter that holds it.
    pub window: Window,
    pub filters: [u8; 32],
    // The reuse distances of neighbours.
    pub distances: [u32; 31],
    // Their sum.
    pub total: u64,
}

// What a run call answers: how it ended, or why it is turned back; and the state that is left.
#[derive(Clone, Copy)]
pub struct Ran {
    pub answer: Result<Outcome, Refusal>,
    pub state: State,
}

// The types of the sheet.

// How many bytes of a line are kept: of the lines that are accepted only an `09` line has as many.
pub const KEPT: usize = 40;

// A line decoded as its characters arrive: the bytes that are kept, 0 past its end; how many it has, counted no further than
// one past the longest `09` line; whether every character was a digit; and the digit of a byte that is not whole yet.
#[derive(Clone, Copy)]
pub struct Frame {
    pub first: [u8; KEPT],
    pub len: usize,
    pub sound: bool,
    pub upper: Option<u8>,
}

// Which of a sheet's lines stood last: none, the grid's (`01` or `09`), or an `02`, `07`, `08`, `03`, `06` or `04` line.
#[derive(Clone, Copy)]
pub enum Last {
    Nothing,
    Grid,
    Offset,
    Name,
    Box,
    Capacity,
    Order,
    Kernel,
}

// Where the reading of a sheet stands: what stood last; how many `03` lines were read; and the chain that holds what was read.
#[derive(Clone, Copy)]
pub struct Reading {
    pub last: Last,
    pub given: u8,
    pub chain: Chain,
}

// What reading one line answers; where it refuses, the reading stays as it was. No Result, here and where lines arrive:
// `AsItArrives` says which reading stands when a line is turned back.
#[derive(Clone, Copy)]
pub struct LineStep {
    pub verdict: Result<(), Refusal>,
    pub reading: Reading,
}

// Where the reading of a sheet stands as its characters arrive: the verdict on the last line that was read, what was read,
// and the line that is open, with whether it has a character.
#[derive(Clone, Copy)]
pub struct Arriving {
    pub verdict: Result<(), Refusal>,
    pub reading: Reading,
    pub frame: Frame,
    pub begun: bool,
}

// The same where cells are read.
#[derive(Clone, Copy)]
pub struct CellLine {
    pub verdict: Result<(), Refusal>,
    pub frame: Frame,
    pub begun: bool,
}

// Places of the buffers of the programs (specs/Programs.antt): of each the block of input, of `plan` its text, of `run` the
// store, cells, output words and text.
pub const BLOCK_PLACES: usize = 65536;

pub const PLAN_TEXT_PLACES: usize = 8192;

pub const STORE_PLACES: usize = MOST_PLACES;

pub const CELL_PLACES: usize = 6144;

pub const WORD_PLACES: usize = 8192;

pub const RUN_TEXT_PLACES: usize = 155648;
