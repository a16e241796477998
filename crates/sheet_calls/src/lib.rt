// Sheets read whole and judged, and chains judged and written.

#![tactic(auto)]

ghost use Rattle.std.specs.Prelude.{◌≡◌};
ghost use Rattle.model_sheet.specs.Reading.{numbers_in, read_chain, read_request};
ghost use Rattle.model_sheet.specs.Writing.{write_of};
ghost use Rattle.sheet_writer.specs.Laying.{written};

use model::{Chain, Refusal, Request};
use values::request_of;

// The numbers on a sheet's first line, behind its row count: the rows of its grid, where it is skewed.
pub fn rows_of(text: &[u8]) -> [u32; 1024]
    ensures { result ≡ numbers_in text.now }
{
    sheet_frames::numbers_on(sheet_frames::line(text, 0))
}

// What a chain sheet gives: its chain, or the number that turns it back first.
pub fn read_chain(text: &[u8]) -> Result<Chain, Refusal>
    ensures { result ≡ read_chain text.now }
{
    let rows = rows_of(text);
    let s = sheet_reader::read_lines(true, &rows, text);
    s.verdict?;
    if !sheet_reader::is_complete(s.reading) {
        return Err(Refusal::Misplaced);
    }
    judging::judge_chain(s.reading.chain, &rows)?;
    Ok(s.reading.chain)
}

// What a request sheet gives: its request, or the number that turns it back first.
pub fn read_request(text: &[u8]) -> Result<Request, Refusal>
    ensures { result ≡ read_request text.now }
{
    let rows = rows_of(text);
    let s = sheet_reader::read_lines(false, &rows, text);
    s.verdict?;
    if !sheet_reader::is_complete(s.reading) {
        return Err(Refusal::Misplaced);
    }
    let request = request_of(s.reading.chain);
    planner::judge_request(request, &rows)?;
    Ok(request)
}

// The sheet of a chain into the lent output, and how many bytes it has, or why not: 3 (16 where it is skewed) to 9, 14 and 15
// of the chain, then 12. The rows of a skewed grid are lent beside it.
#[tactic(auto, using(crate::proofs::ReaderLaws::write_refused, sheet_writer::proofs::Written::laid_written))]
pub fn write_chain(c: Chain, rows: &[u32], out: &mut [u8]) -> Result<usize, Refusal>
    ensures { written result out.new ≡ write_of c rows.now out.old }
{
    judging::judge_chain(c, rows)?;
    sheet_writer::write_sheet(c, rows, out)
}
