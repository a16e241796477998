// Skewed grids for the cases: rows as their starts and lengths, at most 200 of them, and their cells laid into the rectangle
// around them, where the nested loop reads.
use numbers::number_at;

// The rectangle around every map has so many columns.
pub(crate) const COLUMNS: usize = 300;

// 200 rows of 100 cells, each a column further on than the one above.
pub(crate) fn slanted(rows: &mut [u32; 400]) {
    for i in 0..200u32 {
        let k = 2 * (i as usize);
        rows[k] = i;
        rows[k + 1] = 100;
    }
}

// 40 rows whose starts and lengths vary.
pub(crate) fn torn(rows: &mut [u32; 400]) {
    for i in 0..40u32 {
        let k = 2 * (i as usize);
        rows[k] = i * 31 % 17;
        rows[k + 1] = i * 47 % 37 + 3;
    }
}

// Whether place q of the rectangle is a cell.
fn is_cell(rows: &[u32; 400], q: usize) -> bool {
    let y = q / COLUMNS;
    let x = q % COLUMNS;
    let start = number_at(rows, 2 * y) as usize;
    let length = number_at(rows, 2 * y + 1) as usize;
    start <= x && x - start < length
}

// The stream laid into the rectangle, and 1 at each place that is a cell, else 0.
pub(crate) fn lay(
    rows: &[u32; 400],
    cells: &[u32],
    field: &mut [u32; 60000],
    inside: &mut [u32; 60000],
) {
    let mut next = 0;
    for q in 0..60000 {
        let cell = is_cell(rows, q);
        inside[q] = cell as u32;
        if cell && next < cells.len() {
            field[q] = cells[next];
            next += 1;
        }
    }
}
