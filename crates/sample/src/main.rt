// Does what `plan` and `run` do on the sheets that the file `list` names, with small buffers and the input cut into pieces of
// varying size, and compares the text with the one that is stored beside each sheet. It writes a line for each: its name, the
// last line of the text, and whether all of it is the same.

#![tactic(auto)]

mod files;
mod texts;

use std::io;
use std::rt::Files;

// Where the last line of the text starts.
fn last_line(text: &[u8]) -> usize {
    for i in (1..text.len()).rev() {
        if text[i - 1] == b'\n' {
            return i;
        }
    }
    0
}

// The last line, without its LF.
fn show_last(rt: &impl Print, text: &[u8]) -> io::Result<()> {
    let from = last_line(text);
    let line = sheet_frames::line(text, from);
    rt.write_all(line)
}

// Writes the line of one sheet, read in pieces of this size.
fn show(rt: &(impl Files + Print), name: [u8; 5], piece: usize) -> io::Result<bool> {
    let mut input = [0u8; 4096];
    let mut text = [0u8; 4096];
    let mut expected = [0u8; 4096];
    let n = files::read_in(rt, name, &mut input);
    let m = files::read_out(rt, name, &mut expected);
    let t = texts::text_of(name[0], &input[..n], piece, &mut text);
    rt.write_all(&name)?;
    print!(rt; " ")?;
    show_last(rt, &text[..t])?;
    if text[..t] == expected[..m] {
        println!(rt; " same")?;
        return Ok(true);
    }
    println!(rt; " differs")?;
    Ok(false)
}

fn main(rt: HostRuntime) -> io::Result<()> {
    let mut list = [0u8; 4096];
    let n = files::read_path(&rt, b"list", &mut list);
    let sheets = (n / 6).min(600);
    let mut differ: usize = 0;
    for i in 0..sheets {
        let at = 6 * i;
        let name = [
            list[at],
            list[at + 1],
            list[at + 2],
            list[at + 3],
            list[at + 4],
        ];
        if !show(&rt, name, i * 5 % 23 + 1)? {
            differ += 1;
        }
    }
    println!(rt; "{sheets} sheets, {differ} differ")
}
