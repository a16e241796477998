// The files of the data folder.
ghost use Rattle.program_writer.specs.Texts.{Within};

use std::fs::File;
use std::io::Read;
use std::rt::Files;
use std::str;

// Reads until `into` is full, the file ends or a read fails: how many bytes it put there.
fn read_full(file: &mut impl Read, into: &mut [u8]) -> usize
    ensures { Within result into.new }
{
    let mut done = 0;
    // A read may put fewer bytes there than there is room for.
    while done < into.len() {
        match file.read(&mut into[done..]) {
            Ok(0) => break,
            Ok(n) => done += n,
            Err(_) => break,
        }
    }
    done
}

// How many bytes of the file were read: 0 where it cannot be.
pub(crate) fn read_path(rt: &impl Files, path: &[u8], into: &mut [u8]) -> usize
    ensures { Within result into.new }
{
    let Ok(path) = str::from_utf8(path) else {
        return 0;
    };
    let Ok(mut file) = File::open(rt, path) else {
        return 0;
    };
    read_full(&mut file, into)
}

pub(crate) fn read_in(rt: &impl Files, name: [u8; 5], into: &mut [u8]) -> usize
    ensures { Within result into.new }
{
    let path = [
        name[0], name[1], name[2], name[3], name[4], b'.', b'i', b'n',
    ];
    read_path(rt, &path, into)
}

pub(crate) fn read_out(rt: &impl Files, name: [u8; 5], into: &mut [u8]) -> usize
    ensures { Within result into.new }
{
    let path = [
        name[0], name[1], name[2], name[3], name[4], b'.', b'o', b'u', b't',
    ];
    read_path(rt, &path, into)
}
