// The program behind ./marks: reads standard input, up to 4,096 bytes, and writes to standard output what crate lines makes of them; or
// it says on standard error what it could not read or write, and ends with status 1.
#![tactic(auto)]

ghost use Rattle.std.specs.Prelude.{◌≡◌, length};
ghost use Rattle.lines.specs.Printed.{printed};
ghost use Rattle.marks.specs.Input.{Within};

use lines::{MOST_PRINTED, render};
use std::io::{self, ErrorKind, Read};
use std::process::ExitCode;

// 01: "reads standard input up to 4,096 bytes (a good batch has at most 2,816)".
const MOST_READ: usize = 4096;

// The status where nobody reads any more what is written: as of a program that SIGPIPE ends, of which there is no word either.
const NO_READER: u8 = 141;

// Reads until buf is full or the input ends, and says how many bytes. (std's read_exact takes a short input for a fault, and its
// read_to_end takes a Vec, which is on the heap.)
fn read_all<R: Read>(from: &mut R, buf: &mut [u8]) -> io::Result<usize>
    ensures { Within result (length buf.new) }
{
    let mut done = 0;
    while done < buf.len() {
        match from.read(&mut buf[done..])? {
            0 => break,
            more => done += more,
        }
    }
    Ok(done)
}

// The one write: what it is handed is what is printed of the bytes read.
fn write_lines(rt: &impl Print, text: &[u8], bytes: &[u8]) -> io::Result<()>
    requires { text.now ≡ printed bytes.now }
{
    rt.write_all(text)
}

fn run(rt: &impl Print, bytes: &[u8]) -> io::Result<()> {
    let mut out = [0u8; MOST_PRINTED];
    let end = render(bytes, &mut out);
    write_lines(rt, &out[..end], bytes)
}

fn say_unread(rt: &impl Eprint) {
    let _ = eprintln!(rt; "marks: standard input cannot be read");
}

fn say_unwritten(rt: &impl Eprint) {
    let _ = eprintln!(rt; "marks: standard output cannot be written");
}

fn main(rt: HostRuntime) -> ExitCode {
    let mut buf = [0u8; MOST_READ];
    let Ok(n) = read_all(&mut rt.stdin(), &mut buf) else {
        say_unread(&rt);
        return ExitCode::FAILURE;
    };
    match run(&rt, &buf[..n]) {
        Ok(()) => ExitCode::SUCCESS,
        Err(e) if e.kind() == ErrorKind::BrokenPipe => ExitCode::from(NO_READER),
        Err(_) => {
            say_unwritten(&rt);
            ExitCode::FAILURE
        }
    }
}
