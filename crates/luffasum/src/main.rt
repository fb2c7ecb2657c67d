// The digest program: reads standard input to its end and prints four lines, one for each code from 1 to 4: code, message bytes, digest
// (document 01). What is fed and what is printed is luffasum_lines'; here stand the reading and the writing, of which no contract can speak.
#![tactic(auto)]

use luffasum_lines::{End, Records};
use std::io;
use std::io::{ErrorKind, Read, Write};

// How much one read takes at most.
const PIECE: usize = 65536;

// What is told where output is lost. The exit status is 0 there too: the manual page has the reader look at what was printed.
const LOST: &[u8] = b"luffasum: the lines could not be written\n";

// Reads to the end and feeds what comes, and answers how the reading ended and what is then held. A read that a signal broke off before it moved
// a byte is made again.
fn run(input: &mut impl Read, buf: &mut [u8]) -> (End, Records) {
    let mut r = luffasum_lines::start();
    // A proved loop has to end, and nothing says that the input does: the turns count to a number that no run uses up.
    for _ in 0..u64::MAX {
        match input.read(buf) {
            Ok(0) => return (End::Whole, r),
            Ok(n) => {
                luffasum_lines::feed(&mut r, &buf[..n]);
                // refused: what is printed no longer depends on what follows
                if r.fed.is_err() {
                    return (End::Failed, r);
                }
            }
            Err(e) => {
                if e.kind() != ErrorKind::Interrupted {
                    return (End::Failed, r);
                }
            }
        }
    }
    (End::Failed, r)
}

// Prints what is to be printed at the reading's end, whole: write_all makes a write that a signal broke off again.
fn say(end: End, r: Records, output: &mut impl Write) -> io::Result<()> {
    let mut out = [0u8; luffasum_lines::ROOM];
    let n = luffasum_lines::print(end, &r, &mut out);
    output.write_all(&out[..n])
}

fn main(rt: HostRuntime) {
    let mut buf = [0u8; PIECE];
    let (end, r) = run(&mut rt.stdin(), &mut buf);
    if say(end, r, &mut rt.stdout()).is_err() {
        let _ = rt.stderr().write_all(LOST);
    }
}
