// Document 01's program: entries on standard input are posted on a zeroed 8 by 4 board and run; the answer, the steps and
// the display's rows are printed.

#![tactic(auto)]

ghost use Rattle.std.specs.Io.{ReadsAtMost};

use answers::{Heard, Refusal};
use board::{Answer, Board};
use std::io;
use std::io::Read;

// The call that refuses the input, or the run. `more` is what follows the first 20,480 bytes.
fn draw(list: &[u8], read: usize, more: usize, display: &mut [u8], virt: &mut [u8]) -> Answer {
    let made = Board::make(8, 4, 4096);
    if (0 < more) | (read % 5 != 0) {
        return Answer {
            status: Err(Refusal::WrongSize),
            board: made.board,
        };
    }
    let posted = made.board.post(list, 0, read / 5);
    match posted.status {
        Ok(_) => posted.board.run(1000000, list, display, virt),
        Err(_) => posted,
    }
}

// Reads until the buffer is full or the input ends, and returns how many bytes that were.
fn read_full<R: Read>(input: &mut R, buffer: &mut [u8]) -> io::Result<usize>
    ensures { ReadsAtMost result buffer.new }
{
    let mut read = 0;
    // Kept: no plainer as a `for`: a turn adds what one read gave.
    while read < buffer.len() {
        let n = input.read(&mut buffer[read..])?;
        if n == 0 {
            break;
        }
        read += n;
    }
    Ok(read)
}

fn print_answer(rt: &impl Print, a: Answer) -> io::Result<()> {
    let state = if a.board.active.taken {
        "paused"
    } else {
        "idle"
    };
    println!(rt;
        "answer {} steps {} {state}",
        a.status.number(),
        a.status.steps()
    )
}

// Each pixel in two upper-case hexadecimal digits, a line to each row.
fn print_picture(rt: &impl Print, display: &[u8; 32]) -> io::Result<()> {
    for (k, pixel) in display.iter().enumerate() {
        let end = if k % 8 == 7 { '\n' } else { ' ' };
        print!(rt; "{pixel:02X}{end}")?;
    }
    Ok(())
}

fn main(rt: HostRuntime) -> io::Result<()> {
    let mut list = [0u8; 20480];
    let mut rest = [0u8; 1];
    let mut display = [0u8; 32];
    let mut virt = [0u8; 32];
    let mut input = rt.stdin();
    let read = read_full(&mut input, &mut list)?;
    let more = read_full(&mut input, &mut rest)?;
    let answer = draw(&list, read, more, &mut display, &mut virt);
    print_answer(&rt, answer)?;
    print_picture(&rt, &display)
}
