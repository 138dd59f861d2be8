// Document 01's example of two lists: one list posted twice and a third time, run in pieces, with a store into its entries
// before and after it has ended. After the run of 9 steps the first of the two has ended and the second is active.

#![tactic(auto)]

use answers::Heard;
use board::{Answer, Board};
use slots::Slot;
use std::io;

fn print_slot(rt: &impl Print, name: &str, s: Slot) -> io::Result<()> {
    let list = s.span;
    if s.taken {
        print!(rt; "{name}{}+{}", list.start, list.count)
    } else {
        print!(rt; "{name}free")
    }
}

// The answer and the steps; then the active list as start+count with its next entry, and the pending list.
fn tell(rt: &impl Print, call: &str, a: Answer) -> io::Result<()> {
    let active = a.board.active;
    print!(rt; "{call}{} steps {}", a.status.number(), a.status.steps())?;
    print_slot(rt, " active ", active.slot())?;
    print!(rt; " next {}", active.cursor.next)?;
    print_slot(rt, " pending ", a.board.pending)?;
    println!(rt;)
}

fn main(rt: HostRuntime) -> io::Result<()> {
    let mut list = [0u8; 20480];
    let entry = [8u8, 0, 0, 0, 7];
    let mut display = [0u8; 32];
    let mut virt = [0u8; 32];
    // FORE 7; a solid LINE with raster code 3; XY0 (0, 0); XY1 (4, 2)
    list[0] = 8;
    list[4] = 7;
    list[6] = 35;
    list[7] = 128;
    list[10] = 72;
    list[15] = 96;
    list[17] = 4;
    list[19] = 2;
    let made = Board::make(8, 4, 4096);
    let b0 = made.board;
    let a1 = b0.post(&list, 0, 4);
    tell(&rt, "post ", a1)?;
    let b1 = a1.board;
    let a2 = b1.post(&list, 0, 4);
    tell(&rt, "post ", a2)?;
    let b2 = a2.board;
    let a3 = b2.post(&list, 0, 4);
    tell(&rt, "post ", a3)?;
    let b3 = a3.board;
    let a4 = b3.run(9, &list, &mut display, &mut virt);
    tell(&rt, "run ", a4)?;
    let b4 = a4.board;
    let a5 = b4.run(3, &list, &mut display, &mut virt);
    tell(&rt, "run ", a5)?;
    let b5 = a5.board;
    let a6 = b5.store(&mut list, 0, &entry);
    tell(&rt, "store ", a6)?;
    let b6 = a6.board;
    let a7 = b6.run(100, &list, &mut display, &mut virt);
    tell(&rt, "run ", a7)?;
    let b7 = a7.board;
    let a8 = b7.store(&mut list, 0, &entry);
    tell(&rt, "store ", a8)
}
