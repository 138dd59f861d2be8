// Which entries are legal.
ghost use Rattle.std.specs.Prelude.{◌≡◌};
ghost use Rattle.entries.specs.Legality.{blit_legal, line_legal, cmd_legal, pctrl_legal, data_legal, entry_legal, legal_at};

use crate::decoding::entry_at;
use crate::fields::{Command, Opcode, command_of, pattern_length};

// Whether a BITBLT may have these fields, and whether a LINE or PLINE may.
fn legal_blit(c: Command) -> bool
    ensures { result ≡ blit_legal c }
{
    !c.nlst
        & !c.prst
        & (!c.trnsp | (c.stpl | c.solid))
        & (!c.key | !(c.stpl | c.solid))
        & (!c.apat | !(c.key | (c.stpl | c.solid)))
}

fn legal_line(c: Command) -> bool
    ensures { result ≡ line_legal c }
{
    !c.key & !c.from_virtual & !c.apat & (c.solid | c.stpl)
}

pub fn legal_cmd(word: u32) -> bool
    ensures { result ≡ cmd_legal word }
{
    let c = command_of(word);
    match c.opcode {
        Opcode::Noop => word == 0,
        Opcode::Blit => (word % 16384 == 0) & legal_blit(c),
        Opcode::Line | Opcode::Polyline => (word % 16384 == 0) & legal_line(c),
        Opcode::Unknown(_) => false,
    }
}

pub fn legal_pctrl(word: u32) -> bool
    ensures { result ≡ pctrl_legal word }
{
    let length = pattern_length(word);
    (word < 65536) & (word / 8192 % 8 <= word / 32 % 8) & (word / 256 % 32 < length)
}

// Kept: a register by its number, here and in fields.rt, as in Entry: `data_legal` judges every number.
// Whether a register may hold a word. FORE, BACK, MASK and KEY are registers 1 to 4; LPAT and the points hold any word.
pub fn legal_data(register: u32, word: u32) -> bool
    ensures { result ≡ data_legal register word }
{
    if register == 0 {
        return legal_cmd(word);
    }
    if register == 6 {
        return legal_pctrl(word);
    }
    if register <= 9 {
        return (4 < register) | (word < 256);
    }
    if register == 10 {
        return (word / 65536 <= 2048) & (word % 65536 <= 2048);
    }
    ((register == 11) & (word <= 3)) | (register == 12)
}

// Whether an entry is legal. It comes by its fields, which stay in machine registers.
pub fn legal_entry(register: u32, spare: u32, word: u32) -> bool
    ensures { result ≡ entry_legal (record { register = register; spare = spare; word = word }) }
{
    if spare != 0 {
        return false;
    }
    legal_data(register, word)
}

// Whether list memory has a legal entry at a place.
pub fn legal_at(list: &[u8], place: usize) -> bool
    ensures { result ≡ legal_at list.now place }
{
    match entry_at(list, place) {
        Some(e) => legal_entry(e.register, e.spare, e.word),
        None => false,
    }
}
