// Many steps of one display list.
// Kept: no plainer as one parameter: a command draws on one of the buffers and reads the other, so `visit_on` takes the two apart.
ghost use Rattle.std.specs.Prelude.{◌≡◌, true, false, cond, ◌/◌, ◌<◌, length};
ghost use Rattle.entries.specs.Layout.{word_at};
ghost use Rattle.entries.specs.Legality.{data_legal};
ghost use Rattle.commands.specs.Entering.{writes, put_of};
ghost use Rattle.leaps.specs.Leaps.{with_tile, buffers_fit, AtOnce};
ghost use Rattle.leaps.specs.ListRuns.{Runs, BurstDone, Taken, EntryDone, EntriesRun, Unheld, ListRan};

use crate::hatched::{Burst, area, visit_up_to};
use crate::visits::visit_on;
use commands::Engine;
use entries::{command_of, legal_data, word_at};
use geometry::Extent;
use lists::Cursor;

// Steps of a list: the engine and the list after them.
#[derive(Clone, Copy)]
pub struct Progress {
    pub engine: Engine,
    pub cursor: Cursor,
    pub steps: u64,
}

// An entry's word in its register, if it is legal there, and whether it is.
// Kept: the register by its number, a constant in each arm of `take_entry`, as `legal_data` and `put` take it.
fn put_at(e: &mut Engine, number: u32, list: &[u8], place: usize) -> bool
    ensures legal { result ≡ data_legal number (word_at list.now place) }
    ensures put { e.new ≡ cond result (put_of e.old number (word_at list.now place)) e.old }
{
    let word = word_at(list, place);
    if !legal_data(number, word) {
        return false;
    }
    *e = e.put(number, word);
    true
}

// Pixels of the command under way at once, as many as the budget allows, on the buffer that it draws on: how many. None of one
// that is visited otherwise.
#[inline(always)]
#[tactic(auto, unfolding(crate::specs::Leaps::buffers_fit))]
fn visit_at_once(
    e: &mut Engine,
    extent: Extent,
    budget: u64,
    display: &mut [u8],
    virt: &mut [u8],
) -> u64
    requires { (e.old.under_way ≡ true) × (buffers_fit extent (length display.old) (length virt.old) ≡ true) }
    ensures { AtOnce budget extent e.old display.old virt.old result e.new display.new virt.new }
{
    if command_of(e.registers.cmd).to_virtual {
        visit_on(e, extent, budget, virt, display)
    } else {
        visit_on(e, extent, budget, display, virt)
    }
}

// A word in the register that triggers, and pixels of the command at once, as many as the budget allows: how many.
#[inline(always)]
fn trigger(
    e: &mut Engine,
    extent: Extent,
    word: u32,
    budget: u64,
    display: &mut [u8],
    virt: &mut [u8],
) -> u64
    requires { buffers_fit extent (length display.old) (length virt.old) ≡ true }
    ensures { Taken budget extent e.old (writes 12 word) display.old virt.old result e.new display.new virt.new }
{
    *e = e.begin(word);
    if e.under_way {
        visit_at_once(e, extent, budget, display, virt)
    } else {
        0
    }
}

// The entry at a place, with pixels of the command that it triggers: how many, or None of an illegal entry. An entry's first byte
// has its register above three zeros: there is an arm for each, so that a run chooses by the register once.
// Kept: the arms: one for all registers takes twice the instructions (docs/DECISIONS.md).
#[inline(always)]
fn take_entry(
    e: &mut Engine,
    extent: Extent,
    budget: u64,
    list: &[u8],
    place: usize,
    display: &mut [u8],
    virt: &mut [u8],
) -> Option<u64>
    requires { (place < length list.now / 5) × (buffers_fit extent (length display.old) (length virt.old) ≡ true) }
    ensures { EntryDone list.now extent budget place e.old display.old virt.old result e.new display.new virt.new }
{
    let legal = match list[5 * place] {
        0 => put_at(e, 0, list, place),
        8 => put_at(e, 1, list, place),
        16 => put_at(e, 2, list, place),
        24 => put_at(e, 3, list, place),
        32 => put_at(e, 4, list, place),
        40 => put_at(e, 5, list, place),
        48 => put_at(e, 6, list, place),
        56 => put_at(e, 7, list, place),
        64 => put_at(e, 8, list, place),
        72 => put_at(e, 9, list, place),
        80 => put_at(e, 10, list, place),
        88 => put_at(e, 11, list, place),
        96 => {
            return Some(trigger(e, extent, word_at(list, place), budget, display, virt));
        }
        _ => false,
    };
    legal.then_some(0)
}

// Entries, and the commands that they trigger, up to one that is left under way.
fn run_entries(
    start: Engine,
    extent: Extent,
    cursor: Cursor,
    budget: u64,
    list: &[u8],
    display: &mut [u8],
    virt: &mut [u8],
) -> Progress
    requires { (start.under_way ≡ false) × Runs extent cursor display.old virt.old }
    ensures { EntriesRun list.now extent budget cursor (with_tile extent start display.old virt.old) result display.new virt.new }
{
    let s = cursor.span;
    let end = s.end().min(list.len() / 5);
    let mut e = start;
    let mut c = cursor;
    let mut k: u64 = 0;
    // Kept: no plainer as a `for`, since a turn adds its visits to k.
    while (k < budget) & ((c.next as usize) < end) {
        let place = c.next as usize;
        let Some(visits) = take_entry(&mut e, extent, budget - k - 1, list, place, display, virt)
        else {
            break;
        };
        c.next += 1;
        k += visits + 1;
        if e.under_way {
            break;
        }
    }
    Progress {
        engine: e,
        cursor: c,
        steps: k,
    }
}

// Pixels of the command under way, as many as the budget allows, at once where it goes so; none of a fill with a tile that the
// budget cuts.
#[inline(always)]
fn visit_some(e: Engine, extent: Extent, budget: u64, display: &mut [u8], virt: &mut [u8]) -> Burst
    requires { (e.under_way ≡ true) × (0 < budget) × (buffers_fit extent (length display.old) (length virt.old) ≡ true) }
    ensures { BurstDone budget extent e display.old virt.old result display.new virt.new }
{
    let mut after = e;
    let steps = visit_at_once(&mut after, extent, budget, display, virt);
    if steps == 0 {
        return visit_up_to(e, extent, budget, display, virt);
    }
    Burst {
        engine: after,
        steps,
    }
}

// The steps of a list whose end fits 32 bits. They end before a fill with a tile that the budget cuts: no tile is held here.
fn run_unheld(
    start: Engine,
    extent: Extent,
    cursor: Cursor,
    budget: u64,
    list: &[u8],
    display: &mut [u8],
    virt: &mut [u8],
) -> Progress
    requires { Runs extent cursor display.old virt.old }
    ensures { Unheld list.now extent budget cursor (with_tile extent start display.old virt.old) result display.new virt.new }
{
    let mut e = start;
    let mut c = cursor;
    let mut k: u64 = 0;
    // Kept: no plainer as a `for`, since a turn adds its steps to k.
    while k < budget {
        if e.under_way {
            let b = visit_some(e, extent, budget - k, display, virt);
            e = b.engine;
            k += b.steps;
            if b.steps == 0 {
                break;
            }
        } else {
            let r = run_entries(e, extent, c, budget - k, list, display, virt);
            e = r.engine;
            c = r.cursor;
            k += r.steps;
            if !e.under_way {
                break;
            }
        }
    }
    Progress {
        engine: e,
        cursor: c,
        steps: k,
    }
}

// Whether both buffers have that extent, with no more rows than coordinates reach.
#[tactic(auto, unfolding(crate::specs::Leaps::buffers_fit))]
fn buffers_fit(extent: Extent, display: usize, virt: usize) -> bool
    ensures { result ≡ buffers_fit extent display virt }
{
    let area = area(extent);
    (extent.height <= 65536) & (display == area) & (virt == area)
}

// The same, and whether an illegal entry ended them within the budget.
// Kept: `broken` beside the steps, which are taken in both cases.
#[derive(Clone, Copy)]
pub struct ListRun {
    pub engine: Engine,
    pub cursor: Cursor,
    pub steps: u64,
    pub broken: bool,
}

// As many steps of a list as the budget allows, up to its end or its first illegal entry, or to a fill with a tile that the budget
// cuts. Of a list that ends past 32 bits, or on buffers of another extent, none.
pub fn run_list(
    start: Engine,
    extent: Extent,
    cursor: Cursor,
    budget: u64,
    list: &[u8],
    display: &mut [u8],
    virt: &mut [u8],
) -> ListRun
    ensures { ListRan list.now extent budget cursor (with_tile extent start display.old virt.old) result display.new virt.new }
{
    let fit = buffers_fit(extent, display.len(), virt.len());
    if (4294967295 < cursor.span.end()) | !fit {
        return ListRun {
            engine: start,
            cursor,
            steps: 0,
            broken: false,
        };
    }
    let r = run_unheld(start, extent, cursor, budget, list, display, virt);
    let ended = r.cursor.ended(r.engine.under_way);
    ListRun {
        engine: r.engine,
        cursor: r.cursor,
        steps: r.steps,
        broken: (r.steps < budget) & !ended & !r.engine.hatches(),
    }
}
