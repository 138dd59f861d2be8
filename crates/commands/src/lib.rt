// One command on the two picture buffers: what it visits, and what one step does (document 01, Steps and Pixels). Lists
// and slots are not known here.

#![tactic(auto)]

mod hatching;
mod steps;
mod visits;

ghost use Rattle.std.specs.Prelude.{◌≡◌};
ghost use Rattle.commands.specs.Steps.{fresh_engine};
ghost use Rattle.commands.specs.Record.{command_ok, engine_ok};

use geometry::Extent;
use registers::{Pattern, Registers, state_ok};

// What a step uses besides lists and buffers. `last` is the last point, as XY1's word.
#[derive(Clone, Copy)]
pub struct Engine {
    // Kept: a record with no command and visited other than 0 is Malformed (`command_ok`), so the two stay apart.
    pub under_way: bool,
    pub visited: u32,
    pub registers: Registers,
    pub pattern: Pattern,
    pub last: u32,
}

impl Engine {
    pub fn fresh() -> Engine
        ensures { result ≡ fresh_engine }
    {
        Engine {
            under_way: false,
            visited: 0,
            registers: Registers::fresh(),
            pattern: Pattern {
                place: 0,
                repeat: 0,
            },
            last: 0,
        }
    }

    // Whether pixels are left of the command under way, and none is counted where there is no command.
    fn command_ok(self, extent: Extent) -> bool
        ensures { result ≡ command_ok extent self }
    {
        if !self.under_way {
            return self.visited == 0;
        }
        let n = self.count(extent);
        (self.visited as usize) < n
    }

    // Whether a record may hold this engine.
    pub fn well_formed(self, extent: Extent) -> bool
        ensures { result ≡ engine_ok extent self }
    {
        let g = self.registers;
        let p = self.pattern;
        state_ok(g, p) & self.command_ok(extent)
    }
}
