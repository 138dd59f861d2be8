// One step: a pixel visited, or an entry taken.
ghost use Rattle.std.specs.Prelude.{◌≡◌};
ghost use Rattle.raster.specs.Raster.{new_byte};
ghost use Rattle.commands.specs.Hatching.{fill_after};
ghost use Rattle.commands.specs.Steps.{scene, inked, pattern_after, advanced_of, visit_of, pattern_set};
ghost use Rattle.commands.specs.Entering.{put_of, begin_of};

use crate::Engine;
use entries::{TRIGGER, command_of, is_trigger, pattern_control_of};
use geometry::Extent;
use registers::Pattern;
use sources::source_of;
use tiles::Fill;

// The new byte of a pixel; of value and mask the low eight bits count.
fn mixed(code: u8, value: u32, old: u8, mask: u32) -> u8
    ensures { result ≡ new_byte code value old mask }
{
    raster::new_byte(code, (value % 256) as u8, old, (mask % 256) as u8)
}

impl Engine {
    // A visit's mark in its destination buffer.
    fn ink(self, source: Option<u32>, place: Option<usize>, buffer: &mut [u8])
        ensures { buffer.new ≡ inked self source place buffer.old }
    {
        let (Some(value), Some(at)) = (source, place) else {
            return;
        };
        let g = self.registers;
        let c = command_of(g.cmd);
        if at < buffer.len() {
            buffer[at] = mixed(c.code, value, buffer[at], g.mask);
        }
    }

    // The pattern after a visit.
    #[tactic(auto, unfolding(crate::specs::Steps::pattern_after))]
    fn pattern_after(self) -> Pattern
        ensures { result ≡ pattern_after self }
    {
        let g = self.registers;
        let p = self.pattern;
        let c = command_of(g.cmd);
        if c.is_line() & !c.solid {
            return p.next(pattern_control_of(g.pctrl));
        }
        p
    }

    // With one more pixel visited.
    #[tactic(auto, unfolding(crate::specs::Steps::advanced_by))]
    fn advanced(self, extent: Extent) -> Engine
        ensures { result ≡ advanced_of extent self }
    {
        let pattern = self.pattern_after();
        let n = self.count(extent);
        if (self.visited as usize) + 1 < n {
            return Engine {
                under_way: true,
                visited: self.visited + 1,
                pattern,
                ..self
            };
        }
        Engine {
            under_way: false,
            visited: 0,
            pattern,
            last: self.registers.xy1,
            ..self
        }
    }

    // One pixel visited. A blit's target and source are at the same cell.
    #[tactic(auto, unfolding(crate::specs::Steps::visit_by))]
    pub fn visit(self, extent: Extent, fill: Fill, display: &mut [u8], virt: &mut [u8]) -> Engine
        ensures { scene result (fill_after result fill) display.new virt.new ≡ visit_of extent (scene self fill display.old virt.old) }
    {
        let k = self.visited as usize;
        let g = self.registers;
        let p = self.pattern;
        let c = command_of(g.cmd);
        let cell = self.cell(extent, k);
        let place = self.target(extent, k, cell);
        let source = source_of(c, g, p, extent, fill, cell, display, virt);
        let after = self.advanced(extent);
        if c.to_virtual {
            self.ink(source, place, virt);
        } else {
            self.ink(source, place, display);
        }
        after
    }

    // The pattern state once a register is written.
    // Kept: a register by its number, here and in `put`: they answer for every number (`put_of`).
    fn pattern_set(self, number: u32) -> Pattern
        ensures { result ≡ pattern_set number self }
    {
        let g = self.registers;
        let p = self.pattern;
        let c = command_of(g.cmd);
        if (number == 6) | (is_trigger(number) & c.is_line() & c.prst) {
            return Pattern::start(pattern_control_of(g.pctrl));
        }
        p
    }

    // A word written to a register, with what that does but for the command that it may trigger.
    pub fn put(self, number: u32, word: u32) -> Engine
        ensures { result ≡ put_of self number word }
    {
        let written = Engine {
            under_way: false,
            visited: 0,
            registers: self.registers.written(number, word),
            ..self
        };
        Engine {
            pattern: written.pattern_set(number),
            ..written
        }
    }

    // A word written to the register that triggers; a command in CMD that draws is then under way, whatever it visits.
    pub fn begin(self, word: u32) -> Engine
        ensures { result ≡ begin_of self word }
    {
        let e = self.put(TRIGGER, word);
        let c = command_of(e.registers.cmd);
        Engine {
            under_way: c.draws(),
            visited: 0,
            ..e
        }
    }
}
