// Registers and pattern state together.
ghost use Rattle.std.specs.Prelude.{◌≡◌};
ghost use Rattle.registers.specs.States.{state_ok};

use crate::dashes::Pattern;
use crate::file::Registers;
use entries::pattern_control_of;

// Whether a record may hold them.
pub fn state_ok(g: Registers, p: Pattern) -> bool
    ensures { result ≡ state_ok g p }
{
    g.legal() & p.in_range(pattern_control_of(g.pctrl))
}
