// What export and import answer of a well formed record, by its sizes and slots (document 02, R-9).
ghost use Rattle.std.specs.Prelude.{◌≡◌};
ghost use Rattle.slots.specs.Calls.{lent};
ghost use Rattle.slots.specs.Picturing.{exporting, export_report, import_report};

use crate::calls::none_taken;
use crate::record::{Sizes, Slot};
use answers::{Refusal, Status};
use pictures::{read_picture, write_picture};

// The named buffer as a picture, into a lent output: the bytes written.
pub fn export_into(
    z: Sizes,
    number: usize,
    buffer: &[u8],
    output: &mut [u8],
) -> Result<usize, Refusal>
    ensures { exporting result output.new ≡ export_report z number buffer.now output.old }
{
    if 1 < number {
        return Err(Refusal::WrongSize);
    }
    let x = z.extent;
    Ok(write_picture(buffer, x.width, x.height, output)?)
}

// A picture of the board's own size, into the named buffer.
pub fn import_into(
    z: Sizes,
    a: Slot,
    p: Slot,
    number: usize,
    picture: &[u8],
    buffer: &mut [u8],
) -> Status
    ensures { lent result buffer.new ≡ import_report z a p number picture.now buffer.old }
{
    z.named(number, buffer.len())?;
    none_taken(a, p)?;
    let x = z.extent;
    read_picture(picture, x.width, x.height, buffer)?;
    Ok(0)
}
