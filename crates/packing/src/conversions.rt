// From edition 1 to edition 2, and back.
ghost use Rattle.std.specs.Prelude.{◌≡◌};
ghost use Rattle.packing.specs.Conversions.{converted, pack_of, unpack_of};

use crate::judging::{packed_size, unpacked_size};
use crate::outcomes::FileStatus;
use crate::writing::{write_entries, write_groups};

// Edition 1 to edition 2; the bytes written. In a refusal nothing is written.
pub fn pack(input: &[u8], output: &mut [u8]) -> FileStatus
    ensures { converted result output.new ≡ pack_of input.now output.old }
{
    let size = packed_size(input, output.len())?;
    write_groups(input, output, size / 14);
    Ok(size)
}

// Edition 2 to edition 1; the bytes written. In a refusal nothing is written.
pub fn unpack(input: &[u8], output: &mut [u8]) -> FileStatus
    ensures { converted result output.new ≡ unpack_of input.now output.old }
{
    let size = unpacked_size(input, output.len())?;
    write_entries(input, output, size / 5);
    Ok(size)
}
