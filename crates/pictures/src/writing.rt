// A picture written.
ghost use Rattle.std.specs.Prelude.{◌≡◌, ◌+◌, ◌≤◌, length};
ghost use Rattle.pictures.specs.Lent.{lent};
ghost use Rattle.pictures.specs.Pictures.{decimal_of, header_of};
ghost use Rattle.pictures.specs.Writing.{put_at, written_of};

use crate::sizes::Size;

// Why a picture is not written.
#[derive(Clone, Copy, PartialEq, Eq)]
pub enum WriteError {
    // The pixels are not width x height.
    WrongSize,
    // The output is shorter than the picture needs.
    TooShort,
}

// Bytes into the output from a place on; the place after them.
fn put_bytes(output: &mut [u8], at: usize, source: &[u8]) -> usize
    requires { at + length source.now ≤ length output.old }
    ensures { lent result output.new ≡ put_at output.old at source.now }
{
    let end = at + source.len();
    output[at..end].copy_from_slice(source);
    end
}

// A number in decimal, unpadded, from a place on; the place after it.
fn put_decimal(output: &mut [u8], at: usize, n: u32) -> usize
    requires { at + length (decimal_of n) ≤ length output.old }
    ensures { lent result output.new ≡ put_at output.old at (decimal_of n) }
{
    if n < 10 {
        output[at] = b'0' + n as u8;
        return at + 1;
    }
    let last = put_decimal(output, at, n / 10);
    output[last] = b'0' + (n % 10) as u8;
    last + 1
}

// All before the pixels, from the front of the output on; the place after it.
fn put_header(output: &mut [u8], size: Size) -> usize
    requires { length (header_of size.width size.height) ≤ length output.old }
    ensures { lent result output.new ≡ put_at output.old 0 (header_of size.width size.height) }
{
    let a = put_bytes(output, 0, b"P5\n");
    let b = put_decimal(output, a, size.width);
    let c = put_bytes(output, b, b" ");
    let d = put_decimal(output, c, size.height);
    put_bytes(output, d, b"\n255\n")
}

// A picture of these pixels into the output; the bytes written. In a refusal nothing is written.
pub fn write_picture(
    pixels: &[u8],
    width: u32,
    height: u32,
    output: &mut [u8],
) -> Result<usize, WriteError>
    ensures { lent result output.new ≡ written_of width height pixels.now output.old }
{
    let size = Size { width, height };
    if pixels.len() != size.area() {
        return Err(WriteError::WrongSize);
    }
    let bytes = size.bytes();
    if output.len() < bytes {
        return Err(WriteError::TooShort);
    }
    let start = put_header(output, size);
    put_bytes(output, start, pixels);
    Ok(bytes)
}
