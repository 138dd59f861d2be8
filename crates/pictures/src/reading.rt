// A picture read into a buffer.
ghost use Rattle.std.specs.Prelude.{◌≡◌};
ghost use Rattle.pictures.specs.Lent.{lent};
ghost use Rattle.pictures.specs.Reading.{raster_of, read_of};

use crate::headers::{is_white, says_size};
use crate::sizes::Size;

// Why a picture is not read.
#[derive(Clone, Copy, PartialEq, Eq)]
pub enum ReadError {
    // The buffer is not width x height.
    WrongSize,
    // Not a picture of this size, or bytes after it.
    NotAPicture,
}

// Where the pixels start, which are the last bytes of a picture of this size.
fn raster_start(picture: &[u8], size: Size) -> Option<usize>
    ensures { result ≡ raster_of size.width size.height picture.now }
{
    let start = picture.len().checked_sub(size.area())?;
    if start < 3 {
        return None;
    }
    let end = start - 1;
    if !((picture[0] == b'P') & (picture[1] == b'5') & is_white(picture[end])) {
        return None;
    }
    if says_size(&picture[2..end], size) {
        Some(start)
    } else {
        None
    }
}

// A picture of the buffer's own size into the buffer. In a refusal nothing is written.
pub fn read_picture(
    picture: &[u8],
    width: u32,
    height: u32,
    buffer: &mut [u8],
) -> Result<(), ReadError>
    ensures { lent result buffer.new ≡ read_of width height picture.now buffer.old }
{
    let size = Size { width, height };
    if buffer.len() != size.area() {
        return Err(ReadError::WrongSize);
    }
    let start = raster_start(picture, size).ok_or(ReadError::NotAPicture)?;
    buffer.copy_from_slice(&picture[start..]);
    Ok(())
}
