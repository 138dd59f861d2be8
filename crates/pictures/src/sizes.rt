// The size of a picture.
ghost use Rattle.std.specs.Prelude.{◌≡◌, ◌*◌, length};
ghost use Rattle.pictures.specs.Pictures.{decimal_of, size_of};

// Width and height in pixels.
// Kept: no Extent of `geometry`, since a picture knows no board.
#[derive(Clone, Copy)]
pub(crate) struct Size {
    pub width: u32,
    pub height: u32,
}

impl Size {
    // The number of pixels.
    pub(crate) fn area(self) -> usize
        ensures { result ≡ self.width * self.height }
    {
        (self.width as usize) * (self.height as usize)
    }

    // The bytes of a picture of this size.
    pub(crate) fn bytes(self) -> usize
        ensures { result ≡ size_of self.width self.height }
    {
        9 + digits(self.width) + digits(self.height) + self.area()
    }
}

// How many digits a number has.
fn digits(n: u32) -> usize
    ensures { result ≡ length (decimal_of n) }
{
    if n < 10 { 1 } else { digits(n / 10) + 1 }
}
