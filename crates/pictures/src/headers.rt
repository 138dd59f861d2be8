// The text of a picture's header, byte by byte.
ghost use Rattle.std.specs.Prelude.{◌≡◌, true, List, [], ◌∷◌, ℕ, ◌<◌};
ghost use Rattle.pictures.specs.Texts.{is_white, is_digit, ends_comment, says_size};
ghost use Rattle.pictures.specs.Readers.{wanted_of, Longer, Follows, accepts};

use crate::sizes::Size;

// How far the numbers of a header are read, comments left out.
#[derive(Clone, Copy)]
pub(crate) enum Stage {
    Start,
    // White space before number k: 0 the width, 1 the height, 2 the greatest grey.
    White(u32),
    // Inside number k, which is this much so far.
    Number(u32, u64),
    // No header begins so.
    Broken,
}

// The same, and whether a comment is open.
// Kept: `comment` beside the stage, which goes on after the comment as it was.
#[derive(Clone, Copy)]
pub(crate) struct Reader {
    pub comment: bool,
    pub stage: Stage,
}

pub(crate) fn is_white(b: u8) -> bool
    ensures { result ≡ is_white b }
{
    matches!(b, b' ' | b'\t' | b'\n' | b'\r')
}

fn ends_comment(b: u8) -> bool
    ensures { result ≡ ends_comment b }
{
    matches!(b, b'\n' | b'\r')
}

impl Size {
    // Number k of a header: the width, the height, and the greatest grey.
    fn number(self, k: u32) -> u64
        ensures { result ≡ wanted_of self.width self.height k }
    {
        match k {
            0 => u64::from(self.width),
            1 => u64::from(self.height),
            _ => 255,
        }
    }
}

// A number with one more digit. One past 32 bits stays, so that none wraps.
fn longer(v: u64, b: u8) -> u64
    requires { is_digit b ≡ true }
    ensures { Longer v b result }
{
    if 4294967295 < v {
        return v;
    }
    v * 10 + u64::from(b - b'0')
}

impl Stage {
    // The stage after white space.
    fn white(self, size: Size) -> Stage
        ensures { (b : ℕ) → is_white b ≡ true → Follows size.width size.height self b result }
    {
        match self {
            Stage::Start => Stage::White(0),
            Stage::White(k) => Stage::White(k),
            Stage::Number(k, v) => {
                if (v == size.number(k)) & (k < 2) {
                    Stage::White(k + 1)
                } else {
                    Stage::Broken
                }
            }
            Stage::Broken => Stage::Broken,
        }
    }

    // The stage after a digit.
    fn digit(self, b: u8) -> Stage
        requires { is_digit b ≡ true }
        ensures { (width height : ℕ) → width < 4294967296 → height < 4294967296 → Follows width height self b result }
    {
        match self {
            Stage::Start => Stage::Broken,
            Stage::White(k) => Stage::Number(k, longer(0, b)),
            Stage::Number(k, v) => Stage::Number(k, longer(v, b)),
            Stage::Broken => Stage::Broken,
        }
    }
}

impl Reader {
    fn start() -> Reader
        ensures { (width height : ℕ) (l : List ℕ) → accepts width height result l ≡ says_size width height l }
    {
        Reader {
            comment: false,
            stage: Stage::Start,
        }
    }

    // The reader after a byte.
    fn after(self, b: u8, size: Size) -> Reader
        ensures { (l : List ℕ) → accepts size.width size.height result l ≡ accepts size.width size.height self (b ∷ l) }
    {
        let stage = self.stage;
        if self.comment {
            return Reader {
                comment: !ends_comment(b),
                stage,
            };
        }
        if b == b'#' {
            return Reader {
                comment: true,
                stage,
            };
        }
        if b.is_ascii_digit() {
            return Reader {
                comment: false,
                stage: stage.digit(b),
            };
        }
        if is_white(b) {
            return Reader {
                comment: false,
                stage: stage.white(size),
            };
        }
        Reader {
            comment: false,
            stage: Stage::Broken,
        }
    }

    // Whether the text may end here.
    fn at_end(self, size: Size) -> bool
        ensures { result ≡ accepts size.width size.height self [] }
    {
        match self.stage {
            Stage::Number(k, v) => (!self.comment) & (v == size.number(k)) & (2 <= k),
            Stage::Start | Stage::White(_) | Stage::Broken => false,
        }
    }
}

// Whether a text is the numbers of a picture of this size.
// A function of its own, so that the loop keeps its values in registers.
#[inline(never)]
pub(crate) fn says_size(text: &[u8], size: Size) -> bool
    ensures { result ≡ says_size size.width size.height text.now }
{
    let mut reader = Reader::start();
    for b in text {
        reader = reader.after(*b, size);
    }
    reader.at_end(size)
}
