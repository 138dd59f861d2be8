// What a conversion answers.
ghost use Rattle.std.specs.Prelude.{◌≡◌};
ghost use Rattle.packing.specs.Reports.{Report, report_of};

// Why a conversion is refused.
#[derive(Clone, Copy, PartialEq, Eq)]
pub enum FileRefusal {
    WrongSize,
    NoEntries,
    TooMany,
    // The place of the first illegal entry.
    IllegalEntry(usize),
    MalformedFile,
}

// The outcome of a conversion: done, with the bytes written, or refused.
pub type FileStatus = Result<usize, FileRefusal>;

impl FileRefusal {
    // The papers' number.
    pub fn number(self) -> u32
        ensures { result ≡ (report_of (Err self)).number }
    {
        match self {
            FileRefusal::WrongSize => 2,
            FileRefusal::NoEntries => 3,
            FileRefusal::TooMany => 4,
            FileRefusal::IllegalEntry(_) => 6,
            FileRefusal::MalformedFile => 10,
        }
    }
}

// What the host hears of a conversion.
pub trait Filed {
    ghost report: { Self → Report };

    // The papers' number.
    fn number(self) -> u32
        ensures { result ≡ (report self).number };

    // The place of the first illegal entry, 0 of any other answer.
    fn place(self) -> usize
        ensures { result ≡ (report self).place };

    // The bytes written, 0 in a refusal.
    fn written(self) -> usize
        ensures { result ≡ (report self).written };
}

impl Filed for FileStatus {
    ghost report = { report_of };

    fn number(self) -> u32 {
        match self {
            Ok(_) => 0,
            Err(refusal) => refusal.number(),
        }
    }

    fn place(self) -> usize {
        match self {
            Err(FileRefusal::IllegalEntry(place)) => place,
            _ => 0,
        }
    }

    fn written(self) -> usize {
        self.unwrap_or(0)
    }
}
