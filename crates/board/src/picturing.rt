// The calls export and import (document 02, R-9).
ghost use Rattle.std.specs.Prelude.{◌≡◌};
ghost use Rattle.board.specs.Calls.{stays, written};
ghost use Rattle.board.specs.Picturing.{exported, exported_as, export_call, import_call};

use crate::answer::{Answer, ExportAnswer};
use crate::record::Board;
use answers::{Refusal, Status};
use slots::{export_into, import_into};

impl Board {
    fn export_written(
        self,
        number: usize,
        buffer: &[u8],
        output: &mut [u8],
    ) -> Result<usize, Refusal>
        ensures { exported_as self result output.new ≡ export_call number buffer.now output.old self }
    {
        self.checked()?;
        export_into(self.sizes, number, buffer, output)
    }

    // The display (0) or the virtual buffer (1) as a picture, into a lent output.
    pub fn export(self, number: usize, buffer: &[u8], output: &mut [u8]) -> ExportAnswer
        ensures { exported result output.new ≡ export_call number buffer.now output.old self }
    {
        ExportAnswer {
            written: self.export_written(number, buffer, output),
            board: self,
        }
    }

    fn import_status(self, number: usize, picture: &[u8], buffer: &mut [u8]) -> Status
        ensures { stays self result buffer.new ≡ import_call number picture.now buffer.old self }
    {
        self.checked()?;
        import_into(
            self.sizes,
            self.active.slot(),
            self.pending,
            number,
            picture,
            buffer,
        )
    }

    // A picture into the display (0) or the virtual buffer (1).
    pub fn import(self, number: usize, picture: &[u8], buffer: &mut [u8]) -> Answer
        ensures { written result buffer.new ≡ import_call number picture.now buffer.old self }
    {
        Answer {
            status: self.import_status(number, picture, buffer),
            board: self,
        }
    }
}
