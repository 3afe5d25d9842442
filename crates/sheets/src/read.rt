//! Reading a whole sheet.
ghost use Rattle.std.specs.Prelude.{◌≡◌};
ghost use Rattle.sheets.specs.Names.{names_of};
ghost use Rattle.sheets.specs.Reads.{named_of, names_after, unnamed, read_of, sheet_read};
ghost use Rattle.sheets.specs.Rendered.{AcceptedIffWritten, TextsTellDocketsApart, EveryDocketHasAText, FaultPlacesLieInTheSheet};
ghost use Rattle.sheets.specs.Examples.{Examples};

use crate::arrangement::Docket;
use crate::fault::SheetFault;
use crate::names::Names;
use crate::reader::Reader;

/// No sheet has more bytes.
pub const LONGEST: usize = 2048;

/// The docket that a sheet describes; the names of its tokens go to `names`, which stay as they were where the sheet is refused.
#[tactic(auto, unfolding(crate::specs::Reads::named_of))]
pub fn read_named<'a>(sheet: &'a [u8], names: &mut Names<'a>) -> Result<Docket, SheetFault>
    ensures reads { sheet_read result ≡ unnamed (named_of sheet.now) }
    ensures names { names_of names.new ≡ names_after (named_of sheet.now) (names_of names.old) }
{
    if sheet.len() > LONGEST {
        return Err(SheetFault::TooLong);
    }
    let mut reader = Reader { sheet, at: 0 };
    let mut found = Names::new();
    let number = reader.docket_line()?;
    let arrangement = reader.arrangement(&mut found)?;
    reader.end()?;
    *names = found;
    Ok(Docket {
        number,
        arrangement,
    })
}

/// The docket that a sheet describes. A sheet is accepted exactly if it is the text of a docket.
pub fn read(sheet: &[u8]) -> Result<Docket, SheetFault>
    ensures reads { sheet_read result ≡ read_of sheet.now }
    ensures written { AcceptedIffWritten }
    ensures apart { TextsTellDocketsApart }
    ensures described { EveryDocketHasAText }
    ensures placed { FaultPlacesLieInTheSheet }
    ensures examples { Examples }
{
    let mut names = Names::new();
    read_named(sheet, &mut names)
}
