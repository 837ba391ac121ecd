// Reading a venue's and a pair's record and writing a venue's, for C.
ghost use Rattle.structs.specs.Inputs.{as_counts};
ghost use Rattle.oatmarten.specs.RecordCalls.{FlatReadsVenue, FlatReadsPair, FlatWritesVenue};

use structs::{OatCounts, OatPair, OatVenue, OatWritten};

// Reads a venue's record.
pub fn oat_read_venue(bytes: &[u8]) -> OatVenue
    ensures { FlatReadsVenue bytes.now result }
{
    records::read_venue(bytes).into()
}

// Reads a pair's record.
pub fn oat_read_pair(bytes: &[u8]) -> OatPair
    ensures { FlatReadsPair bytes.now result }
{
    records::read_pair(bytes).into()
}

// Writes a venue's record at the front of the lent bytes.
pub fn oat_write_venue(n: OatCounts, cells: &[u8], out: &mut [u8]) -> OatWritten
    ensures { FlatWritesVenue (as_counts n) cells.now out.old result out.new }
{
    records::write_venue(n.into(), cells, out).into()
}
