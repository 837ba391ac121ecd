// Reading a venue's and a pair's record and writing a venue's, for C.
ghost use Rattle.structs.specs.Inputs.{as_counts};
ghost use Rattle.oatmarten.specs.RecordCalls.{FlatReadsVenue, FlatReadsPair, FlatWritesVenue};

use structs::{OatCounts, OatPair, OatVenue, OatWritten};

// Reads a venue's record.
#[unsafe(no_mangle)]
pub extern "C" fn oat_read_venue(bytes: &[u8]) -> OatVenue
    ensures { FlatReadsVenue bytes.now result }
{
    oatmarten::oat_read_venue(bytes)
}

// Reads a pair's record.
#[unsafe(no_mangle)]
pub extern "C" fn oat_read_pair(bytes: &[u8]) -> OatPair
    ensures { FlatReadsPair bytes.now result }
{
    oatmarten::oat_read_pair(bytes)
}

// Writes a venue's record at the front of the lent bytes.
#[unsafe(no_mangle)]
pub extern "C" fn oat_write_venue(n: OatCounts, cells: &[u8], out: &mut [u8]) -> OatWritten
    ensures { FlatWritesVenue (as_counts n) cells.now out.old result out.new }
{
    oatmarten::oat_write_venue(n, cells, out)
}
