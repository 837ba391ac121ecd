// Writes, for each z from -1 to 2 of a grid of two layers, what the layer holds and what its partner says: start and length, or the refusal's
// number. The bytes are letters that differ by layer, so a part in another place is seen.
#![tactic(auto)]

use cells::{Counts, Refusal};
use grids::LayerPart;
use std::io;

fn say(rt: &impl Print, part: Result<LayerPart, Refusal>) -> io::Result<()> {
    match part {
        Ok(LayerPart { start, long }) => println!(rt; "{start} {long}"),
        Err(r) => println!(rt; "refused {}", cells::number(r)),
    }
}

fn show(rt: &impl Print, n: Counts, bytes: &[u8], z: i32) -> io::Result<()> {
    rt.write_all(grids::layer(n, bytes, z))?;
    rt.write_all(b" ")?;
    say(rt, grids::layer_part(n, bytes, z))
}

fn main(rt: HostRuntime) -> io::Result<()> {
    let n = Counts {
        nx: 3,
        ny: 2,
        nz: 2,
    };
    let bytes = b"abcdefghijkl";
    for z in -1..=2 {
        show(&rt, n, bytes, z)?;
    }
    show(&rt, Counts { nz: 3, ..n }, bytes, 0)
}
