// The list calls for C.
ghost use Rattle.structs.specs.Inputs.{as_cell};
ghost use Rattle.oatmarten.specs.LineCalls.{FlatLine6, FlatLine26, FlatLineTouching};

use structs::{OatCell, OatListed};

// The 6-line from p to q, ties by the rule of a number.
#[unsafe(no_mangle)]
pub extern "C" fn oat_line6(p: OatCell, q: OatCell, rule: u32, out: &mut [i32]) -> OatListed
    ensures { FlatLine6 rule (as_cell p) (as_cell q) out.old result out.new }
{
    oatmarten::oat_line6(p, q, rule, out)
}

// The 26-line from p to q.
#[unsafe(no_mangle)]
pub extern "C" fn oat_line26(p: OatCell, q: OatCell, out: &mut [i32]) -> OatListed
    ensures { FlatLine26 (as_cell p) (as_cell q) out.old result out.new }
{
    oatmarten::oat_line26(p, q, out)
}

// The touching line from p to q.
#[unsafe(no_mangle)]
pub extern "C" fn oat_line_touching(p: OatCell, q: OatCell, out: &mut [i32]) -> OatListed
    ensures { FlatLineTouching (as_cell p) (as_cell q) out.old result out.new }
{
    oatmarten::oat_line_touching(p, q, out)
}
