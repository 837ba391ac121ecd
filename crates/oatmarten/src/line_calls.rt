// The list calls for C.
ghost use Rattle.cells.specs.Manners.{rule_of};
ghost use Rattle.lists.specs.Lists.{Line6};
ghost use Rattle.structs.specs.Inputs.{as_cell};
ghost use Rattle.oatmarten.specs.LineCalls.{ListsByRule, FlatLine6, FlatLine26, FlatLineTouching};

use cells::{Refusal, Rule};
use structs::{OatCell, OatListed};

// The 6-line from p to q, ties by the rule of a number.
pub fn oat_line6(p: OatCell, q: OatCell, rule: u32, out: &mut [i32]) -> OatListed
    ensures { FlatLine6 rule (as_cell p) (as_cell q) out.old result out.new }
{
    line6(p, q, rule, out).into()
}

// The list by the rule that a number names, or 12 where it names none.
fn line6(p: OatCell, q: OatCell, rule: u32, out: &mut [i32]) -> Result<u32, Refusal>
    ensures { ListsByRule rule (λ a. Line6 (rule_of rule) (as_cell p) (as_cell q) out.old a out.new) out.old result out.new }
{
    let rule = Rule::try_from(rule)?;
    lists::line6(p.into(), q.into(), rule, out)
}

// The 26-line from p to q.
pub fn oat_line26(p: OatCell, q: OatCell, out: &mut [i32]) -> OatListed
    ensures { FlatLine26 (as_cell p) (as_cell q) out.old result out.new }
{
    lists::line26(p.into(), q.into(), out).into()
}

// The touching line from p to q.
pub fn oat_line_touching(p: OatCell, q: OatCell, out: &mut [i32]) -> OatListed
    ensures { FlatLineTouching (as_cell p) (as_cell q) out.old result out.new }
{
    touching::line_touching(p.into(), q.into(), out).into()
}
