ghost use Rattle.std.specs.Prelude.{◌≡◌, IfErr, OnOk};
ghost use Rattle.straight_lines.specs.Built.{unbuilt_in_sum};
ghost use Rattle.straight_lines.specs.Emitted.{operation_of, EmitsSum, IsUnbuilt};
ghost use Rattle.straight_lines.specs.Names.{number_in, is_numbered};

use crate::NotCompiled;
use crate::names::Names;
use code_module::Instr;
use source_trees::{BinaryOp, Expr};

/// Writes the code of a sum, which pushes its number.
#[tactic(auto, using(crate::proofs::UnbuiltSums::unbuilt_rules))]
pub(crate) fn emit_sum<'t>(
    code: &mut Vec<Instr>,
    names: &Names<'t>,
    e: &'t Expr,
) -> Result<(), NotCompiled>
    ensures ok { OnOk result (EmitsSum (number_in names.now) e.now code.old.items code.new.items) }
    ensures err { IfErr result (IsUnbuilt (unbuilt_in_sum (is_numbered (number_in names.now)) e.now)) }
{
    match e {
        Expr::Number(_, number) => {
            code.push(Instr::Int(*number))?;
            Ok(())
        }
        Expr::Name(n, name) => {
            let Some(number) = names.number(name) else {
                return Err(NotCompiled::NotBuilt(n.at));
            };
            code.push(Instr::GetG(number))?;
            Ok(())
        }
        Expr::Bracketed(_, inner) => {
            emit_sum(code, names, inner.get())?;
            Ok(())
        }
        Expr::Binary(n, by, left, right) => {
            let Some(operation) = operation_of(*by) else {
                return Err(NotCompiled::NotBuilt(n.at));
            };
            emit_sum(code, names, left.get())?;
            emit_sum(code, names, right.get())?;
            code.push(Instr::Binary(operation))?;
            Ok(())
        }
        Expr::Text(n, _) => Err(NotCompiled::NotBuilt(n.at)),
        Expr::True(n) => Err(NotCompiled::NotBuilt(n.at)),
        Expr::False(n) => Err(NotCompiled::NotBuilt(n.at)),
        Expr::None(n) => Err(NotCompiled::NotBuilt(n.at)),
        Expr::Tuple(n, _, _) => Err(NotCompiled::NotBuilt(n.at)),
        Expr::List(n, _) => Err(NotCompiled::NotBuilt(n.at)),
        Expr::Comprehension(n, _, _, _, _) => Err(NotCompiled::NotBuilt(n.at)),
        Expr::Conditional(n, _, _, _) => Err(NotCompiled::NotBuilt(n.at)),
        Expr::Or(n, _) => Err(NotCompiled::NotBuilt(n.at)),
        Expr::And(n, _) => Err(NotCompiled::NotBuilt(n.at)),
        Expr::Not(n, _) => Err(NotCompiled::NotBuilt(n.at)),
        Expr::Compare(n, _, _) => Err(NotCompiled::NotBuilt(n.at)),
        Expr::Unary(n, _, _) => Err(NotCompiled::NotBuilt(n.at)),
        Expr::Call(n, _, _) => Err(NotCompiled::NotBuilt(n.at)),
        Expr::MethodCall(n, _, _, _, _) => Err(NotCompiled::NotBuilt(n.at)),
        Expr::Index(n, _, _) => Err(NotCompiled::NotBuilt(n.at)),
        Expr::Slice(n, _, _, _) => Err(NotCompiled::NotBuilt(n.at)),
        Expr::Field(n, _, _) => Err(NotCompiled::NotBuilt(n.at)),
    }
}

/// The operation of an operator of sums.
fn operation_of(by: BinaryOp) -> Option<code_module::BinaryOp>
    ensures { result ≡ operation_of by }
{
    match by {
        BinaryOp::Add => Some(code_module::BinaryOp::Add),
        BinaryOp::Subtract => Some(code_module::BinaryOp::Sub),
        BinaryOp::Multiply => Some(code_module::BinaryOp::Mul),
        _ => None,
    }
}
