ghost use Rattle.std.specs.Prelude.{◌≡◌, ◌∷◌, [], Bool, Some, None, IfOk, IfErr, OnOk};
ghost use Rattle.source_trees.specs.declared.pipeline.PrintOptions.TheVariants as options;
ghost use Rattle.source_trees.specs.declared.statement.Stmt.TheVariants as statement;
ghost use Rattle.meaning_rules.specs.State.{Spelling, is_among};
ghost use Rattle.straight_lines.specs.Built.{reserved, unbuilt_in_stmt, first_of, unbuilt_in_sum, unbuilt_in_target, unbuilt_in_targets, unbuilt_in_values, unbuilt_in_print};
ghost use Rattle.straight_lines.specs.Emitted.{assigned_name, name_of, EmitsStmt, EmitsAssignment, IsUnbuilt};
ghost use Rattle.straight_lines.specs.Names.{number_in, is_numbered, AreNumbers};

use crate::NotCompiled;
use crate::emitter::Emitter;
use crate::sum::emit_sum;
use code_module::Instr;
use codon_base::Spelling;
use source_trees::{Expr, Node, PrintOptions, Printed, Stmt, Target, Targets};

/// The texts of the table: the separator of printed values, and what stands after them.
const SEPARATOR: u32 = 0;

const LINE_END: u32 = 1;

impl<'t> Emitter<'t> {
    /// Writes the code of a statement.
    #[tactic(auto, using(crate::proofs::UnbuiltStatements::unbuilt_statement_rules))]
    pub(crate) fn emit_statement(&mut self, statement: &'t Stmt) -> Result<(), NotCompiled>
        requires { AreNumbers (number_in self.old.names) self.old.names.count }
        ensures ok { OnOk result (EmitsStmt statement.now self.old self.new) }
        ensures err { IfErr result (IsUnbuilt (unbuilt_in_stmt (is_numbered (number_in self.old.names)) statement.now)) }
    {
        match statement {
            Stmt::Assign(_, written, value) => {
                self.emit_assignment(written, value)?;
                Ok(())
            }
            Stmt::Print(n, printed) => {
                self.emit_print(n, printed)?;
                Ok(())
            }
            Stmt::Pass(n) => Err(NotCompiled::NotBuilt(n.at)),
            Stmt::Break(n) => Err(NotCompiled::NotBuilt(n.at)),
            Stmt::Continue(n) => Err(NotCompiled::NotBuilt(n.at)),
            Stmt::Return(n, _) => Err(NotCompiled::NotBuilt(n.at)),
            Stmt::Yield(n, _) => Err(NotCompiled::NotBuilt(n.at)),
            Stmt::Raise(n, _, _) => Err(NotCompiled::NotBuilt(n.at)),
            Stmt::Assert(n, _, _) => Err(NotCompiled::NotBuilt(n.at)),
            Stmt::Annotated(n, _, _, _) => Err(NotCompiled::NotBuilt(n.at)),
            Stmt::Update(n, _, _, _) => Err(NotCompiled::NotBuilt(n.at)),
            Stmt::Evaluate(n, _) => Err(NotCompiled::NotBuilt(n.at)),
            Stmt::Pipeline(n, _, _) => Err(NotCompiled::NotBuilt(n.at)),
            Stmt::If(n, _, _) => Err(NotCompiled::NotBuilt(n.at)),
            Stmt::While(n, _, _) => Err(NotCompiled::NotBuilt(n.at)),
            Stmt::For(repeated) => Err(NotCompiled::NotBuilt(repeated.node.at)),
            Stmt::Par(n, _, _) => Err(NotCompiled::NotBuilt(n.at)),
        }
    }

    /// Writes the code of an assignment to these targets.
    fn emit_assignment(&mut self, written: &'t Targets, value: &'t Expr) -> Result<(), NotCompiled>
        requires { AreNumbers (number_in self.old.names) self.old.names.count }
        ensures ok { OnOk result (EmitsAssignment written.now value.now self.old self.new) }
        ensures err { IfErr result (IsUnbuilt (first_of (unbuilt_in_targets written.now ∷ unbuilt_in_sum (is_numbered (number_in self.old.names)) value.now ∷ []))) }
    {
        let name = assigned_name(written)?;
        emit_sum(&mut self.code, &self.names, value)?;
        let number = self.names.number_or_next(name)?;
        self.code.push(Instr::SetG(number))?;
        Ok(())
    }

    /// Writes the code of a print, whose node this is.
    fn emit_print(&mut self, n: &Node, printed: &'t Printed) -> Result<(), NotCompiled>
        requires { AreNumbers (number_in self.old.names) self.old.names.count }
        ensures ok { OnOk result (EmitsStmt (statement.Print n.now printed.now) self.old self.new) }
        ensures err { IfErr result (IsUnbuilt (unbuilt_in_print (is_numbered (number_in self.old.names)) n.now printed.now.values printed.now.options)) }
    {
        let value = printed_sum(n, printed)?;
        emit_sum(&mut self.code, &self.names, value)?;
        self.code.push(Instr::Text(SEPARATOR))?;
        self.code.push(Instr::Text(LINE_END))?;
        self.code.push(Instr::Print(1))?;
        Ok(())
    }
}

/// The one name that an assignment assigns.
fn assigned_name(written: &Targets) -> Result<&Spelling, NotCompiled>
    ensures name { IfOk result (λ name. assigned_name written.now ≡ Some name.now) }
    ensures built { OnOk result (unbuilt_in_targets written.now ≡ None) }
    ensures err { IfErr result (IsUnbuilt (unbuilt_in_targets written.now)) }
{
    match written {
        Targets::One(only) => target_name(only),
        Targets::Several(n, _) => Err(NotCompiled::NotBuilt(n.at)),
    }
}

/// The name that a target is, where it may be assigned.
fn target_name(target: &Target) -> Result<&Spelling, NotCompiled>
    ensures name { IfOk result (λ name. name_of target.now ≡ Some name.now) }
    ensures built { OnOk result (unbuilt_in_target target.now ≡ None) }
    ensures err { IfErr result (IsUnbuilt (unbuilt_in_target target.now)) }
{
    match target {
        Target::Name(n, name) => {
            if is_reserved(name) {
                return Err(NotCompiled::NotBuilt(n.at));
            }
            Ok(name)
        }
        Target::Index(n, _, _) => Err(NotCompiled::NotBuilt(n.at)),
        Target::Field(n, _, _) => Err(NotCompiled::NotBuilt(n.at)),
    }
}

/// Whether a name is one that is not assigned.
fn is_reserved(name: &Spelling) -> bool
    ensures { result ≡ is_among name.now reserved }
{
    let name = name.as_slice();
    name == b"print".as_slice() || name == b"range".as_slice() || name == b"iter".as_slice()
}

/// The one value that is printed, with nothing said of separator and end.
fn printed_sum<'t>(n: &Node, printed: &'t Printed) -> Result<&'t Expr, NotCompiled>
    ensures value { IfOk result (λ e. printed.now.values ≡ e.now ∷ []) }
    ensures plain { OnOk result (printed.now.options ≡ options.Neither) }
    ensures err { (known : Spelling → Bool) → IfErr result (IsUnbuilt (unbuilt_in_print known n.now printed.now.values printed.now.options)) }
{
    match &printed.options {
        PrintOptions::Neither => only_value(n, printed.values.as_slice()),
        PrintOptions::Sep(_) => Err(NotCompiled::NotBuilt(n.at)),
        PrintOptions::End(_) => Err(NotCompiled::NotBuilt(n.at)),
        PrintOptions::SepEnd(_, _) => Err(NotCompiled::NotBuilt(n.at)),
        PrintOptions::EndSep(_, _) => Err(NotCompiled::NotBuilt(n.at)),
    }
}

fn only_value<'t>(n: &Node, values: &'t [Expr]) -> Result<&'t Expr, NotCompiled>
    ensures value { IfOk result (λ e. values.now ≡ e.now ∷ []) }
    ensures err { (known : Spelling → Bool) → IfErr result (IsUnbuilt (unbuilt_in_values known n.now values.now)) }
{
    match values {
        [value] => Ok(value),
        _ => Err(NotCompiled::NotBuilt(n.at)),
    }
}
