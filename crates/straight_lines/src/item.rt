ghost use Rattle.std.specs.Prelude.{IfErr, OnOk};
ghost use Rattle.straight_lines.specs.Built.{unbuilt_in_item};
ghost use Rattle.straight_lines.specs.Emitted.{EmitsItem, IsUnbuilt};
ghost use Rattle.straight_lines.specs.Names.{number_in, is_numbered, AreNumbers};

use crate::NotCompiled;
use crate::emitter::Emitter;
use source_trees::Item;

impl<'t> Emitter<'t> {
    /// Writes the code of an item.
    pub(crate) fn emit_item(&mut self, item: &'t Item) -> Result<(), NotCompiled>
        requires { AreNumbers (number_in self.old.names) self.old.names.count }
        ensures ok { OnOk result (EmitsItem item.now self.old self.new) }
        ensures err { IfErr result (IsUnbuilt (unbuilt_in_item (is_numbered (number_in self.old.names)) item.now)) }
    {
        match item {
            Item::Stmt(statement) => {
                self.emit_statement(statement)?;
                Ok(())
            }
            Item::Function(function) => Err(NotCompiled::NotBuilt(function.node.at)),
            Item::Class(class) => Err(NotCompiled::NotBuilt(class.node.at)),
        }
    }
}
