ghost use Rattle.std.specs.Prelude.{◌≡◌, ◌++◌, IfOk, IfErr};
ghost use Rattle.straight_lines.specs.Compiled.{Compiles, IsNotCompiled, IsEntry};
ghost use Rattle.straight_lines.specs.Emitted.{text_table, end_code};

use crate::NotCompiled;
use crate::emitter::Emitter;
use crate::names::Names;
use code_module::{Constant, Function, FunctionKind, Instr, Texts};
use codon_base::{Memory, Text};
use source_trees::Module;
use sqlite_items::Items;
use std::alloc::Global;

/// The code of a module in straight lines, which prints what the module means and runs to its end. Any other module is refused with the place of its first node, in preorder, whose form is not built yet.
pub fn compile(alloc: Global, module: &Module) -> Result<code_module::Module, NotCompiled>
    ensures code { IfOk result (Compiles «module».now) }
    ensures refusal { IfErr result (IsNotCompiled «module».now) }
{
    let mut emitter = Emitter {
        code: Vec::new(alloc),
        names: Names::new(alloc),
    };
    let items = module.items.as_slice();
    'items: for item in items {
        emitter.emit_item(item)?;
    }
    let code = module_of(alloc, emitter)?;
    Ok(code)
}

/// The module whose function 0 has this code.
fn module_of(alloc: Global, emitter: Emitter<'_>) -> Result<code_module::Module, Memory>
    ensures texts { IfOk result (λ m. m.texts ≡ text_table) }
    ensures globals { IfOk result (λ m. m.globals ≡ emitter.entry.names.count) }
    ensures code { IfOk result (λ m. IsEntry m.functions (emitter.entry.code.items ++ end_code)) }
{
    let texts = text_table(alloc)?;
    let Emitter { mut code, names } = emitter;
    code.push(Instr::Const(Constant::Unit))?;
    code.push(Instr::Return)?;
    let mut functions = Items::new(alloc);
    functions.push(Function {
        kind: FunctionKind::Module,
        code: Items::from_vec(code),
    })?;
    Ok(code_module::Module {
        texts,
        globals: names.count(),
        functions,
    })
}

fn text_table(alloc: Global) -> Result<Texts, Memory>
    ensures { IfOk result (λ texts. texts ≡ text_table) }
{
    let mut texts = Items::new(alloc);
    texts.push(Text::from_slice(alloc, b" ")?)?;
    texts.push(Text::from_slice(alloc, b"\n")?)?;
    Ok(texts)
}
