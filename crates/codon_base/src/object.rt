ghost use Rattle.std.specs.Prelude.{◌≡◌, IfOk};

use crate::value::clone_items;
use crate::{Memory, Values};
use std::alloc::Global;

/// What an address of the heap holds.
#[derive(Drop)]
pub enum Object {
    /// A list with its items.
    List(Values),
    /// An instance of a class, by the class's number in the program, with its fields in the order of the class. A field that was never assigned is `Value::Unset`.
    Instance { class: u32, fields: Values },
}

impl Object {
    /// An equal object.
    pub fn try_clone(&self, alloc: Global) -> Result<Object, Memory>
        ensures { IfOk result (λ object. object ≡ self.now) }
    {
        Ok(match self {
            Object::List(values) => Object::List(clone_items(alloc, values)?),
            Object::Instance { class, fields } => Object::Instance {
                class: *class,
                fields: clone_items(alloc, fields)?,
            },
        })
    }
}
