ghost use Rattle.std.specs.Prelude.{◌≡◌, [], ◌∷◌, OnOk, IfOk, MatchOption};
ghost use Rattle.codon_base.specs.declared.value.Value.TheVariants.{Int, Text as TextValue};
ghost use Rattle.codon_front.specs.Stack.{NoInt, NoText, TakesValues, HasTooFew};

use codon_base::{Memory, Text, Value};
use std::alloc::Global;
use std::marker::Model;

/// The stack of the machine. Contracts see it with its top first.
#[derive(Drop)]
pub struct Stack {
    items: Vec<Value>,
}

impl Model for Stack {
    ghost use Rattle.std.specs.Prelude.{List, reverse};
    ghost use Rattle.codon_base.specs.declared.value.Value.{Value as Item};
    ghost use Rattle.codon_base.specs.contracts.value.Value as value;
    ghost use Rattle.std.specs.Coded.{codes};

    ghost Value = { List Item };

    ghost coded = { Prim.hlevel (codes, value.the_row.coded) };

    ghost view = { λ s. reverse s.items.items };
}

impl Stack {
    pub fn new(alloc: Global) -> Stack
        ensures { result ≡ [] }
    {
        Stack {
            items: Vec::new(alloc),
        }
    }

    pub fn push(&mut self, value: Value) -> Result<(), Memory>
        ensures { OnOk result (self.new ≡ value ∷ self.old) }
    {
        self.items.push(value)?;
        Ok(())
    }

    pub fn pop(&mut self) -> Option<Value>
        ensures { MatchOption result ((self.old ≡ []) × (self.new ≡ [])) (λ top. self.old ≡ top ∷ self.new) }
    {
        self.items.pop()
    }

    /// The topmost value, if it is a number.
    pub fn pop_int(&mut self) -> Option<i64>
        ensures { MatchOption result (NoInt self.old) (λ number. self.old ≡ Int number ∷ self.new) }
    {
        match self.pop() {
            Some(Value::Int(number)) => Some(number),
            _ => None,
        }
    }

    /// The topmost value, if it is a text.
    pub fn pop_text(&mut self) -> Option<Text>
        ensures { MatchOption result (NoText self.old) (λ text. self.old ≡ TextValue text ∷ self.new) }
    {
        match self.pop() {
            Some(Value::Text(text)) => Some(text),
            _ => None,
        }
    }

    /// So many of the topmost values, in the order in which they were pushed, if there are as many.
    pub fn pop_values(&mut self, alloc: Global, count: u32) -> Result<Option<Vec<Value>>, Memory>
        ensures { IfOk result (λ found. MatchOption found (HasTooFew count self.old) (λ values. TakesValues count self.old values.items self.new)) }
    {
        let mut values = Vec::new(alloc);
        for taken in 0..count {
            let _taken = taken;
            let Some(value) = self.pop() else {
                return Ok(None);
            };
            values.push(value)?;
        }
        values.reverse();
        Ok(Some(values))
    }
}
