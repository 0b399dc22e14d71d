ghost use Rattle.std.specs.Prelude.{◌≡◌, ◌∷◌, [], OnOk, length, drop, ◌≤◌};
ghost use Rattle.indent_lexer.specs.Indentation.{innermost, left_by};

use codon_base::Memory;
use sqlite_items::Items;
use std::alloc::Global;
use std::marker::Model;

/// The columns over 0 at which blocks stand. Contracts see the list of them, the innermost first.
#[derive(Debug, Drop)]
pub struct Columns {
    columns: Items<u32>,
}

impl Model for Columns {
    ghost use Rattle.std.specs.Prelude.{List, ℕ, reverse};

    ghost Value = { List ℕ };

    ghost view = { λ c. reverse c.columns };
}

impl Columns {
    pub fn new(alloc: Global) -> Columns
        ensures { result ≡ [] }
    {
        Columns {
            columns: Items::new(alloc),
        }
    }

    pub fn len(&self) -> usize
        ensures { result ≡ length self.now }
    {
        self.columns.len()
    }

    pub fn push(&mut self, column: u32) -> Result<(), Memory>
        ensures { OnOk result (self.new ≡ column ∷ self.old) }
    {
        self.columns.push(column)?;
        Ok(())
    }

    /// Leaves the innermost block.
    pub fn pop(&mut self)
        ensures { self.new ≡ drop 1 self.old }
    {
        let _ = self.columns.pop();
    }

    /// The innermost column.
    pub fn innermost(&self) -> u32
        ensures { result ≡ innermost self.now }
    {
        match self.columns.as_slice() {
            [.., column] => *column,
            [] => 0,
        }
    }
}

/// Leaves the columns that are greater, and tells how many they were.
pub fn leave(columns: &mut Columns, column: u32) -> usize
    requires { length columns.old ≤ 1_048_576 }
    ensures count { result ≡ left_by column columns.old }
    ensures left { columns.new ≡ drop (left_by column columns.old) columns.old }
    ensures within { result ≤ length columns.old }
{
    let mut count: usize = 0;
    'columns: while columns.innermost() > column {
        columns.pop();
        count += 1;
    }
    count
}
