ghost use Rattle.std.specs.Prelude.{◌≡◌, ℕ, List, None, IfOk};
ghost use Rattle.straight_lines.specs.Names.{number_in, AreNumbers, Numbers};

use codon_base::{Memory, Spelling};
use std::alloc::Global;
use std::collections::BTreeMap;

/// The numbers of the names that were assigned, from 0 in the order of their first assignments.
#[derive(Drop)]
pub(crate) struct Names<'t> {
    numbers: BTreeMap<&'t [u8], u32>,
    count: u32,
}

impl<'t> Names<'t> {
    pub(crate) fn new(alloc: Global) -> Names<'t>
        ensures none { (n : List ℕ) → number_in result n ≡ None }
        ensures count { result.count ≡ 0 }
    {
        Names {
            numbers: BTreeMap::new(alloc),
            count: 0,
        }
    }

    /// How many names have a number.
    pub(crate) fn count(&self) -> u32
        ensures { result ≡ self.now.count }
    {
        self.count
    }

    /// The number of a name, if it has one.
    pub(crate) fn number(&self, name: &'t Spelling) -> Option<u32>
        ensures { result ≡ number_in self.now name.now }
    {
        self.numbers.get(&name.as_slice()).copied()
    }

    /// The number of a name, which gets the next one where it has none.
    pub(crate) fn number_or_next(&mut self, name: &'t Spelling) -> Result<u32, Memory>
        requires { AreNumbers (number_in self.old) self.old.count }
        ensures { IfOk result (Numbers (number_in self.old) (number_in self.new) self.old.count self.new.count name.now) }
    {
        if let Some(number) = self.number(name) {
            return Ok(number);
        }
        let number = self.count;
        let Some(next) = number.checked_add(1) else {
            return Err(Memory);
        };
        self.numbers.insert(name.as_slice(), number)?;
        self.count = next;
        Ok(number)
    }
}
