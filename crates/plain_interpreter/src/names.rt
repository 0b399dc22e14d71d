ghost use Rattle.std.specs.Prelude.{◌≡◌, ◌<◌, OnOk, OnErr, IfOk, IsTrue, IfSome, length, map, not};
ghost use Rattle.std.specs.List.{filter, list_any, position};
ghost use Rattle.meaning_rules.specs.State.{same, is_among, assigned_to, unset_names, with_names_of};
ghost use Rattle.plain_interpreter.specs.Frames.{put_back};
ghost use Rattle.plain_interpreter.specs.Seen.{names_of};
ghost use Rattle.source_trees.specs.Names.{loop_names};

use crate::state::{Entry, Names};
use codon_base::{Memory, Spelling, Value};
use source_trees::{LoopNames, Name};
use std::alloc::Global;
use std::{mem, slice};

/// Whether two names are spelled alike.
pub(crate) fn same(a: &Spelling, b: &Spelling) -> bool
    ensures { result ≡ same a.now b.now }
{
    a.as_slice() == b.as_slice()
}

pub(crate) fn is_among(name: &Spelling, names: &[Spelling]) -> bool
    ensures { result ≡ is_among name.now names.now }
{
    names.iter().any(|other| same(name, other))
}

impl Names {
    #[tactic(auto, unfolding(crate::specs::Seen::names_of))]
    pub(crate) fn new(alloc: Global) -> Names
        ensures { names_of result ≡ unset_names }
    {
        Names {
            entries: Vec::new(alloc),
        }
    }

    /// What a name holds, which is nothing where it was not assigned.
    pub(crate) fn get(&self, alloc: Global, name: &Spelling) -> Result<Value, Memory>
        ensures { IfOk result (λ v. v ≡ names_of self.now name.now) }
    {
        'look: for entry in &self.entries {
            if same(&entry.name, name) {
                return entry.value.try_clone(alloc);
            }
        }
        Ok(Value::Unset)
    }

    pub(crate) fn assign(
        &mut self,
        alloc: Global,
        name: &Spelling,
        value: Value,
    ) -> Result<(), Memory>
        ensures { OnOk result (names_of self.new ≡ assigned_to name.now value (names_of self.old)) }
    {
        match place_of(&self.entries, name) {
            Some(place) => {
                self.entries[place].value = value;
                Ok(())
            }
            None => {
                let name = Spelling::from_slice(alloc, name.as_slice())?;
                self.entries.push(Entry { name, value })?;
                Ok(())
            }
        }
    }

    /// What the names of a loop hold.
    pub(crate) fn held(&self, alloc: Global, own: &LoopNames) -> Result<Vec<Value>, Memory>
        ensures { IfOk result (λ held. held.items ≡ map (names_of self.now) (loop_names own.now)) }
    {
        let mut held = Vec::new(alloc);
        'own: for name in each_of(own) {
            held.push(self.get(alloc, &name.spelling)?)?;
        }
        Ok(held)
    }

    /// Gives the names of a loop values, in order.
    pub(crate) fn put_back(
        &mut self,
        alloc: Global,
        own: &LoopNames,
        values: Vec<Value>,
    ) -> Result<(), Memory>
        ensures { OnOk result (names_of self.new ≡ put_back (loop_names own.now) values.items (names_of self.old)) }
    {
        let mut rest = each_of(own);
        'values: for value in values {
            let [name, more @ ..] = rest else {
                return Ok(());
            };
            self.assign(alloc, &name.spelling, value)?;
            rest = more;
        }
        Ok(())
    }

    /// Takes out the names that are among some.
    pub(crate) fn split(&mut self, alloc: Global, own: &[Spelling]) -> Result<Names, Memory>
        ensures kept { OnOk result (names_of self.new ≡ with_names_of unset_names own.now (names_of self.old)) }
        ensures taken { IfOk result (λ taken. names_of taken ≡ with_names_of (names_of self.old) own.now unset_names) }
    {
        let entries = mem::replace(&mut self.entries, Vec::new(alloc));
        let (inside, outside) = parted(alloc, entries, own)?;
        self.entries = outside;
        Ok(Names { entries: inside })
    }

    /// Puts some names back as they were taken out, in place of what they hold now.
    pub(crate) fn join(
        &mut self,
        alloc: Global,
        own: &[Spelling],
        taken: Names,
    ) -> Result<(), Memory>
        ensures { OnOk result (names_of self.new ≡ with_names_of (names_of taken) own.now (names_of self.old)) }
    {
        let entries = mem::replace(&mut self.entries, Vec::new(alloc));
        let (_, mut all) = parted(alloc, entries, own)?;
        let (mut inside, _) = parted(alloc, taken.entries, own)?;
        all.append(&mut inside)?;
        self.entries = all;
        Ok(())
    }
}

/// The entries whose names are among some, and the others.
fn parted(
    alloc: Global,
    entries: Vec<Entry>,
    own: &[Spelling],
) -> Result<(Vec<Entry>, Vec<Entry>), Memory>
    ensures { IfOk result (λ parts. (parts.0.items ≡ filter (λ entry. is_among entry.name own.now) entries.items) × (parts.1.items ≡ filter (λ entry. not (is_among entry.name own.now)) entries.items)) }
{
    let mut inside = Vec::new(alloc);
    let mut outside = Vec::new(alloc);
    'entries: for entry in entries {
        if is_among(&entry.name, own) {
            inside.push(entry)?;
        } else {
            outside.push(entry)?;
        }
    }
    Ok((inside, outside))
}

/// The names of a loop, in order.
fn each_of(own: &LoopNames) -> &[Name]
    ensures { map (λ name. name.spelling) result.now ≡ loop_names own.now }
{
    match own {
        LoopNames::One(name) => slice::from_ref(name),
        LoopNames::Several(all) => all.as_slice(),
    }
}

fn place_of(entries: &[Entry], name: &Spelling) -> Option<usize>
    ensures place { result ≡ position (λ entry. same entry.name name.now) entries.now }
    ensures within { IfSome result (λ place. place < length entries.now) }
{
    entries.iter().position(|entry| same(&entry.name, name))
}
