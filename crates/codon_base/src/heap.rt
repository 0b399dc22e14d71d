ghost use Rattle.std.specs.Prelude.{◌≡◌, ◌<◌, ◌-◌, ◌++◌, ◌∷◌, [], length, IfOk, OnErr, OnOk, IfErr, slice_get, take};
ghost use Rattle.std.specs.Option.{option_copied};
ghost use Rattle.codon_base.specs.Levels.{object_at, added, next_address};

use crate::{Memory, Object, Ref};
use std::alloc::Global;
use std::marker::Model;

/// Objects by their addresses: levels, and the objects of each level in order.
pub trait Holder {
    ghost use Rattle.std.specs.Prelude.{List};
    ghost use Rattle.codon_base.specs.declared.object.Object.{Object};

    ghost levels: { Self → List (List Object) };

    /// The object at an address, where there is one.
    fn get(&self, at: Ref) -> Option<&Object>
        ensures { option_copied result ≡ object_at (levels self.now) at };
}

/// The objects of one level.
#[derive(Drop)]
struct Level {
    objects: Vec<Object>,
}

impl Model for Level {
    ghost use Rattle.std.specs.Prelude.{List};
    ghost use Rattle.codon_base.specs.declared.object.Object.{Object};

    ghost Value = { List Object };

    ghost use Rattle.codon_base.specs.contracts.object.Object as object;
    ghost use Rattle.std.specs.Coded.{coded_list};

    ghost coded = { coded_list object.the_row.coded };

    ghost view = { λ level. level.objects.items };
}

impl Level {
    ghost use Rattle.std.specs.Borrow.{sem};
    ghost use Rattle.std.specs.Option.{option_copied_mut};
    ghost use Rattle.codon_base.specs.Changes.{LendsPlace};

    fn new(alloc: Global) -> Level
        ensures { result ≡ [] }
    {
        Level {
            objects: Vec::new(alloc),
        }
    }

    fn len(&self) -> usize
        ensures { result ≡ length self.now }
    {
        self.objects.len()
    }

    fn push(&mut self, object: Object) -> Result<(), Object>
        ensures ok { OnOk result (self.new ≡ self.old ++ object ∷ []) }
        ensures err { OnErr result (self.new ≡ self.old) }
        ensures handed_back { IfErr result (λ back. back ≡ object) }
    {
        match self.objects.push(object) {
            Ok(()) => Ok(()),
            Err(failed) => Err(failed.value),
        }
    }

    fn get(&self, place: u64) -> Option<&Object>
        ensures { option_copied result ≡ slice_get self.now place }
    {
        self.objects.get(place as usize)
    }

    fn object_mut(&mut self, place: u64) -> Option<&mut Object>
        ensures* lends { sem 𝓛 (LendsPlace self.entry place result) }
        ensures value { option_copied_mut result ≡ slice_get self.old place }
    {
        self.objects.get_mut(place as usize)
    }
}

/// The objects of a run, by levels. Level 0 is the program's; each parallel iteration has a level of its own above those that were there.
#[derive(Drop)]
pub struct Heap {
    levels: Vec<Level>,
}

impl Model for Heap {
    ghost use Rattle.std.specs.Prelude.{◌<◌, ◌≤◌, ◌^◌, List, length};
    ghost use Rattle.codon_base.specs.declared.object.Object.{Object};

    ghost Value = { List (List Object) };

    ghost use Rattle.codon_base.specs.contracts.object.Object as object;
    ghost use Rattle.std.specs.Coded.{coded_list};

    ghost coded = { coded_list (coded_list object.the_row.coded) };

    ghost view = { λ heap. heap.levels.items };

    ghost invariant = { λ heap. (0 < length heap.levels.items) × (length heap.levels.items ≤ 2 ^ 32) };
}

impl Heap {
    ghost use Rattle.std.specs.Borrow.{sem};
    ghost use Rattle.std.specs.Option.{option_copied_mut};
    ghost use Rattle.codon_base.specs.Changes.{LendsLevel, LendsObject};

    /// A heap with level 0, which holds nothing.
    pub fn new(alloc: Global) -> Result<Heap, Memory>
        ensures { IfOk result (λ heap. heap ≡ [] ∷ []) }
    {
        let mut levels = Vec::new(alloc);
        levels.push(Level::new(alloc))?;
        Ok(Heap { levels })
    }

    /// Opens a level above the others.
    pub fn enter(&mut self, alloc: Global) -> Result<(), Memory>
        ensures ok { OnOk result (self.new ≡ self.old ++ [] ∷ []) }
        ensures above { OnOk result (1 < length self.new) }
        ensures err { OnErr result (self.new ≡ self.old) }
    {
        if self.levels.len() > u32::MAX as usize {
            return Err(Memory);
        }
        self.levels.push(Level::new(alloc))?;
        Ok(())
    }

    /// Drops the last level with its objects. Level 0 stays.
    pub fn leave(&mut self)
        requires { 1 < length self.old }
        ensures { self.new ≡ take (length self.old - 1) self.old }
    {
        let _ = self.levels.pop();
    }

    /// Puts an object at the end of the last level, and tells its address. For want of memory it hands the object back.
    pub fn add(&mut self, object: Object) -> Result<Ref, Object>
        ensures ok { OnOk result (self.new ≡ added self.old object) }
        ensures address { IfOk result (λ at. at ≡ next_address self.old) }
        ensures err { OnErr result (self.new ≡ self.old) }
        ensures handed_back { IfErr result (λ back. back ≡ object) }
    {
        let level = self.levels.len() - 1;
        let place = self.levels[level].len();
        match self.levels[level].push(object) {
            Ok(()) => Ok(Ref {
                level: level as u32,
                place: place as u64,
            }),
            Err(back) => Err(back),
        }
    }

    /// The object at an address for changes, where there is one.
    pub fn object_mut(&mut self, at: Ref) -> Option<&mut Object>
        ensures* lends { sem 𝓛 (LendsObject self.entry at result) }
        ensures value { option_copied_mut result ≡ object_at self.old at }
    {
        let level = self.level_mut(at.level)?;
        level.object_mut(at.place)
    }

    fn level_mut(&mut self, number: u32) -> Option<&mut Level>
        ensures* lends { sem 𝓛 (LendsLevel self.entry number result) }
        ensures value { option_copied_mut result ≡ slice_get self.old number }
    {
        self.levels.get_mut(number as usize)
    }
}

impl Holder for Heap {
    ghost levels = { λ heap. heap };

    fn get(&self, at: Ref) -> Option<&Object> {
        match self.levels.get(at.level as usize) {
            Some(level) => level.get(at.place),
            None => None,
        }
    }
}
