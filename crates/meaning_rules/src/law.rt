ghost use Rattle.meaning_rules.specs.Laws.{LawOfFuel, PrintsMore, KeepsWaiting};

use source_trees::Module;

/// What a module means on a fuel on which it is not out of fuel, it means on each greater fuel: the same bytes, the same ending and the same counts of regions and items. So a source that ends within some number of ticks is run to that end on every fuel from there on.
pub fn law_of_fuel(_module: &Module)
    ensures { LawOfFuel _module.now }
{}

/// What a module prints on a fuel is the beginning of what it prints on each greater fuel.
pub fn prints_more(_module: &Module)
    ensures { PrintsMore _module.now }
{}

/// An expression leaves the names of the bodies that wait for a generator as they were, whatever it calls.
pub fn keeps_waiting(_module: &Module)
    ensures { KeepsWaiting _module.now }
{}
