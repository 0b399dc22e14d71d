#![tactic(auto, unfolding(crate::specs::Seen::seen, crate::specs::Inside::entering, crate::specs::Inside::leaving, crate::specs::Inside::finishing))]

ghost use Rattle.std.specs.Prelude.{◌≡◌, ◌<◌, ◌-◌, ◌++◌, ◌∷◌, [], OnOk, length, map, take};
ghost use Rattle.plain_interpreter.specs.Inside.{saved_of, entering, leaving, from_zero, one_more, finishing};
ghost use Rattle.meaning_rules.specs.Outcome.{is_outside};
ghost use Rattle.plain_interpreter.specs.Seen.{seen, flow_of, iteration_of, Tells, TellsBy};
ghost use Rattle.plain_interpreter.specs.Tasks.{region_of};

use crate::flow::{Flow, is_next};
use crate::state::{Iteration, Names, State, Stop, Store};
use crate::task::Region;
use codon_base::{Memory, Value};
use sqlite_items::Items;
use std::alloc::Global;

/// What was before a parallel iteration, to be put back after it.
#[derive(Drop)]
pub(crate) struct Saved {
    used: u64,
    names: Names,
    globals: Names,
}

/// A region that runs: whether it began outside of any iteration, and how many items had come to the region round it.
#[derive(Clone, Copy)]
pub(crate) struct Begun {
    pub(crate) outside: bool,
    pub(crate) reached: u64,
}

/// Begins the iteration of an item that has come to a region, with the private names of the region fresh.
#[inline(never)]
pub(crate) fn enter_iteration(
    alloc: Global,
    state: &mut State,
    region: &Region,
    item: &Value,
) -> Result<Saved, Stop>
    ensures told { TellsBy saved_of (entering (region_of region.now) item.now (seen state.old)) result state.new }
    ensures above { OnOk result (1 < length (seen state.new).shared.levels) }
{
    let Some(reached) = state.reached.checked_add(1) else {
        return Err(Stop::Memory);
    };
    state.reached = reached;
    let item = item.try_clone(alloc)?;
    open_level(alloc, &mut state.store, region, item)?;
    let names = state.names.split(alloc, region.own.as_slice())?;
    let globals = state.globals.split(alloc, region.own_globals.as_slice())?;
    Ok(Saved {
        used: state.used,
        names,
        globals,
    })
}

fn open_level(alloc: Global, store: &mut Store, region: &Region, item: Value) -> Result<(), Memory>
    ensures levels { OnOk result (store.new.heap ≡ store.old.heap ++ [] ∷ []) }
    ensures above { OnOk result (1 < length store.new.heap) }
    ensures iterations { OnOk result (map iteration_of store.new.iterations ≡ map iteration_of store.old.iterations ++ (record { item = item; lent = region.now.lent; targets = region.now.targets }) ∷ []) }
{
    store.heap.enter(alloc)?;
    let lent = Items::from_slice(alloc, region.lent.as_slice())?;
    let targets = Items::from_slice(alloc, region.targets.as_slice())?;
    store.iterations.push(Iteration {
        item,
        lent,
        targets,
    })?;
    Ok(())
}

/// Ends the iteration that began last: its objects are dropped, and what was before it is put back.
#[inline(never)]
pub(crate) fn leave_iteration(
    alloc: Global,
    state: &mut State,
    region: &Region,
    saved: Saved,
) -> Result<(), Stop>
    requires { 1 < length (seen state.old).shared.levels }
    ensures { Tells (leaving (region_of region.now) (saved_of saved) (seen state.old)) result state.new }
{
    close_level(&mut state.store);
    state.used = saved.used;
    state.names.join(alloc, region.own.as_slice(), saved.names)?;
    state
        .globals
        .join(alloc, region.own_globals.as_slice(), saved.globals)?;
    Ok(())
}

fn close_level(store: &mut Store)
    requires { 1 < length store.old.heap }
    ensures levels { store.new.heap ≡ take (length store.old.heap - 1) store.old.heap }
    ensures iterations { map iteration_of store.new.iterations ≡ take (length (map iteration_of store.old.iterations) - 1) (map iteration_of store.old.iterations) }
{
    store.heap.leave();
    let _ = store.iterations.pop();
}

/// Begins a region, to which no item has come.
pub(crate) fn start_region(state: &mut State) -> Begun
    ensures new { seen state.new ≡ from_zero (seen state.old) }
    ensures outside { result.outside ≡ is_outside (seen state.old).shared.iterations }
    ensures reached { result.reached ≡ (seen state.old).shared.reached }
{
    let begun = Begun {
        outside: state.store.iterations.is_empty(),
        reached: state.reached,
    };
    state.reached = 0;
    begun
}

/// Ends a region that was left so, and counts it with its items where it began outside of any iteration and ended by itself.
#[inline(never)]
pub(crate) fn finish_region(state: &mut State, begun: Begun, flow: &Flow) -> Result<(), Stop>
    ensures { Tells (finishing begun.outside begun.reached (flow_of flow.now) (seen state.old)) result state.new }
{
    if begun.outside && is_next(flow) {
        count(state)?;
    }
    state.reached = begun.reached;
    Ok(())
}

fn count(state: &mut State) -> Result<(), Memory>
    ensures { OnOk result (seen state.new ≡ one_more (seen state.old)) }
{
    let Some(regions) = state.regions.checked_add(1) else {
        return Err(Memory);
    };
    let Some(items) = state.items.checked_add(state.reached) else {
        return Err(Memory);
    };
    state.regions = regions;
    state.items = items;
    Ok(())
}
