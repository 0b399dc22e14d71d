ghost use Rattle.std.specs.Prelude.{◌≡◌, ◌++◌, OnOk, OnErr, take};
ghost use Rattle.value_operators.specs.Changing.{item_set, item_pushed, extended, cleared, field_set, changed, Changes, Pops, PopsAt};

use crate::made::push_all;
use codon_base::{Heap, Memory, Object, Ref, Value, Values};
use sqlite_items::Items;
use std::alloc::Global;

/// Why a list or an instance is not changed.
#[derive(Clone, Copy, Debug, PartialEq, Eq)]
pub enum ChangeRefusal {
    /// The heap has no such address, or no list or instance there, or it has no such item or field.
    NotThere,
    Memory,
}

/// Puts a value in the place of an item of a list, counted from 0.
pub fn item_set(heap: &mut Heap, at: Ref, place: usize, item: Value) -> Result<(), ChangeRefusal>
    ensures { Changes result (changed (item_set place item) heap.old at) heap.old heap.new }
{
    match heap.object_mut(at) {
        Some(object) => set_item(object, place, item),
        None => Err(ChangeRefusal::NotThere),
    }
}

/// Puts an item at the end of a list.
pub fn item_pushed(heap: &mut Heap, at: Ref, item: Value) -> Result<(), ChangeRefusal>
    ensures { Changes result (changed (item_pushed item) heap.old at) heap.old heap.new }
{
    match heap.object_mut(at) {
        Some(object) => push_item(object, item),
        None => Err(ChangeRefusal::NotThere),
    }
}

/// Takes the last item out of a list. `None` where the address holds no list with an item.
pub fn item_popped(heap: &mut Heap, at: Ref) -> Option<Value>
    ensures { PopsAt result heap.old at heap.new }
{
    match heap.object_mut(at) {
        Some(object) => pop_item(object),
        None => None,
    }
}

/// Puts equal items at the end of a list.
pub fn extended(
    heap: &mut Heap,
    alloc: Global,
    at: Ref,
    more: &[Value],
) -> Result<(), ChangeRefusal>
    ensures { Changes result (changed (extended more.now) heap.old at) heap.old heap.new }
{
    match heap.object_mut(at) {
        Some(object) => extend(object, alloc, more),
        None => Err(ChangeRefusal::NotThere),
    }
}

/// Takes all items out of a list.
pub fn cleared(heap: &mut Heap, alloc: Global, at: Ref) -> Result<(), ChangeRefusal>
    ensures { Changes result (changed cleared heap.old at) heap.old heap.new }
{
    match heap.object_mut(at) {
        Some(object) => clear(object, alloc),
        None => Err(ChangeRefusal::NotThere),
    }
}

/// Gives a field of an instance a value, by its place in the class, counted from 0.
pub fn field_set(heap: &mut Heap, at: Ref, place: usize, value: Value) -> Result<(), ChangeRefusal>
    ensures { Changes result (changed (field_set place value) heap.old at) heap.old heap.new }
{
    match heap.object_mut(at) {
        Some(object) => set_field(object, place, value),
        None => Err(ChangeRefusal::NotThere),
    }
}

fn set_item(object: &mut Object, place: usize, item: Value) -> Result<(), ChangeRefusal>
    ensures { Changes result (item_set place item object.old) object.old object.new }
{
    match object {
        Object::List(values) => {
            if place < values.len() {
                values.set(place, item);
                Ok(())
            } else {
                Err(ChangeRefusal::NotThere)
            }
        }
        Object::Instance { .. } => Err(ChangeRefusal::NotThere),
    }
}

fn push_item(object: &mut Object, item: Value) -> Result<(), ChangeRefusal>
    ensures { Changes result (item_pushed item object.old) object.old object.new }
{
    match object {
        Object::List(values) => match values.push(item) {
            Ok(()) => Ok(()),
            Err(_) => Err(ChangeRefusal::Memory),
        },
        Object::Instance { .. } => Err(ChangeRefusal::NotThere),
    }
}

fn pop_item(object: &mut Object) -> Option<Value>
    ensures { Pops result object.old object.new }
{
    match object {
        Object::List(values) => values.pop(),
        Object::Instance { .. } => None,
    }
}

fn extend(object: &mut Object, alloc: Global, more: &[Value]) -> Result<(), ChangeRefusal>
    ensures { Changes result (extended more.now object.old) object.old object.new }
{
    match object {
        Object::List(values) => match extend_list(values, alloc, more) {
            Ok(()) => Ok(()),
            Err(_) => Err(ChangeRefusal::Memory),
        },
        Object::Instance { .. } => Err(ChangeRefusal::NotThere),
    }
}

fn extend_list(values: &mut Values, alloc: Global, more: &[Value]) -> Result<(), Memory>
    ensures ok { OnOk result (values.new ≡ values.old ++ more.now) }
    ensures err { OnErr result (values.new ≡ values.old) }
{
    let size = values.len();
    match push_all(alloc, values, more) {
        Ok(()) => Ok(()),
        Err(memory) => {
            shorten(values, size);
            Err(memory)
        }
    }
}

/// Drops the items from a place on.
fn shorten(values: &mut Values, size: usize)
    ensures { values.new ≡ take size values.old }
{
    'shorten: while values.len() > size {
        let _ = values.pop();
    }
}

fn clear(object: &mut Object, alloc: Global) -> Result<(), ChangeRefusal>
    ensures { Changes result (cleared object.old) object.old object.new }
{
    match object {
        Object::List(values) => {
            *values = Items::new(alloc);
            Ok(())
        }
        Object::Instance { .. } => Err(ChangeRefusal::NotThere),
    }
}

fn set_field(object: &mut Object, place: usize, value: Value) -> Result<(), ChangeRefusal>
    ensures { Changes result (field_set place value object.old) object.old object.new }
{
    match object {
        Object::List(_) => Err(ChangeRefusal::NotThere),
        Object::Instance { fields, .. } => {
            if place < fields.len() {
                fields.set(place, value);
                Ok(())
            } else {
                Err(ChangeRefusal::NotThere)
            }
        }
    }
}
