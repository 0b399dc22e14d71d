ghost use Rattle.std.specs.Prelude.{◌≡◌, true, if◌then◌else◌, IsTrue, nat_lt};
ghost use Rattle.std.specs.List.{list_all};
ghost use Rattle.std.specs.Fmt.{signed_decimal};
ghost use Rattle.codon_base.specs.declared.value.Value.{out-Value};
ghost use Rattle.codon_base.specs.Printed.{shown, text_met, tuple_text, list_text, text_of, more_texts, entered, quoted};
ghost use Rattle.codon_base.specs.Operators.{whole};
ghost use Rattle.codon_base.specs.Walks.{items, answer, nesting_limit};
ghost use Rattle.codon_base.specs.ShowAnswers.{AnswersShown, AnswersWhole, Prints, refusal_of};

use crate::quote::push_quoted;
use crate::walk::{NESTING_LIMIT, VALUE_LIMIT, WalkEnd, whole_items};
use crate::{Bytes, Holder, Or, Ref, Sighted, Text, Unlent, Value};
use itoa::Buffer;
use sqlite_items::Items;
use std::alloc::Global;

/// Why a value has no printed text.
#[derive(Clone, Copy, Debug, PartialEq, Eq)]
pub enum ShowRefusal {
    /// The walk met an instance, an address that the heap does not have, or a value that is not set.
    NotShown,
    /// The walk met more than 33,554,432 values, or entered more than 1,000 lists and tuples one inside the other.
    TooLarge,
    Memory,
}

/// A walk so far: what it wrote, and how many values it met.
#[derive(Drop)]
struct Printer {
    text: Text,
    met: u32,
}

/// The text of a value: as `print` writes it, or as in a list or a tuple where `inside`.
pub fn show_value<H: Holder>(
    alloc: Global,
    heap: &H,
    v: &Value,
    inside: bool,
) -> Result<Bytes, ShowRefusal>
    ensures { AnswersShown result (shown (H.levels heap.now) v.now inside) }
{
    match show_whole(alloc, &Unlent { heap }, v, inside) {
        Ok(text) => match text.into_bytes() {
            Ok(bytes) => Ok(Items::from_vec(bytes)),
            Err(_) => Err(ShowRefusal::Memory),
        },
        Err(Or::No(end)) => Err(refusal_of(end)),
        Err(Or::Memory) => Err(ShowRefusal::Memory),
    }
}

/// The refusal where no list is lent.
fn refusal_of(end: WalkEnd) -> ShowRefusal
    ensures { result ≡ refusal_of end }
{
    match end {
        WalkEnd::WrongKind | WalkEnd::LentList => ShowRefusal::NotShown,
        WalkEnd::TooLarge => ShowRefusal::TooLarge,
    }
}

/// The same at a place where lists may be lent. A list that is lent has no text there.
pub fn show_whole<S: Sighted>(
    alloc: Global,
    sight: &S,
    v: &Value,
    inside: bool,
) -> Result<Text, Or<WalkEnd>>
    ensures { AnswersWhole result (text_of (whole (S.sight sight.now)) nesting_limit inside v.now 0) }
{
    let Ok(text) = Text::new(alloc) else {
        return Err(Or::Memory);
    };
    let mut printer = Printer { text, met: 0 };
    show_one(sight, v, inside, NESTING_LIMIT, &mut printer)?;
    Ok(printer.text)
}

/// Walks a value, where `room` more lists and tuples may be entered one inside the other.
#[cycle(show)]
fn show_one<S: Sighted>(
    sight: &S,
    value: &Value,
    inside: bool,
    room: u32,
    printer: &mut Printer,
) -> Result<(), Or<WalkEnd>>
    ensures { Prints result (text_of (whole (S.sight sight.now)) room inside value.now)
        printer.old printer.new }
{
    if printer.met >= VALUE_LIMIT {
        return Err(Or::No(WalkEnd::TooLarge));
    }
    printer.met += 1;
    show_met(sight, value, inside, room, printer)
}

/// Goes on with a value that was met.
#[cycle(show)]
fn show_met<S: Sighted>(
    sight: &S,
    value: &Value,
    inside: bool,
    room: u32,
    printer: &mut Printer,
) -> Result<(), Or<WalkEnd>>
    ensures { let look = whole (S.sight sight.now) in
        Prints result (text_met (entered look room) look inside (out-Value value.now))
        printer.old printer.new }
{
    match value {
        Value::Int(number) => printer.push_number(*number),
        Value::Bool(true) => printer.push(b"True"),
        Value::Bool(false) => printer.push(b"False"),
        Value::Text(text) => printer.push_text(text, inside),
        Value::Tuple(values) => show_tuple(sight, values.as_slice(), room, printer),
        Value::Ref(at) => show_list(sight, *at, room, printer),
        Value::Unit => printer.push(b"None"),
        Value::Unset => Err(Or::No(WalkEnd::WrongKind)),
    }
}

#[cycle(show)]
fn show_tuple<S: Sighted>(
    sight: &S,
    values: &[Value],
    room: u32,
    printer: &mut Printer,
) -> Result<(), Or<WalkEnd>>
    ensures { Prints result (tuple_text (entered (whole (S.sight sight.now)) room) values.now)
        printer.old printer.new }
{
    printer.push(b"(")?;
    show_items(sight, values, room, printer)?;
    printer.push(if values.len() == 1 { b",)" } else { b")" })
}

#[cycle(show)]
fn show_list<S: Sighted>(
    sight: &S,
    at: Ref,
    room: u32,
    printer: &mut Printer,
) -> Result<(), Or<WalkEnd>>
    ensures { let look = whole (S.sight sight.now) in
        Prints result (list_text (entered look room) (look at))
        printer.old printer.new }
{
    match whole_items(sight, at) {
        Ok(values) => show_list_items(sight, values, room, printer),
        Err(end) => Err(Or::No(end)),
    }
}

#[cycle(show)]
fn show_list_items<S: Sighted>(
    sight: &S,
    values: &[Value],
    room: u32,
    printer: &mut Printer,
) -> Result<(), Or<WalkEnd>>
    ensures { Prints result (list_text (entered (whole (S.sight sight.now)) room) (items values.now))
        printer.old printer.new }
{
    printer.push(b"[")?;
    show_items(sight, values, room, printer)?;
    printer.push(b"]")
}

/// Walks the items of a list or a tuple that is entered, with `, ` between them.
#[cycle(show)]
fn show_items<S: Sighted>(
    sight: &S,
    values: &[Value],
    room: u32,
    printer: &mut Printer,
) -> Result<(), Or<WalkEnd>>
    ensures { Prints result (entered (whole (S.sight sight.now)) room values.now)
        printer.old printer.new }
{
    if room == 0 {
        return Err(Or::No(WalkEnd::TooLarge));
    }
    match values {
        [] => Ok(()),
        [first, rest @ ..] => {
            show_one(sight, first, true, room - 1, printer)?;
            show_more(sight, rest, room - 1, printer)
        }
    }
}

/// Walks the items after the first, with `, ` before each.
#[cycle(show)]
fn show_more<S: Sighted>(
    sight: &S,
    values: &[Value],
    room: u32,
    printer: &mut Printer,
) -> Result<(), Or<WalkEnd>>
    ensures { Prints result (more_texts (text_of (whole (S.sight sight.now)) room true) values.now)
        printer.old printer.new }
{
    'more: for value in values {
        printer.push(b", ")?;
        show_one(sight, value, true, room, printer)?;
    }
    Ok(())
}

impl Printer {
    fn push(&mut self, text: &[u8]) -> Result<(), Or<WalkEnd>>
        requires { IsTrue (list_all (λ b. nat_lt b 128) text.now) }
        ensures { Prints result (answer text.now)
            self.old self.new }
    {
        match self.text.append_bytes(text) {
            Ok(()) => Ok(()),
            Err(_) => Err(Or::Memory),
        }
    }

    fn push_number(&mut self, number: i64) -> Result<(), Or<WalkEnd>>
        ensures { Prints result (answer (signed_decimal number))
            self.old self.new }
    {
        let mut buffer = Buffer::new();
        self.push(buffer.format(number).as_bytes())
    }

    /// A text, in quotes where it stands inside a list or a tuple.
    fn push_text(&mut self, text: &Text, inside: bool) -> Result<(), Or<WalkEnd>>
        ensures { Prints result (answer (if inside then quoted text.now else text.now))
            self.old self.new }
    {
        let pushed = if inside {
            push_quoted(&mut self.text, text)
        } else {
            self.text.append(text)
        };
        match pushed {
            Ok(()) => Ok(()),
            Err(_) => Err(Or::Memory),
        }
    }
}
