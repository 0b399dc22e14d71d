ghost use Rattle.std.specs.Prelude.{◌≡◌, ◌&&◌, ◌∷◌, ◌++◌, [], not, IfOk, Some};
ghost use Rattle.parse_laws.specs.Parser.{sees, take_by, choose, expect, and_then, pure};
ghost use Rattle.grammar_rules.specs.Words.{is_comma};
ghost use Rattle.parse_expressions.specs.declared.form.Form.TheVariants.{Whole};
ghost use Rattle.parse_expressions.specs.Reading.{read};
ghost use Rattle.parse_expressions.specs.Code.{Reads};
ghost use Rattle.parse_statements.specs.Heads.{is_equals};
ghost use Rattle.parse_statements.specs.Prints as spec;
ghost use Rattle.parse_statements.specs.Settings.{setter, Sets};
ghost use Rattle.parse_statements.specs.Code.{readers, ReadsFor};

use crate::token::{MOST_ITEMS, spells};
use codon_base::Spelling;
use indent_lexer::TokenKind;
use parse_expressions::{Cursor, ParseError, read_expression};
use parse_laws::Cause;
use source_trees::{Expr, PrintOptions, Printed};
use sqlite_items::{Boxed, Items};
use std::alloc::{AllocError, Global};
use std::marker::Model;

/// An option of `print`.
#[derive(Clone, Copy, Debug, PartialEq, Eq)]
pub enum PrintOption {
    Sep,
    End,
}

/// Printed values and options, none of which is written.
pub fn nothing(alloc: Global) -> Printed
    ensures { result ≡ spec.nothing }
{
    Printed {
        values: Items::new(alloc),
        options: PrintOptions::Neither,
    }
}

/// The option of this name, where it may stand after these.
fn option_after(options: &PrintOptions, word: &Spelling) -> Option<PrintOption>
    ensures { Sets options.now (spec.option_after options.now word.now) result }
{
    let is_sep = spells(word, b"sep".as_slice());
    let is_end = spells(word, b"end".as_slice());
    let takes_sep = matches!(options, PrintOptions::Neither | PrintOptions::End(_));
    let takes_end = matches!(options, PrintOptions::Neither | PrintOptions::Sep(_));
    if takes_sep && is_sep {
        Some(PrintOption::Sep)
    } else if takes_end && is_end {
        Some(PrintOption::End)
    } else {
        None
    }
}

/// The option whose name was read as an expression, where it may stand after these.
#[tactic(auto, unfolding(crate::specs::Targets::target_of))]
fn option_by(options: &PrintOptions, tree: &Expr) -> Option<PrintOption>
    ensures { Sets options.now (spec.option_by options.now tree.now) result }
{
    match tree {
        Expr::Name(_, spelling) => option_after(options, spelling),
        _ => None,
    }
}

/// Takes the name of an option that may stand after these.
fn take_option(cursor: &mut Cursor<'_>, options: &PrintOptions) -> Result<PrintOption, ParseError>
    ensures { ReadsFor (setter options.now) (take_by (spec.option_at options.now) cursor.old) result cursor.new }
{
    let Some(first) = cursor.first() else {
        return Err(ParseError::Refused(Cause::Unexpected));
    };
    let TokenKind::Name(spelling) = &first.kind else {
        return Err(ParseError::Refused(Cause::Unexpected));
    };
    let Some(option) = option_after(options, spelling) else {
        return Err(ParseError::Refused(Cause::Unexpected));
    };
    cursor.skip();
    Ok(option)
}

/// The first option.
fn alone(option: PrintOption, tree: Expr) -> PrintOptions
    ensures { result ≡ setter PrintOptions.Neither option tree }
{
    match option {
        PrintOption::Sep => PrintOptions::Sep(tree),
        PrintOption::End => PrintOptions::End(tree),
    }
}

/// An option after `sep`.
fn after_sep(sep: Expr, option: PrintOption, tree: Expr) -> PrintOptions
    ensures { result ≡ setter (PrintOptions.Sep sep) option tree }
{
    match option {
        PrintOption::Sep => PrintOptions::Sep(sep),
        PrintOption::End => PrintOptions::SepEnd(sep, tree),
    }
}

/// An option after `end`.
fn after_end(end: Expr, option: PrintOption, tree: Expr) -> PrintOptions
    ensures { result ≡ setter (PrintOptions.End end) option tree }
{
    match option {
        PrintOption::Sep => PrintOptions::EndSep(end, tree),
        PrintOption::End => PrintOptions::End(end),
    }
}

/// These options and one more.
fn with_option(options: PrintOptions, option: PrintOption, tree: Expr) -> PrintOptions
    ensures { result ≡ setter options option tree }
{
    match options {
        PrintOptions::Neither => alone(option, tree),
        PrintOptions::Sep(sep) => after_sep(sep, option, tree),
        PrintOptions::End(end) => after_end(end, option, tree),
        PrintOptions::SepEnd(sep, end) => PrintOptions::SepEnd(sep, end),
        PrintOptions::EndSep(end, sep) => PrintOptions::EndSep(end, sep),
    }
}

/// Whether no option is written.
fn is_neither(options: &PrintOptions) -> bool
    ensures { result ≡ spec.is_neither options.now }
{
    match options {
        PrintOptions::Neither => true,
        PrintOptions::Sep(_) => false,
        PrintOptions::End(_) => false,
        PrintOptions::SepEnd(_, _) => false,
        PrintOptions::EndSep(_, _) => false,
    }
}

/// Whether both options are written.
fn is_whole(options: &PrintOptions) -> bool
    ensures { result ≡ spec.is_whole options.now }
{
    match options {
        PrintOptions::Neither => false,
        PrintOptions::Sep(_) => false,
        PrintOptions::End(_) => false,
        PrintOptions::SepEnd(_, _) => true,
        PrintOptions::EndSep(_, _) => true,
    }
}

/// These trees with one more at the end.
fn pushed(values: Items<Expr>, tree: Expr) -> Result<Items<Expr>, AllocError>
    ensures { IfOk result (λ vs. vs ≡ values ++ tree ∷ []) }
{
    let mut values = values;
    values.push(tree)?;
    Ok(values)
}

/// Values and options that are read so far. Contracts see what would be printed.
#[derive(Drop)]
pub struct OpenPrinted {
    values: Items<Expr>,
    options: Boxed<PrintOptions>,
}

impl Model for OpenPrinted {
    ghost use Rattle.source_trees.specs.declared.pipeline.Printed.{Printed};
    ghost use Rattle.source_trees.specs.contracts.pipeline.Printed as p;
    ghost use Rattle.std.specs.Coded.{codes};
    ghost use Rattle.parse_statements.specs.Settings.{printed_of};

    ghost Value = { Printed };

    ghost coded = { Prim.hlevel (codes, p.the_row.coded) };

    ghost view = { λ o. printed_of o.values o.options };
}

impl OpenPrinted {
    fn new(alloc: Global) -> Result<OpenPrinted, AllocError>
        ensures { IfOk result (λ p. p ≡ spec.nothing) }
    {
        let options = Boxed::new(alloc, PrintOptions::Neither)?;
        Ok(OpenPrinted {
            values: Items::new(alloc),
            options,
        })
    }

    fn options(&self) -> &PrintOptions
        ensures { result.now ≡ self.now.options }
    {
        self.options.get()
    }

    /// Whether one more value may follow.
    fn takes_one(&self) -> bool
        ensures { result ≡ spec.takes_one self.now }
    {
        is_neither(self.options.get()) && self.values.len() < MOST_ITEMS
    }

    /// Puts a value at the end.
    fn with_value(self, tree: Expr) -> Result<OpenPrinted, AllocError>
        ensures { IfOk result (λ p. p ≡ spec.with_value self tree) }
    {
        let OpenPrinted { values, options } = self;
        let values = pushed(values, tree)?;
        Ok(OpenPrinted { values, options })
    }

    /// Puts an option behind those that stand.
    fn set(self, alloc: Global, option: PrintOption, tree: Expr) -> Result<OpenPrinted, AllocError>
        ensures { IfOk result (λ p. p ≡ spec.with_options self (setter self.options option tree)) }
    {
        let OpenPrinted { values, options } = self;
        let options = with_option(options.into_inner(), option, tree);
        let options = Boxed::new(alloc, options)?;
        Ok(OpenPrinted { values, options })
    }

    /// What is printed.
    pub fn into_printed(self) -> Printed
        ensures { result ≡ self }
    {
        let OpenPrinted { values, options } = self;
        Printed {
            values,
            options: options.into_inner(),
        }
    }
}

/// `=` and the value of an option.
#[tactic(auto, unfolding(crate::specs::Prints::set_to))]
fn set_to(
    alloc: Global,
    cursor: &mut Cursor<'_>,
    room: u32,
    printed: OpenPrinted,
    option: PrintOption,
) -> Result<OpenPrinted, ParseError>
    ensures { Reads (spec.set_to readers room printed (Some (setter printed.options option)) cursor.old) result cursor.new }
{
    cursor.expect_op(b"=".as_slice())?;
    let tree = read_expression(alloc, cursor, room)?;
    Ok(printed.set(alloc, option, tree.into_tree())?)
}

/// `=` and the value of the option that this expression names.
#[tactic(auto, unfolding(crate::specs::Prints::set_to))]
fn set_by(
    alloc: Global,
    cursor: &mut Cursor<'_>,
    room: u32,
    printed: OpenPrinted,
    tree: &Expr,
) -> Result<OpenPrinted, ParseError>
    ensures { Reads (spec.set_to readers room printed (spec.option_by printed.options tree.now) cursor.old) result cursor.new }
{
    match option_by(printed.options(), tree) {
        Some(option) => set_to(alloc, cursor, room, printed, option),
        None => Err(ParseError::Refused(Cause::Unexpected)),
    }
}

/// A value, or an option where `=` follows its name.
fn value_or_option(
    alloc: Global,
    cursor: &mut Cursor<'_>,
    room: u32,
    printed: OpenPrinted,
) -> Result<OpenPrinted, ParseError>
    ensures { Reads (and_then (read room Whole cursor.old) (λ x. choose is_equals (spec.set_to readers room printed (spec.option_by printed.options x)) (pure (spec.with_value printed x)))) result cursor.new }
{
    let tree = read_expression(alloc, cursor, room)?.into_tree();
    if cursor.sees_op(b"=".as_slice()) {
        return set_by(alloc, cursor, room, printed, &tree);
    }
    Ok(printed.with_value(tree)?)
}

/// One more value or option.
#[tactic(auto, unfolding(crate::specs::Prints::print_item))]
fn print_item(
    alloc: Global,
    cursor: &mut Cursor<'_>,
    room: u32,
    printed: OpenPrinted,
) -> Result<OpenPrinted, ParseError>
    ensures { Reads (spec.print_item readers room printed cursor.old) result cursor.new }
{
    if printed.takes_one() {
        return value_or_option(alloc, cursor, room, printed);
    }
    let option = take_option(cursor, printed.options())?;
    set_to(alloc, cursor, room, printed, option)
}

/// Whether a comma is next, and a value or an option may follow it.
#[tactic(auto, using(crate::proofs::Goes::sees_when))]
fn goes_on(cursor: &Cursor<'_>, printed: &OpenPrinted) -> bool
    ensures { result ≡ sees (λ t. not (spec.is_whole printed.now.options) && is_comma t) cursor.now }
{
    !is_whole(printed.options()) && cursor.sees_op(b",".as_slice())
}

/// A comma and one more value or option.
fn print_turn(
    alloc: Global,
    cursor: &mut Cursor<'_>,
    room: u32,
    printed: OpenPrinted,
) -> Result<OpenPrinted, ParseError>
    ensures { Reads (and_then (expect is_comma cursor.old) (λ _. spec.print_item readers room printed)) result cursor.new }
{
    cursor.expect_op(b",".as_slice())?;
    print_item(alloc, cursor, room, printed)
}

/// The values and options after the first.
fn more_printed(
    alloc: Global,
    cursor: &mut Cursor<'_>,
    room: u32,
    first: OpenPrinted,
) -> Result<OpenPrinted, ParseError>
    ensures { Reads (spec.more_printed readers room first cursor.old) result cursor.new }
{
    let mut printed = first;
    'turn: for _turn in 0..cursor.left() {
        if !goes_on(cursor, &printed) {
            return Ok(printed);
        }
        printed = print_turn(alloc, cursor, room, printed)?;
    }
    Ok(printed)
}

/// What stands in the brackets of `print(..)`.
#[tactic(auto, unfolding(crate::specs::Prints::printed))]
pub fn read_printed(
    alloc: Global,
    cursor: &mut Cursor<'_>,
    room: u32,
) -> Result<OpenPrinted, ParseError>
    ensures { Reads (spec.printed readers room cursor.old) result cursor.new }
{
    let none = OpenPrinted::new(alloc)?;
    if !cursor.begins(3) {
        return Ok(none);
    }
    let first = print_item(alloc, cursor, room, none)?;
    more_printed(alloc, cursor, room, first)
}
