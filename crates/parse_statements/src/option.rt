ghost use Rattle.std.specs.Prelude.{◌≡◌, ◌&&◌, Some, MatchOption};
ghost use Rattle.parse_laws.specs.Parser.{sees, repeat, take_by, expect, and_then};
ghost use Rattle.grammar_rules.specs.Statements.{no_options, schedules};
ghost use Rattle.grammar_rules.specs.Words.{is_comma, number_of, text_of, entry_of, entry};
ghost use Rattle.parse_expressions.specs.Code.{Reads};
ghost use Rattle.parse_statements.specs.Options as spec;
ghost use Rattle.parse_statements.specs.declared.option.Setting.TheVariants as kinds;
ghost use Rattle.parse_statements.specs.Settings.{set_by, Picked};
ghost use Rattle.parse_statements.specs.Code.{ReadsFor};

use crate::token::spells;
use codon_base::Spelling;
use indent_lexer::{Token, TokenKind};
use parse_expressions::{Cursor, ParseError};
use parse_laws::Cause;
use source_trees::{ParOptions, Schedule};

/// An option of `@par`.
#[derive(Clone, Copy, Debug, PartialEq, Eq)]
pub enum Setting {
    Threads,
    Chunk,
    Schedule,
}

/// The greatest chunk.
const MOST_CHUNK: i64 = 65_536;

/// No option, which is what `@par` alone has.
fn no_options() -> ParOptions
    ensures { result ≡ no_options }
{
    ParOptions {
        num_threads: None,
        chunk_size: None,
        schedule: None,
    }
}

/// The option of this name, where it is still unset.
fn setting_of(options: &ParOptions, word: &Spelling) -> Option<Setting>
    ensures { Picked options.now (spec.setting options.now word.now) result }
{
    if spells(word, b"num_threads".as_slice()) && options.num_threads.is_none() {
        Some(Setting::Threads)
    } else if spells(word, b"chunk_size".as_slice()) && options.chunk_size.is_none() {
        Some(Setting::Chunk)
    } else if spells(word, b"schedule".as_slice()) && options.schedule.is_none() {
        Some(Setting::Schedule)
    } else {
        None
    }
}

/// Takes the name of an option that is still unset.
fn take_setting(cursor: &mut Cursor<'_>, options: &ParOptions) -> Result<Setting, ParseError>
    ensures { ReadsFor (set_by options.now) (take_by (spec.setting_at options.now) cursor.old) result cursor.new }
{
    let Some(first) = cursor.first() else {
        return Err(ParseError::Refused(Cause::Unexpected));
    };
    let TokenKind::Name(word) = &first.kind else {
        return Err(ParseError::Refused(Cause::Unexpected));
    };
    let Some(setting) = setting_of(options, word) else {
        return Err(ParseError::Refused(Cause::Unexpected));
    };
    cursor.skip();
    Ok(setting)
}

fn schedule_in(word: &[u8]) -> Option<Schedule>
    ensures { result ≡ entry word.now schedules }
{
    if word == b"static".as_slice() {
        Some(Schedule::Static)
    } else if word == b"dynamic".as_slice() {
        Some(Schedule::Dynamic)
    } else if word == b"guided".as_slice() {
        Some(Schedule::Guided)
    } else {
        None
    }
}

/// These options with that many threads, where the token is a number from 1 on.
fn with_threads(options: ParOptions, token: &Token) -> Option<ParOptions>
    ensures { result ≡ set_by options kinds.Threads token.now }
{
    let TokenKind::Number(value) = token.kind else {
        return None;
    };
    if value < 1 {
        return None;
    }
    Some(ParOptions {
        num_threads: Some(value as u64),
        ..options
    })
}

/// These options with that chunk, where the token is a number from 1 to the greatest.
fn with_chunk(options: ParOptions, token: &Token) -> Option<ParOptions>
    ensures { result ≡ set_by options kinds.Chunk token.now }
{
    let TokenKind::Number(value) = token.kind else {
        return None;
    };
    if value < 1 || value > MOST_CHUNK {
        return None;
    }
    Some(ParOptions {
        chunk_size: Some(value as u32),
        ..options
    })
}

/// These options with the schedule that the text names.
fn with_schedule(options: ParOptions, token: &Token) -> Option<ParOptions>
    ensures { result ≡ set_by options kinds.Schedule token.now }
{
    let TokenKind::Text(value) = &token.kind else {
        return None;
    };
    let Some(schedule) = schedule_in(value.as_bytes()) else {
        return None;
    };
    Some(ParOptions {
        schedule: Some(schedule),
        ..options
    })
}

/// These options with one more, by the token after `=`.
fn set(options: ParOptions, setting: Setting, token: &Token) -> Option<ParOptions>
    ensures { result ≡ set_by options setting token.now }
{
    match setting {
        Setting::Threads => with_threads(options, token),
        Setting::Chunk => with_chunk(options, token),
        Setting::Schedule => with_schedule(options, token),
    }
}

/// Takes the value of an option.
fn take_value(
    cursor: &mut Cursor<'_>,
    options: ParOptions,
    setting: Setting,
) -> Result<ParOptions, ParseError>
    ensures { Reads (take_by (set_by options setting) cursor.old) result cursor.new }
{
    let Some(first) = cursor.first() else {
        return Err(ParseError::Refused(Cause::Unexpected));
    };
    let Some(options) = set(options, setting, first) else {
        return Err(ParseError::Refused(Cause::Unexpected));
    };
    cursor.skip();
    Ok(options)
}

/// One more option.
#[tactic(auto, unfolding(crate::specs::Options::par_item))]
fn par_item(cursor: &mut Cursor<'_>, options: ParOptions) -> Result<ParOptions, ParseError>
    ensures { Reads (spec.par_item options cursor.old) result cursor.new }
{
    let setting = take_setting(cursor, &options)?;
    cursor.expect_op(b"=".as_slice())?;
    take_value(cursor, options, setting)
}

/// Whether a comma is next, and an option is still unset.
fn goes_on(cursor: &Cursor<'_>, options: &ParOptions) -> bool
    ensures { result ≡ sees (λ t. spec.takes_option options.now && is_comma t) cursor.now }
{
    let takes_option = options.num_threads.is_none()
        || options.chunk_size.is_none()
        || options.schedule.is_none();
    takes_option && cursor.sees_op(b",".as_slice())
}

/// A comma and one more option.
fn par_turn(cursor: &mut Cursor<'_>, options: ParOptions) -> Result<ParOptions, ParseError>
    ensures { Reads (and_then (expect is_comma cursor.old) (λ _. spec.par_item options)) result cursor.new }
{
    cursor.expect_op(b",".as_slice())?;
    par_item(cursor, options)
}

/// The options after the first.
fn more_options(cursor: &mut Cursor<'_>, first: ParOptions) -> Result<ParOptions, ParseError>
    ensures { Reads (spec.more_options first cursor.old) result cursor.new }
{
    let mut options = first;
    'turn: for _turn in 0..cursor.left() {
        if !goes_on(cursor, &options) {
            return Ok(options);
        }
        options = par_turn(cursor, options)?;
    }
    Ok(options)
}

/// The options of `@par`, none where no bracket stands.
#[tactic(auto, unfolding(crate::specs::Options::par_options))]
pub fn read_options(cursor: &mut Cursor<'_>) -> Result<ParOptions, ParseError>
    ensures { Reads (spec.par_options cursor.old) result cursor.new }
{
    if !cursor.sees_op(b"(".as_slice()) {
        return Ok(no_options());
    }
    cursor.expect_op(b"(".as_slice())?;
    let first = par_item(cursor, no_options())?;
    let options = more_options(cursor, first)?;
    cursor.expect_op(b")".as_slice())?;
    Ok(options)
}
