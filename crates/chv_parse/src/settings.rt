// The settings of an insert.
ghost use Rattle.std.specs.Prelude.{◌≡◌};
ghost use Rattle.chv_ast.specs.GrammarStatements.{default_settings};
ghost use Rattle.chv_parse.specs.Reading.{Reads};
ghost use Rattle.chv_parse.specs.StatementReading.{read_called, read_switch, read_views, read_number_setting, read_token, read_later, read_waits, read_setting, read_with, read_some_settings, read_settings, read_settings_behind};

use crate::ParseFault;
use crate::cursor::Cursor;
use chv_ast::{Digits, Quoted, Settings};
use std::alloc::Global;

// The settings where none is written.
fn default_settings() -> Settings
    ensures { result ≡ default_settings }
{
    Settings {
        token: None,
        later: false,
        waits: true,
        max_rows: None,
        min_rows: None,
        min_bytes: None,
    }
}

// Reads a setting's name and the equals sign behind it.
#[tactic(auto, unfolding(crate::specs::StatementReading::read_called))]
fn called(cursor: &mut Cursor, name: &[u8]) -> Result<(), ParseFault>
    ensures { Reads (read_called name.now) cursor.old result cursor.new }
{
    cursor.word(name)?;
    cursor.sign(b"=")?;
    Ok(())
}

// Reads the one digit 0 or 1.
#[tactic(auto, unfolding(crate::specs::StatementReading::read_switch))]
fn switch(cursor: &mut Cursor) -> Result<bool, ParseFault>
    ensures { Reads read_switch cursor.old result cursor.new }
{
    if cursor.next_is_digits(b"1") {
        cursor.digits(b"1")?;
        Ok(true)
    } else {
        cursor.digits(b"0")?;
        Ok(false)
    }
}

// Reads the setting that changes nothing.
#[tactic(auto, unfolding(crate::specs::StatementReading::read_views))]
fn views(cursor: &mut Cursor, settings: Settings) -> Result<Settings, ParseFault>
    ensures { Reads (read_with read_views settings) cursor.old result cursor.new }
{
    called(
        cursor,
        b"deduplicate_blocks_in_dependent_materialized_views",
    )?;
    cursor.digits(b"1")?;
    Ok(settings)
}

// Reads a setting that has a number, or the one that changes nothing, and joins it to settings.
#[tactic(auto, unfolding(crate::specs::StatementReading::read_number_setting))]
fn number_setting(
    cursor: &mut Cursor,
    alloc: Global,
    settings: Settings,
) -> Result<Settings, ParseFault>
    ensures { Reads (read_with read_number_setting settings) cursor.old result cursor.new }
{
    let mut with = settings;
    if cursor.next_is_word(b"max_insert_block_size") {
        called(cursor, b"max_insert_block_size")?;
        with.max_rows = Some(cursor.whole(alloc)?);
        Ok(with)
    } else if cursor.next_is_word(b"min_insert_block_size_rows") {
        called(cursor, b"min_insert_block_size_rows")?;
        with.min_rows = Some(cursor.whole(alloc)?);
        Ok(with)
    } else if cursor.next_is_word(b"min_insert_block_size_bytes") {
        called(cursor, b"min_insert_block_size_bytes")?;
        with.min_bytes = Some(cursor.whole(alloc)?);
        Ok(with)
    } else {
        views(cursor, with)
    }
}

// Reads the token that stands for an insert, and joins it to settings.
#[tactic(auto, unfolding(crate::specs::StatementReading::read_token))]
fn token(cursor: &mut Cursor, alloc: Global, settings: Settings) -> Result<Settings, ParseFault>
    ensures { Reads (read_with read_token settings) cursor.old result cursor.new }
{
    let mut with = settings;
    called(cursor, b"insert_deduplication_token")?;
    with.token = Some(cursor.quoted(alloc)?);
    Ok(with)
}

// Reads whether an insert is held back, and joins it to settings.
#[tactic(auto, unfolding(crate::specs::StatementReading::read_later))]
fn later(cursor: &mut Cursor, settings: Settings) -> Result<Settings, ParseFault>
    ensures { Reads (read_with read_later settings) cursor.old result cursor.new }
{
    let mut with = settings;
    called(cursor, b"async_insert")?;
    with.later = switch(cursor)?;
    Ok(with)
}

// Reads whether an insert that is held back is waited for, and joins it to settings.
#[tactic(auto, unfolding(crate::specs::StatementReading::read_waits))]
fn waits(cursor: &mut Cursor, settings: Settings) -> Result<Settings, ParseFault>
    ensures { Reads (read_with read_waits settings) cursor.old result cursor.new }
{
    let mut with = settings;
    called(cursor, b"wait_for_async_insert")?;
    with.waits = switch(cursor)?;
    Ok(with)
}

// Reads a setting, and joins it to settings, where it replaces what they say of it.
#[tactic(auto, unfolding(crate::specs::StatementReading::read_setting))]
fn setting(cursor: &mut Cursor, alloc: Global, settings: Settings) -> Result<Settings, ParseFault>
    ensures { Reads (read_with read_setting settings) cursor.old result cursor.new }
{
    if cursor.next_is_word(b"insert_deduplication_token") {
        token(cursor, alloc, settings)
    } else if cursor.next_is_word(b"async_insert") {
        later(cursor, settings)
    } else if cursor.next_is_word(b"wait_for_async_insert") {
        waits(cursor, settings)
    } else {
        number_setting(cursor, alloc, settings)
    }
}

// Reads the settings behind some, each behind a comma.
fn settings_behind(
    cursor: &mut Cursor,
    alloc: Global,
    front: Settings,
    count: usize,
) -> Result<Settings, ParseFault>
    ensures { Reads (read_settings_behind front count) cursor.old result cursor.new }
{
    let mut settings = front;
    for _ in 0..count {
        if !cursor.next_is_sign(b",") {
            return Ok(settings);
        }
        cursor.pass();
        settings = setting(cursor, alloc, settings)?;
    }
    Err(ParseFault::Syntax)
}

// Reads settings, with a comma between two of them.
fn some_settings(cursor: &mut Cursor, alloc: Global) -> Result<Settings, ParseFault>
    ensures { Reads read_some_settings cursor.old result cursor.new }
{
    let count = cursor.count();
    let first = setting(cursor, alloc, default_settings())?;
    settings_behind(cursor, alloc, first, count)
}

/// Reads the settings of an insert, if they are written.
#[tactic(auto, unfolding(crate::specs::StatementReading::read_settings))]
pub fn settings(cursor: &mut Cursor, alloc: Global) -> Result<Settings, ParseFault>
    ensures { Reads read_settings cursor.old result cursor.new }
{
    if cursor.next_is_keyword(b"SETTINGS") {
        cursor.keyword(b"SETTINGS")?;
        some_settings(cursor, alloc)
    } else {
        Ok(default_settings())
    }
}
