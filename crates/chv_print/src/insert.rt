// The canonical text of inserts.
ghost use Rattle.std.specs.Prelude.{◌≡◌, ◌++◌, ◌||◌, [], if◌then◌else◌, codes, false, is_some, IfOk, OnOk};
ghost use Rattle.chv_print.specs.Texts.{optional_text, quoted_text};
ghost use Rattle.chv_print.specs.StatementTexts.{digits_text};
ghost use Rattle.chv_print.specs.StatementTexts as spec;

use crate::list::{Printed, put_enclosed, put_list, put_optional};
use crate::name::{put_name, put_quoted};
use chv_ast::{Digits, Insert, LiteralRow, Names, Quoted, Settings};
use std::alloc::AllocError;

/// Puts a statement that brings rows behind `out`.
#[tactic(auto, unfolding(crate::specs::StatementTexts::insert_text))]
pub fn put_insert(out: &mut Vec<u8>, brought: &Insert) -> Result<(), AllocError>
    ensures ok { OnOk result (out.new.items ≡ out.old.items ++ spec.insert_text brought.now) }
{
    out.extend_from_slice(b"INSERT INTO ")?;
    put_name(out, brought.table.as_slice())?;
    put_optional(out, b" ", &brought.columns)?;
    put_settings(out, &brought.settings)?;
    out.extend_from_slice(b" VALUES ")?;
    put_list(out, brought.rows.as_slice())?;
    Ok(())
}

impl Printed for Names {
    ghost text = { spec.names_text };

    fn put(&self, out: &mut Vec<u8>) -> Result<(), AllocError> {
        put_enclosed(out, self.as_slice())
    }
}

impl Printed for LiteralRow {
    ghost text = { spec.row_text };

    fn put(&self, out: &mut Vec<u8>) -> Result<(), AllocError> {
        put_enclosed(out, self.as_slice())
    }
}

/// Puts the settings of an insert behind `out`.
#[tactic(auto, unfolding(crate::specs::StatementTexts::settings_text))]
fn put_settings(out: &mut Vec<u8>, settings: &Settings) -> Result<(), AllocError>
    ensures ok { OnOk result (out.new.items ≡ out.old.items ++ spec.settings_text settings.now) }
{
    let any = put_token(out, &settings.token)?;
    let any = put_switch(out, any, b"async_insert = 1", settings.later)?;
    let any = put_switch(out, any, b"wait_for_async_insert = 0", !settings.waits)?;
    let any = put_size(out, any, b"max_insert_block_size = ", &settings.max_rows)?;
    let any = put_size(
        out,
        any,
        b"min_insert_block_size_rows = ",
        &settings.min_rows,
    )?;
    put_size(
        out,
        any,
        b"min_insert_block_size_bytes = ",
        &settings.min_bytes,
    )?;
    Ok(())
}

/// Puts what stands in front of a setting behind `out`; `any` says whether others stand in front of it.
fn put_mark(out: &mut Vec<u8>, any: bool) -> Result<(), AllocError>
    ensures ok { OnOk result (out.new.items ≡ out.old.items ++ spec.setting_mark any) }
{
    out.extend_from_slice(if any { b", ".as_slice() } else { b" SETTINGS " })
}

/// Puts a token as the first setting behind `out`, where there is one, and answers whether there is.
fn put_token(out: &mut Vec<u8>, token: &Option<Quoted>) -> Result<bool, AllocError>
    ensures ok { OnOk result (out.new.items ≡ out.old.items ++ optional_text (codes " SETTINGS insert_deduplication_token = ") quoted_text token.now) }
    ensures any { IfOk result (λ any. any ≡ is_some token.now) }
{
    match token {
        None => Ok(false),
        Some(text) => {
            out.extend_from_slice(b" SETTINGS insert_deduplication_token = ")?;
            put_quoted(out, text.as_slice())?;
            Ok(true)
        }
    }
}

/// Puts a setting that is on or off behind `out`, where it is wanted, and answers whether any setting stands there then.
fn put_switch(out: &mut Vec<u8>, any: bool, text: &[u8], wanted: bool) -> Result<bool, AllocError>
    ensures ok { OnOk result (out.new.items ≡ out.old.items ++ (if wanted then spec.setting_mark any ++ text.now else [])) }
    ensures any { IfOk result (λ after. after ≡ (any || wanted)) }
{
    if !wanted {
        return Ok(any);
    }
    put_mark(out, any)?;
    out.extend_from_slice(text)?;
    Ok(true)
}

/// Puts a setting with digits behind `out`, where there are some, and answers whether any setting stands there then.
fn put_size(
    out: &mut Vec<u8>,
    any: bool,
    words: &[u8],
    digits: &Option<Digits>,
) -> Result<bool, AllocError>
    ensures ok { OnOk result (out.new.items ≡ out.old.items ++ digits_text (spec.setting_mark any ++ words.now) digits.now) }
    ensures any { IfOk result (λ after. after ≡ (any || is_some digits.now)) }
{
    match digits {
        None => Ok(any),
        Some(digits) => {
            put_mark(out, any)?;
            out.extend_from_slice(words)?;
            out.extend_from_slice(digits.as_slice())?;
            Ok(true)
        }
    }
}
