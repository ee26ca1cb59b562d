// What is printed in lists, and what may be absent.
ghost use Rattle.std.specs.Prelude.{◌≡◌, ◌++◌, ℕ, List, codes, OnOk};
ghost use Rattle.std.specs.List.{flat_map};
ghost use Rattle.chv_print.specs.Texts as spec;

use std::alloc::AllocError;

/// What has a canonical text.
pub trait Printed {
    ghost text: { Self → List ℕ };

    /// Puts the text behind `out`.
    fn put(&self, out: &mut Vec<u8>) -> Result<(), AllocError>
        ensures ok { OnOk result (out.new.items ≡ out.old.items ++ text self.now) };
}

/// Puts items behind `out`, with a comma between two of them.
pub fn put_list<T: Printed>(out: &mut Vec<u8>, items: &[T]) -> Result<(), AllocError>
    ensures ok { OnOk result (out.new.items ≡ out.old.items ++ spec.listed T.text items.now) }
{
    match items {
        [] => Ok(()),
        [first, rest @ ..] => {
            first.put(out)?;
            put_behind_others(out, rest)
        }
    }
}

/// Puts items behind `out`, each behind a comma.
fn put_behind_others<T: Printed>(out: &mut Vec<u8>, items: &[T]) -> Result<(), AllocError>
    ensures ok { OnOk result (out.new.items ≡ out.old.items ++ flat_map (λ item. codes ", " ++ T.text item) items.now) }
{
    for item in items {
        out.extend_from_slice(b", ")?;
        item.put(out)?;
    }
    Ok(())
}

/// Puts items in parentheses behind `out`.
pub fn put_enclosed<T: Printed>(out: &mut Vec<u8>, items: &[T]) -> Result<(), AllocError>
    ensures ok { OnOk result (out.new.items ≡ out.old.items ++ spec.enclosed (spec.listed T.text items.now)) }
{
    out.push(b'(')?;
    put_list(out, items)?;
    out.push(b')')?;
    Ok(())
}

/// Puts items behind `out` and their words, and nothing where there are no items.
pub fn put_list_behind<T: Printed>(
    out: &mut Vec<u8>,
    words: &[u8],
    items: &[T],
) -> Result<(), AllocError>
    ensures ok { OnOk result (out.new.items ≡ out.old.items ++ spec.list_text words.now T.text items.now) }
{
    if items.is_empty() {
        return Ok(());
    }
    out.extend_from_slice(words)?;
    put_list(out, items)
}

/// Puts what may be absent behind `out` and its words.
pub fn put_optional<T: Printed>(
    out: &mut Vec<u8>,
    words: &[u8],
    item: &Option<T>,
) -> Result<(), AllocError>
    ensures ok { OnOk result (out.new.items ≡ out.old.items ++ spec.optional_text words.now T.text item.now) }
{
    match item {
        None => Ok(()),
        Some(item) => {
            out.extend_from_slice(words)?;
            item.put(out)
        }
    }
}
