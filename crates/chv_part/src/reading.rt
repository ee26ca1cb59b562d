// How the file of a part is read back.
ghost use Rattle.std.specs.Prelude.{◌≡◌, ◌≢◌, ◌++◌, ◌+◌, ◌-◌, ◌*◌, ◌<◌, ◌≤◌, ◌^◌, List, ℕ, length, IfOk, IfErr, IfSome, IsNone, IsErrOf, [], take, drop};
ghost use Rattle.std.specs.Int.{w64, to_le_bytes};
ghost use Rattle.chv_site.specs.Outside.{bytes_in};
ghost use Rattle.chv_site.specs.Effects.{OnlyReads};
ghost use Rattle.chv_types.specs.declared.value.Value.{Value};
ghost use Rattle.chv_block.specs.Spellings.{AllAreOf};
ghost use Rattle.chv_part.specs.Books.{TableForm, AreColumns};
ghost use Rattle.chv_part.specs.Columns.{ColumnIsOf, HasGained, head_spelling};
ghost use Rattle.chv_part.specs.Parts.{column_spelling, columns_spelling, part_body, frame_head, framed, part_frame, part_file, IsPartFile, HashDiffers, IsShapeless, IsDamage};

use crate::encoding::{FRAME_BYTES, MARK};
use byteorder::{ByteOrder, LittleEndian};
use chv_block::{put_kinds, read_value};
use chv_sip::body_hash;
use chv_site::{Failed, FileId, Site};
use chv_types::{Block, Kind, Kinds, Row};
use std::alloc::{AllocError, Global};

/// Why a part was not read.
#[derive(Clone, Copy, Debug, PartialEq, Eq)]
pub enum PartFault {
    /// A call of the site failed.
    Failed,
    /// The file keeps another hash of its body than the one found.
    Hash { kept: u64, found: u64 },
    /// The file's frame does not fit, or its body is not that of rows of the table's kinds.
    Shape,
    /// There was no memory.
    NoMemory,
}

impl From<Failed> for PartFault {
    ghost use Rattle.std.specs.Prelude.{◌≡◌};
    ghost use Rattle.chv_part.specs.declared.reading.PartFault.TheVariants as fault;

    ghost from_gives = { λ _ e. e ≡ fault.Failed };

    fn from(_: Failed) -> Self {
        PartFault::Failed
    }
}

impl From<AllocError> for PartFault {
    ghost use Rattle.std.specs.Prelude.{◌≡◌};
    ghost use Rattle.chv_part.specs.declared.reading.PartFault.TheVariants as fault;

    ghost from_gives = { λ _ e. e ≡ fault.NoMemory };

    fn from(_: AllocError) -> Self {
        PartFault::NoMemory
    }
}

/// The rows of a part of a table with columns of these kinds, in the order that they have there. It changes no file.
///
/// A file that is absent, cut short or of other kinds has no shape. No length in it is trusted: memory is taken for the
/// body once the frame has the length that the file has, and for as many rows as the body has room for.
pub fn read_part<W: Site>(
    alloc: Global,
    site: &mut W,
    f: FileId,
    kinds: &Kinds,
) -> Result<Block, PartFault>
    requires columns { AreColumns kinds.now }
    ensures read { W.tells → IfOk result (λ rows. (form : TableForm) → form.kinds ≡ kinds.now → IsPartFile form rows (bytes_in (W.outside site.old) f)) }
    ensures kinds { IfOk result (λ rows. AllAreOf kinds.now rows) }
    ensures hash { W.tells → (kept found : ℕ) → IsErrOf result (PartFault.Hash kept found) → HashDiffers kept found (bytes_in (W.outside site.old) f) }
    ensures differ { (kept found : ℕ) → IsErrOf result (PartFault.Hash kept found) → kept ≢ found }
    ensures shape { W.tells → IsErrOf result PartFault.Shape → (form : TableForm) → form.kinds ≡ kinds.now → IsShapeless form (bytes_in (W.outside site.old) f) }
    ensures keeps { OnlyReads W.tells (IsErrOf result PartFault.Failed) (W.outside site.old) (W.outside site.new) }
{
    let frame = read_frame(alloc, site, f)?;
    framed_rows(alloc, frame.kept, &frame.body, kinds)
}

// A frame: the hash that it keeps, and the body.
#[derive(Drop)]
struct Frame {
    kept: u64,
    body: Vec<u8>,
}

// The frame that a file is. Its head has to fit the file before memory is taken for the body.
fn read_frame<W: Site>(alloc: Global, site: &mut W, f: FileId) -> Result<Frame, PartFault>
    ensures read { W.tells → IfOk result (λ frame. bytes_in (W.outside site.old) f ≡ framed frame.kept frame.body.items) }
    ensures shape { W.tells → IsErrOf result PartFault.Shape → (kept : ℕ) (body : List ℕ) → bytes_in (W.outside site.old) f ≢ framed kept body }
    ensures unhashed { (kept found : ℕ) → IsErrOf result (PartFault.Hash kept found) → ⊥ }
    ensures keeps { OnlyReads W.tells (IsErrOf result PartFault.Failed) (W.outside site.old) (W.outside site.new) }
{
    let size = site.size(f)?;
    let mut head = [0u8; FRAME_BYTES];
    let count = site.fetch(f, 0, &mut head)?;
    match kept_hash(&head[..count], size) {
        Some(kept) => read_body(alloc, site, f, kept, size),
        None => Err(PartFault::Shape),
    }
}

// The hash that the head of a frame keeps, where it is the head of a file of this size.
fn kept_hash(head: &[u8], size: u64) -> Option<u64>
    ensures some { IfSome result (λ kept. (FRAME_BYTES ≤ size) × (head.now ≡ frame_head (size - FRAME_BYTES) kept)) }
    ensures none { IsNone result → FRAME_BYTES ≤ size → (kept : ℕ) → head.now ≢ frame_head (size - FRAME_BYTES) kept }
{
    let rest = head.strip_prefix(&MARK)?;
    let (length, rest) = split_number(rest)?;
    let (kept, rest) = split_number(rest)?;
    if !rest.is_empty() || size < FRAME_BYTES as u64 || length != size - FRAME_BYTES as u64 {
        return None;
    }
    Some(kept)
}

// The frame of a file of this size, whose head keeps this hash.
fn read_body<W: Site>(
    alloc: Global,
    site: &mut W,
    f: FileId,
    kept: u64,
    size: u64,
) -> Result<Frame, PartFault>
    requires room { FRAME_BYTES ≤ size }
    requires head { W.tells → take FRAME_BYTES (bytes_in (W.outside site.old) f) ≡ frame_head (size - FRAME_BYTES) kept }
    requires size { W.tells → size ≡ length (bytes_in (W.outside site.old) f) }
    ensures read { W.tells → IfOk result (λ frame. bytes_in (W.outside site.old) f ≡ framed frame.kept frame.body.items) }
    ensures undamaged { IfErr result (λ fault. ¬ IsDamage fault) }
    ensures keeps { OnlyReads W.tells (IsErrOf result PartFault.Failed) (W.outside site.old) (W.outside site.new) }
{
    let mut body = vec![in alloc; 0u8; (size - FRAME_BYTES as u64) as usize]?;
    let count = site.fetch(f, FRAME_BYTES as u64, &mut body)?;
    body.truncate(count);
    Ok(Frame { kept, body })
}

// The rows of the part with this body, in a frame that keeps this hash.
#[tactic(auto, unfolding(crate::specs::Parts::part_file))]
fn framed_rows(alloc: Global, kept: u64, body: &[u8], kinds: &Kinds) -> Result<Block, PartFault>
    requires columns { AreColumns kinds.now }
    ensures read { IfOk result (λ rows. framed kept body.now ≡ part_file kinds.now rows) }
    ensures kinds { IfOk result (λ rows. AllAreOf kinds.now rows) }
    ensures hash { (old found : ℕ) → IsErrOf result (PartFault.Hash old found) → HashDiffers old found (framed kept body.now) }
    ensures right { IsErrOf result PartFault.Shape → framed kept body.now ≡ part_frame body.now }
    ensures shape { IsErrOf result PartFault.Shape → (rows : List (List Value)) → AllAreOf kinds.now rows → body.now ≢ part_body kinds.now rows }
    ensures err { IfErr result (λ fault. fault ≢ PartFault.Failed) }
{
    let found = body_hash(body);
    if kept != found {
        return Err(PartFault::Hash { kept, found });
    }
    match body_rows(alloc, body, kinds)? {
        Some(rows) => Ok(rows),
        None => Err(PartFault::Shape),
    }
}

// The number that the first 8 bytes spell, and the bytes behind them.
fn split_number(bytes: &[u8]) -> Option<(u64, &[u8])>
    ensures some { IfSome result (λ x. bytes.now ≡ to_le_bytes w64 x.0 ++ x.1.now) }
    ensures none { IsNone result → length bytes.now < 8 }
    ensures fits { IfSome result (λ x. (x.0 < 2 ^ 64) × (length x.1.now < 2 ^ 64)) }
{
    if bytes.len() < 8 {
        return None;
    }
    let (number, rest) = bytes.split_at(8);
    Some((LittleEndian::read_u64(number), rest))
}

// The rows of a body, where it is that of rows of these kinds.
fn body_rows(alloc: Global, body: &[u8], kinds: &Kinds) -> Result<Option<Block>, AllocError>
    requires some { 1 ≤ length kinds.now }
    requires most { length kinds.now ≤ 64 }
    ensures some { IfOk result (λ read. IfSome read (λ rows. AllAreOf kinds.now rows × (body.now ≡ part_body kinds.now rows))) }
    ensures none { IfOk result (λ read. IsNone read → (rows : List (List Value)) → AllAreOf kinds.now rows → body.now ≢ part_body kinds.now rows) }
{
    match split_head(alloc, body, kinds.as_slice())? {
        Some((count, values)) => read_rows(alloc, values, kinds.as_slice(), count),
        None => Ok(None),
    }
}

// The number of rows in the head of a body, and the values behind it, where the head is that of these kinds.
//
// The number is compared with the bytes behind it, for each value has one byte or more.
fn split_head<'a>(
    alloc: Global,
    body: &'a [u8],
    kinds: &[Kind],
) -> Result<Option<(usize, &'a [u8])>, AllocError>
    requires some { 1 ≤ length kinds.now }
    ensures head { IfOk result (λ read. IfSome read (λ x. body.now ≡ head_spelling kinds.now x.0 ++ x.1.now)) }
    ensures fits { IfOk result (λ read. IfSome read (λ x. (x.0 < 2 ^ 64) × (length x.1.now < 2 ^ 64))) }
    ensures room { IfOk result (λ read. IfSome read (λ x. x.0 * length kinds.now ≤ length x.1.now)) }
    ensures none { IfOk result (λ read. IsNone read → (rows : List (List Value)) → AllAreOf kinds.now rows → body.now ≢ part_body kinds.now rows) }
{
    let mut head = Vec::new(alloc);
    put_kinds(&mut head, kinds)?;
    let Some(rest) = body.strip_prefix(&head) else {
        return Ok(None);
    };
    let Some((count, values)) = split_number(rest) else {
        return Ok(None);
    };
    if count > (values.len() / kinds.len()) as u64 {
        return Ok(None);
    }
    Ok(Some((count as usize, values)))
}

// As many rows as are told, where bytes are their columns and nothing else.
fn read_rows(
    alloc: Global,
    bytes: &[u8],
    kinds: &[Kind],
    count: usize,
) -> Result<Option<Block>, AllocError>
    requires room { count * length kinds.now ≤ length bytes.now }
    ensures count { IfOk result (λ read. IfSome read (λ rows. length rows ≡ count)) }
    ensures kinds { IfOk result (λ read. IfSome read (λ rows. AllAreOf kinds.now rows)) }
    ensures columns { IfOk result (λ read. IfSome read (λ rows. bytes.now ≡ columns_spelling 0 kinds.now rows)) }
    ensures none { IfOk result (λ read. IsNone read → (rows : List (List Value)) → length rows ≡ count → AllAreOf kinds.now rows → bytes.now ≢ columns_spelling 0 kinds.now rows) }
{
    let mut rows = empty_rows(alloc, count, kinds.len())?;
    let Some(behind) = read_columns(alloc, bytes, kinds, &mut rows)? else {
        return Ok(None);
    };
    if behind < bytes.len() {
        return Ok(None);
    }
    Ok(Some(Block::from_vec(rows)))
}

// Rows without values, each with memory for as many as there are columns.
fn empty_rows(alloc: Global, count: usize, columns: usize) -> Result<Vec<Row>, AllocError>
    ensures count { IfOk result (λ rows. length rows.items ≡ count) }
    ensures empty { IfOk result (λ rows. AllAreOf [] rows.items) }
{
    let mut rows = Vec::with_capacity(alloc, count)?;
    for _ in 0..count {
        rows.push(Row::from_vec(Vec::with_capacity(alloc, columns)?))?;
    }
    Ok(rows)
}

// Reads columns from the first byte on into rows, and answers the place behind them.
fn read_columns(
    alloc: Global,
    bytes: &[u8],
    kinds: &[Kind],
    rows: &mut [Row],
) -> Result<Option<usize>, AllocError>
    requires empty { AllAreOf [] rows.old }
    ensures kinds { IfOk result (λ read. IfSome read (λ behind. AllAreOf kinds.now rows.new)) }
    ensures columns { IfOk result (λ read. IfSome read (λ behind. bytes.now ≡ columns_spelling 0 kinds.now rows.new ++ drop behind bytes.now)) }
    ensures none { IfOk result (λ read. IsNone read → (given : List (List Value)) → length given ≡ length rows.old → AllAreOf kinds.now given → bytes.now ≢ columns_spelling 0 kinds.now given) }
{
    let mut at = 0;
    for place in 0..kinds.len() {
        let Some(behind) = read_column(alloc, kinds[place], bytes, at, rows)? else {
            return Ok(None);
        };
        at = behind;
    }
    Ok(Some(at))
}

// Reads a column from a place on, one value behind each row, and answers the place behind it.
fn read_column(
    alloc: Global,
    kind: Kind,
    bytes: &[u8],
    at: usize,
    rows: &mut [Row],
) -> Result<Option<usize>, AllocError>
    ensures gained { IfOk result (λ read. IfSome read (λ behind. HasGained kind (length rows.old) rows.old rows.new bytes.now at behind)) }
    ensures none { IfOk result (λ read. IsNone read → (place : ℕ) (given : List (List Value)) (rest : List ℕ) → length given ≡ length rows.old
        → ColumnIsOf kind place given → drop at bytes.now ≢ column_spelling kind place given ++ rest) }
{
    let mut next = at;
    for j in 0..rows.len() {
        let Some((value, behind)) = read_value(alloc, kind, bytes, next)? else {
            return Ok(None);
        };
        rows[j].push(value)?;
        next = behind;
    }
    Ok(Some(next))
}
