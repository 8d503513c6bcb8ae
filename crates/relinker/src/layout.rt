//! Layout: counted items become words, in memory that is taken at once.
ghost use Rattle.std.specs.Prelude.{◌≡◌, ◌+◌, ◌^◌, ◌<◌, ◌≤◌, [], List, true, map, IfOk, IfErr};
ghost use Rattle.std.specs.List.{list_all};
ghost use Rattle.qed_model.specs.declared.item.Item.{Item};
ghost use Rattle.relinker.specs.Counted.{HasCounted};
ghost use Rattle.relinker.specs.Laid.{IsLaid, IsLaidIn, IsLinked, IsLinkCause, HasLinkCause};
ghost use Rattle.relinker.specs.Link.{is_low_entry, moved_entry, IsLinkable, IsWithinForm, LinksWithin, most_bytes};
ghost use Rattle.relinker.specs.Sink.{ComeNext, Takes};

use crate::ItemSink;
use crate::count::Count;
use crate::error::LinkError;
use crate::write::{Jumps, put_items, put_stub};
use passes::Emit;
use qed_model::limits::{CODE_ROOM, MAX_CODE_BYTES, MAX_NEAR_CODE_BYTES};
use qed_model::{EntryRow, Item, Role};
use std::alloc::{AllocError, Global};

/// The most bytes of the near form, and of the far form.
fn limit(far: bool) -> u64
    ensures value { result ≡ most_bytes far }
    ensures bound { result ≤ 67_108_864 }
{
    if far {
        MAX_CODE_BYTES
    } else {
        MAX_NEAR_CODE_BYTES
    }
}

/// The entries, moved by `base` bytes.
fn moved_rows(alloc: Global, rows: &[EntryRow], base: u64) -> Result<Vec<EntryRow>, AllocError>
    requires low { list_all is_low_entry rows.now ≡ true }
    requires base { base ≤ 2 ^ 63 }
    ensures { IfOk result (λ moved_rows. moved_rows.items ≡ map (moved_entry base) rows.now) }
{
    let mut moved = Vec::new(alloc);
    for row in rows {
        moved.push(EntryRow {
            input: row.input,
            output: row.output + base,
        })?;
    }
    Ok(moved)
}

/// Code that has its place: its words, and where its entries are.
#[derive(Debug, Drop)]
pub struct Linked {
    pub words: Vec<u32>,
    pub entries: Vec<EntryRow>,
}

/// Code that is laid out: the addresses where it begins, of its stub and of the next item; all
/// entries, and the words so far.
#[derive(Debug, Drop)]
pub struct Layout {
    pub(crate) far: bool,
    pub(crate) base: u64,
    pub(crate) last: u64,
    pub(crate) at: u64,
    pub(crate) entries: Vec<EntryRow>,
    pub(crate) words: Vec<u32>,
}

/// Takes the memory for all words and entries of counted items, which will stand from `base` on,
/// and for the stub behind them.
///
/// Errors: `TooLarge` exactly if the code has more bytes than its form allows; want of memory.
#[tactic(auto, using(crate::proofs::Laying::marks_low, crate::proofs::Laying::laid_first))]
pub fn lay(alloc: Global, count: Count, base: u64) -> Result<Layout, LinkError>
    requires counted { (items : List Item) × HasCounted count items }
    requires base { base + CODE_ROOM ≤ 2 ^ 63 }
    ensures form { IfOk result (λ layout. layout.far ≡ count.far) }
    ensures base { IfOk result (λ layout. layout.base ≡ base) }
    ensures limit { IfOk result (λ _. count.bytes + 4 ≤ most_bytes count.far) }
    ensures laid { IfOk result (λ layout. (items : List Item) → HasCounted count items → IsLinkable count.far base items → IsLaid layout [] items) }
    ensures cause { IfErr result (IsLinkCause count) }
{
    let size = count.bytes.saturating_add(4);
    if size > limit(count.far) {
        return Err(LinkError::TooLarge(size));
    }
    let words = Vec::with_capacity(alloc, (size / 4 + 1) as usize)?;
    let entries = moved_rows(alloc, &count.marks, base)?;
    Ok(Layout {
        far: count.far,
        base,
        last: base + count.bytes,
        at: base,
        entries,
        words,
    })
}

impl Layout {
    /// The addresses of all entries.
    pub fn entries(&self) -> &[EntryRow]
        ensures { result.now ≡ self.now.entries.items }
    {
        &self.entries
    }

    /// The address of the stub.
    pub fn last(&self) -> u64
        ensures { result ≡ self.now.last }
    {
        self.last
    }

    /// Appends the words of items, the next of those counted. It takes no memory.
    pub fn add(&mut self, items: &Emit)
        requires { ComeNext (IsLaidIn self.old) items.now }
        ensures { Takes (IsLaidIn self.old) (IsLaidIn self.new) items.now }
    {
        self.add_all(items.items());
    }

    fn add_all(&mut self, items: &[Item])
        requires { ComeNext (IsLaidIn self.old) items.now }
        ensures { Takes (IsLaidIn self.old) (IsLaidIn self.new) items.now }
    {
        let jumps = Jumps {
            rows: &self.entries,
            last: self.last,
            far: self.far,
        };
        self.at = put_items(&mut self.words, &jumps, items, self.at);
    }

    /// Appends the stub, behind all counted items. It takes no memory.
    pub fn finish(mut self) -> Linked
        requires { (done : List Item) × IsLaid self done [] }
        ensures { (done : List Item) → IsLaid self done [] → IsLinked self.far self.base done result }
    {
        put_stub(&mut self.words);
        Linked {
            words: self.words,
            entries: self.entries,
        }
    }
}

impl ItemSink for Layout {
    ghost use Rattle.qed_model.specs.Weave.Parts.{joined};
    ghost use Rattle.relinker.specs.Laid.{IsLaidIn};

    ghost took = { λ layout form done rest. IsLaidIn layout form (joined done) (joined rest) };

    fn take(&mut self, _role: Role, items: &Emit) -> Result<(), AllocError> {
        self.add(items);
        Ok(())
    }
}

/// Counts the items, and takes the memory for their code.
fn laid(alloc: Global, items: &Emit, base: u64, far: bool) -> Result<Layout, LinkError>
    requires base { base + CODE_ROOM ≤ 2 ^ 63 }
    requires linkable { LinksWithin far base items.now }
    ensures form { IfOk result (λ layout. layout.far ≡ far) }
    ensures base { IfOk result (λ layout. layout.base ≡ base) }
    ensures laid { IfOk result (λ layout. IsLaid layout [] items.now) }
    ensures limit { IfOk result (λ _. IsWithinForm far items.now) }
    ensures cause { IfErr result (HasLinkCause far items.now) }
{
    let mut count = Count::new(alloc, far);
    count.add(items)?;
    lay(alloc, count, base)
}

/// The code of the items, from `base` on, with the stub behind them.
///
/// Errors: `TooLarge` exactly if the code has more bytes than its form allows; want of memory.
pub fn link(alloc: Global, items: &Emit, base: u64, far: bool) -> Result<Linked, LinkError>
    requires base { base + CODE_ROOM ≤ 2 ^ 63 }
    requires linkable { LinksWithin far base items.now }
    ensures linked { IfOk result (IsLinked far base items.now) }
    ensures limit { IfOk result (λ _. IsWithinForm far items.now) }
    ensures cause { IfErr result (HasLinkCause far items.now) }
{
    let mut layout = laid(alloc, items, base, far)?;
    layout.add(items);
    Ok(layout.finish())
}
