//! A tree page, read in place.
ghost use Rattle.std.specs.Prelude.{◌≡◌, ◌≢◌, ◌+◌, ◌*◌, ◌≤◌, ◌<◌, ℤ, length, take, IfNone, IfSome};
ghost use Rattle.btree.specs.declared.image.kind.TreeKind.TheVariants.{Table, Index};
ghost use Rattle.btree.specs.declared.image.kind.Level.{Level};
ghost use Rattle.btree.specs.declared.image.kind.Level.TheVariants.{Leaf, Interior};
ghost use Rattle.btree.specs.image.Cell.{CellData};
ghost use Rattle.pager.specs.Header.{field};
ghost use Rattle.btree.specs.image.Layout.{HasHeaderAt, cell_count, cell_place, child, flag, flag_of, header_at, header_size};
ghost use Rattle.btree.specs.Bytes.{HasKeyOf, IsDividerCell, IsEntryCell, IsRowCell, LacksChild};
ghost use Rattle.btree.specs.ViewData.{IsViewOf, TellsOfCell};
ghost use Rattle.btree.specs.Views.{cell_data};

use crate::cell::{Cell, index_cell, table_cell};
use crate::image::{Level, TreeKind};
use byteorder::{BigEndian, ByteOrder};
use pager::Page;
use records::varint;
use std::marker::Model;

/// A page of a tree, of which the header was tested. (Database File Format, section 1.6 "B-tree Pages")
#[derive(Drop)]
pub struct PageView<'p> {
    bytes: &'p [u8],
    at: usize,
    kind: TreeKind,
    level: Level,
}

impl<'p> Model for PageView<'p> {
    ghost use Rattle.std.specs.Prelude.{◌≤◌, length};
    ghost use Rattle.btree.specs.image.Layout.{HasHeaderAt};
    ghost use Rattle.btree.specs.ViewData.{ViewData, IsView};

    ghost Value = { ViewData };

    ghost view = { λ v. record { at = v.at; kind = v.kind; level = v.level; page = v.bytes.now } };

    ghost invariant = { λ v. IsView v.at v.kind v.level v.bytes.now };
}

/// The level of a page of a tree of this kind, by its flag.
fn level_of(kind: TreeKind, flag: u8) -> Option<Level>
    ensures found { IfSome result (λ level. flag ≡ flag_of kind level) }
    ensures none { IfNone result ((level : Level) → flag ≢ flag_of kind level) }
{
    match (kind, flag) {
        (TreeKind::Table, 13) | (TreeKind::Index, 10) => Some(Level::Leaf),
        (TreeKind::Table, 5) | (TreeKind::Index, 2) => Some(Level::Interior),
        _ => None,
    }
}

/// Where the header of page `n` begins.
#[inline]
fn header_place(n: u32) -> usize
    ensures place { result ≡ header_at n }
    ensures most { result ≤ 100 }
{
    if n == 1 { 100 } else { 0 }
}

#[inline]
fn size_of_header(level: Level) -> usize
    ensures { result ≡ header_size level }
{
    match level {
        Level::Leaf => 8,
        Level::Interior => 12,
    }
}

/// The two bytes at a place, the most significant first.
#[inline]
#[tactic(auto, unfolding(pager::specs::Header::field))]
fn half(bytes: &[u8], place: usize) -> u16
    requires { place + 2 ≤ length bytes.now }
    ensures { result ≡ field bytes.now place 2 }
{
    BigEndian::read_u16(&bytes[place..])
}

/// The four bytes at a place, the most significant first.
#[inline]
#[tactic(auto, unfolding(pager::specs::Header::field))]
fn word(bytes: &[u8], place: usize) -> u32
    requires { place + 4 ≤ length bytes.now }
    ensures { result ≡ field bytes.now place 4 }
{
    BigEndian::read_u32(&bytes[place..])
}

#[inline]
fn flag_at(at: usize, page: &[u8]) -> u8
    requires { at < length page.now }
    ensures { result ≡ flag at page.now }
{
    page[at]
}

#[inline]
#[tactic(auto, unfolding(crate::specs::image::Layout::cell_count))]
fn count_of(at: usize, page: &[u8]) -> u16
    requires { at + 5 ≤ length page.now }
    ensures { result ≡ cell_count at page.now }
{
    half(page, at + 3)
}

#[inline]
#[tactic(auto, unfolding(crate::specs::image::Layout::cell_place))]
fn place_of(at: usize, level: Level, page: &[u8], i: u32) -> u16
    requires { at + header_size level + 2 * i + 2 ≤ length page.now }
    ensures { result ≡ cell_place at level page.now i }
{
    half(page, at + size_of_header(level) + 2 * i as usize)
}

impl<'p> PageView<'p> {
    /// The page of these used bytes, which is page `n` of a tree of this kind; `None` where its header says that it is
    /// none, or where its cell places leave it.
    #[inline(always)]
    pub fn read(kind: TreeKind, n: u32, used: &'p [u8]) -> Option<PageView<'p>>
        ensures found { IfSome result (IsViewOf kind n used.now) }
        ensures none { 480 ≤ length used.now → length used.now ≤ 65536 → IfNone result ((level : Level) → ¬ HasHeaderAt (header_at n) kind level used.now) }
    {
        if used.len() < 480 || used.len() > 65536 {
            return None;
        }
        let at = header_place(n);
        let level = level_of(kind, flag_at(at, used))?;
        let places = size_of_header(level) + 2 * count_of(at, used) as usize;
        if at + places > used.len() {
            return None;
        }
        Some(PageView {
            bytes: used,
            at,
            kind,
            level,
        })
    }

    /// Whether the page has children.
    #[inline]
    pub fn level(&self) -> Level
        ensures { result ≡ self.now.level }
    {
        self.level
    }

    /// How many cells the page has.
    #[inline]
    pub fn count(&self) -> u16
        ensures { result ≡ cell_count self.now.at self.now.page }
    {
        count_of(self.at, self.bytes)
    }

    /// Child i of an interior page, the right child behind the last cell; `None` where the cell isn't inside the page.
    /// Any number may stand there.
    pub fn child(&self, i: u32) -> Option<u32>
        requires level { self.now.level ≡ Level.Interior }
        requires within { i ≤ cell_count self.now.at self.now.page }
        ensures found { IfSome result (λ m. m ≡ child self.now.at self.now.page i) }
        ensures none { IfNone result ((i < cell_count self.now.at self.now.page) × LacksChild self.now.at self.now.page i) }
    {
        if i == self.count() as u32 {
            return Some(word(self.bytes, self.at + 8));
        }
        let place = place_of(self.at, self.level, self.bytes, i) as usize;
        if place + 4 > self.bytes.len() {
            return None;
        }
        Some(word(self.bytes, place))
    }

    /// Cell i of a table's leaf, with a payload of at most `most` bytes; `None` where none is there.
    #[inline(always)]
    pub fn row(&self, most: u64, i: u32) -> Option<Cell<'p>>
        requires { TellsOfCell self.now Table Leaf i }
        ensures found { IfSome result (λ cell. IsRowCell self.now.at most self.now.page i (cell_data cell)) }
        ensures none { IfNone result ((cell : CellData) → ¬ IsRowCell self.now.at most self.now.page i cell) }
    {
        let place = place_of(self.at, self.level, self.bytes, i) as usize;
        let places_end = self.at + size_of_header(self.level) + 2 * self.count() as usize;
        if place < places_end {
            return None;
        }
        let from = place.min(self.bytes.len());
        table_cell(self.bytes.len() as u64, most, &self.bytes[from..])
    }

    /// Entry i of a page of an index, with a payload of at most `most` bytes; `None` where none is there. On an interior
    /// page it stands behind the left child.
    #[inline(always)]
    pub fn entry(&self, most: u64, i: u32) -> Option<Cell<'p>>
        requires { TellsOfCell self.now Index self.now.level i }
        ensures found { IfSome result (λ cell. IsEntryCell self.now.at most self.now.level self.now.page i (cell_data cell)) }
        ensures none { IfNone result ((cell : CellData) → ¬ IsEntryCell self.now.at most self.now.level self.now.page i cell) }
    {
        let place = place_of(self.at, self.level, self.bytes, i) as usize;
        let places_end = self.at + size_of_header(self.level) + 2 * self.count() as usize;
        if place < places_end {
            return None;
        }
        let begins = match self.level {
            Level::Leaf => place,
            Level::Interior => place + 4,
        };
        let from = begins.min(self.bytes.len());
        index_cell(self.bytes.len() as u64, most, &self.bytes[from..])
    }

    /// The key of cell i of a table's interior page, which divides the rowids under the child before it from those under
    /// the next; `None` where no cell is there.
    pub fn divider(&self, i: u32) -> Option<i64>
        requires { TellsOfCell self.now Table Interior i }
        ensures found { IfSome result (λ key. IsDividerCell self.now.at self.now.page i key) }
        ensures none { IfNone result ((key : ℤ) → ¬ IsDividerCell self.now.at self.now.page i key) }
    {
        let place = place_of(self.at, self.level, self.bytes, i) as usize;
        let places_end = self.at + size_of_header(self.level) + 2 * self.count() as usize;
        if place < places_end || place + 4 > self.bytes.len() {
            return None;
        }
        let (key, _) = varint(&self.bytes[place + 4..])?;
        Some(key)
    }

    /// The key of cell i of a page of a table: a rowid of a leaf, or what divides the rowids under two children; `None`
    /// where no cell is there.
    pub fn key(&self, most: u64, i: u32) -> Option<i64>
        requires { TellsOfCell self.now Table self.now.level i }
        ensures found { IfSome result (λ key. HasKeyOf self.now.at most self.now.level self.now.page i key) }
        ensures none { IfNone result ((key : ℤ) → ¬ HasKeyOf self.now.at most self.now.level self.now.page i key) }
    {
        match self.level {
            Level::Leaf => {
                let cell = self.row(most, i)?;
                cell.rowid
            }
            Level::Interior => self.divider(i),
        }
    }
}

/// Page `number` of a table's tree, of which so many bytes are used; `None` where it is shorter or its header says that it
/// is none.
#[inline(always)]
pub fn view_of(page: &Page, number: u32, usable: usize) -> Option<PageView<'_>>
    ensures found { IfSome result (λ view. IsViewOf Table number (take usable page.now) view × (usable ≤ length page.now)) }
    ensures none { 480 ≤ usable → usable ≤ 65536 → usable ≤ length page.now
        → IfNone result ((level : Level) → ¬ HasHeaderAt (header_at number) Table level (take usable page.now)) }
{
    view_in(TreeKind::Table, page, number, usable)
}

/// The same of a tree of this kind.
#[inline(always)]
pub fn view_in(kind: TreeKind, page: &Page, number: u32, usable: usize) -> Option<PageView<'_>>
    ensures found { IfSome result (λ view. IsViewOf kind number (take usable page.now) view × (usable ≤ length page.now)) }
    ensures none { 480 ≤ usable → usable ≤ 65536 → usable ≤ length page.now
        → IfNone result ((level : Level) → ¬ HasHeaderAt (header_at number) kind level (take usable page.now)) }
{
    let bytes = page.as_slice();
    if usable > bytes.len() {
        return None;
    }
    PageView::read(kind, number, &bytes[..usable])
}
