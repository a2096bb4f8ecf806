// Which hart caches hold each line.
ghost use Rattle.std.specs.Prelude.{ℕ, ◌≡◌, ◌+◌, ◌-◌, ◌<◌, ◌≤◌, ◌==◌, ◌||◌, ◌&&◌, not, IsTrue, IfOk, length, replicate, slice_index_or, slice_set};
ghost use Rattle.mesi_directory.specs.Rows.{Rows, IsRow, AreRows, HasRow, row_of, with_row, has_holder, shared_with, unpacked_rows, without_holder};
ghost use Rattle.mesi_directory.specs.declared.row.Row.TheVariants.{Nobody, Owner};

use crate::Row;
use conda_base::Line;
use std::alloc::{AllocError, Global};
use std::marker::Model;

/// A row for each of some lines that follow one another. After `new` it takes no memory, and each
/// call reaches its row at once.
#[derive(Drop)]
pub struct Directory {
    first: Line,
    rows: Vec<u32>,
}

impl Model for Directory {
    ghost use Rattle.mesi_directory.specs.Rows.{Rows, AreRows, unpacked_rows};

    ghost Value = { Rows };

    ghost view = { λ d. record { first = d.first.0; rows = unpacked_rows d.rows.items } };

    ghost invariant = { λ d. AreRows (unpacked_rows d.rows.items) };
}

impl Directory {
    /// A directory of `count` lines from `first` on, none of them held.
    pub fn new(alloc: Global, first: Line, count: u32) -> Result<Directory, AllocError>
        ensures empty { IfOk result (λ d.
            d ≡ record { first = first.0; rows = replicate count Nobody }) }
        ensures kept { IfOk result (λ d. AreRows d.rows) }
    {
        let rows = vec![in alloc; 0u32; count as usize]?;
        Ok(Directory { first, rows })
    }

    fn place(&self, l: Line) -> usize
        requires { HasRow self.now l }
        ensures place { result ≡ l.0 - self.now.first }
        ensures within { result < length self.now.rows }
    {
        (l.0 - self.first.0) as usize
    }

    /// The holders of a line.
    pub fn row(&self, l: Line) -> Row
        requires { HasRow self.now l }
        ensures value { result ≡ row_of self.now l }
        ensures valid { IsRow result }
    {
        row_in(&self.rows, self.place(l))
    }

    /// Makes `h` the owner of a line, and its only holder.
    pub fn own(&mut self, l: Line, h: u8)
        requires line { HasRow self.old l }
        requires holder { h < 12 }
        ensures row { row_of self.new l ≡ Owner h }
        ensures holders { (k : ℕ) → has_holder (row_of self.new l) k ≡ (k == h) }
        ensures others { self.new ≡ with_row self.old l (Owner h) }
        ensures kept { AreRows self.new.rows }
    {
        let place = self.place(l);
        put_row(&mut self.rows, place, Row::Owner(h));
    }

    /// Adds `h` to the holders of a line. All of them share it from then on, also one that owned it.
    pub fn share(&mut self, l: Line, h: u8)
        requires line { HasRow self.old l }
        requires holder { h < 12 }
        ensures row { row_of self.new l ≡ shared_with (row_of self.old l) h }
        ensures holders { (k : ℕ) →
            has_holder (row_of self.new l) k ≡ (has_holder (row_of self.old l) k || k == h) }
        ensures others { self.new ≡ with_row self.old l (shared_with (row_of self.old l) h) }
        ensures kept { AreRows self.new.rows }
    {
        let place = self.place(l);
        let row = row_in(&self.rows, place).shared_with(h);
        put_row(&mut self.rows, place, row);
    }

    /// Takes `h`, a holder of a line, out of its holders. Those that are left share it.
    pub fn leave(&mut self, l: Line, h: u8)
        requires line { HasRow self.old l }
        requires held { IsTrue (has_holder (row_of self.old l) h) }
        ensures row { row_of self.new l ≡ without_holder (row_of self.old l) h }
        ensures holders { (k : ℕ) →
            has_holder (row_of self.new l) k ≡ (has_holder (row_of self.old l) k && not (k == h)) }
        ensures others { self.new ≡ with_row self.old l (without_holder (row_of self.old l) h) }
        ensures kept { AreRows self.new.rows }
    {
        let place = self.place(l);
        let row = row_in(&self.rows, place).without(h);
        put_row(&mut self.rows, place, row);
    }
}

// The row at a place.
fn row_in(rows: &Vec<u32>, place: usize) -> Row
    requires within { place < length rows.now.items }
    requires valid { AreRows (unpacked_rows rows.now.items) }
    ensures value { result ≡ slice_index_or (unpacked_rows rows.now.items) place Nobody }
    ensures valid { IsRow result }
{
    Row::unpacked(rows[place])
}

// Puts a row at a place.
fn put_row(rows: &mut Vec<u32>, place: usize, row: Row)
    requires within { place < length rows.old.items }
    requires valid { IsRow row }
    ensures { unpacked_rows rows.new.items ≡ slice_set (unpacked_rows rows.old.items) place row }
{
    rows[place] = row.packed();
}
