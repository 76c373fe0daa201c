// Pairs and rows. A write past the buffer's end does nothing: the caller sees to it that there is room.
ghost use Rattle.std.specs.Prelude.{◌≡◌, [], ◌∷◌, ◌+◌, ◌≤◌, ◌<◌, length};
ghost use Rattle.std.proofs.Math.Seq.{slice};
ghost use Rattle.text_put.specs.TableCode.{Writes, pairs_to, rows_to};

use crate::order::index_in;
use slices::put;
use table::words::word_at;

pub fn put_word(table: &mut [u16], at: usize, v: usize) -> usize
    requires { at < 90000 }
    ensures { Writes table.old at (v ∷ []) table.new result }
{
    put(table, at, (v % 65536) as u16);
    at + 1
}

pub fn put_pair(table: &mut [u16], at: usize, v: usize, w: usize) -> usize
    requires { at < 80000 }
    ensures { Writes table.old at (v ∷ w ∷ []) table.new result }
{
    let i = put_word(table, at, v);
    put_word(table, i, w)
}

// The pairs (offset, length) of all methods, from their lengths in text order.
pub fn put_pairs(
    lengths: &[u16],
    main: usize,
    methods: usize,
    table: &mut [u16],
    at: usize,
) -> usize
    requires { (methods ≤ 32) × (main < 32) × (at < 70000) }
    ensures { Writes table.old at (pairs_to lengths.now main methods) table.new result }
{
    let mut offset = 0;
    let mut i = at;
    for k in 0..methods {
        let j = index_in(main, k);
        let long = word_at(lengths, j);
        i = put_pair(table, i, offset, long);
        offset += long;
    }
    i
}

fn put_row(rows: &[u16], from: usize, table: &mut [u16], at: usize) -> usize
    requires { (from + 18 ≤ length rows.now) × (from < 600) × (at < 80000) }
    ensures { Writes table.old at (slice from (from + 18) rows.now) table.new result }
{
    let mut i = at;
    for k in 0..18 {
        let v = word_at(rows, from + k);
        i = put_word(table, i, v);
    }
    i
}

// The rows of all methods, from the rows in text order.
pub fn put_rows(rows: &[u16], main: usize, methods: usize, table: &mut [u16], at: usize) -> usize
    requires { (length rows.now ≡ 576) × (methods ≤ 32) × (main < 32) × (at < 70000) }
    ensures { Writes table.old at (rows_to rows.now main methods) table.new result }
{
    let mut i = at;
    for k in 0..methods {
        let j = index_in(main, k);
        i = put_row(rows, 18 * j, table, i);
    }
    i
}
