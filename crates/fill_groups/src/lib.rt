// Which cells a scan must visit: a table with a byte for each group of cells, 16 along i and 16 along k, that
// is not 0 where a cell of the group may act. The cells with i = 0 make groups of their own, since walks from
// there go far, and the groups after them end where a walk of 64 cells does.
#![tactic(auto)]

ghost use Rattle.std.specs.Prelude.{false, ◌≡◌, ℕ, ◌+◌, ◌*◌, ◌≤◌, ◌<◌, length, get_or};
ghost use Rattle.fill_groups.specs.Groups.{InTable, table_length, place_at, place_of, moved, Up, Raises};

use grid::{AXIS_MOST, Cell};

#[derive(Clone, Copy)]
pub enum Axis {
    I,
    J,
    K,
}

// A group has so many cells along i, and along k; a walk of 64 cells passes four of them.
pub const GROUP: usize = 16;

const GROUP_LESS_ONE: usize = GROUP - 1;

// The groups of a block: one for each j, and for each sixteen layers.
const BLOCK: usize = GROUP * AXIS_MOST;

// There are 17 blocks: the cells with i = 0, and sixteen times sixteen slabs.
pub const TABLE_LENGTH: usize = 17 * BLOCK;

// Where the group of cell (i, j, k) stands in the table.
pub fn place(i: usize, j: usize, k: usize) -> usize
    requires { (i < 256) × (j < 256) × (k < 256) }
    ensures { (result ≡ place_at i j k) × (result < table_length) }
{
    ((i + GROUP_LESS_ONE) / GROUP * GROUP + k / GROUP) * AXIS_MOST + j
}

// Raises `count` bytes, a stride apart.
fn raise(table: &mut [u8], from: usize, stride: usize, count: usize)
    requires stride_bound { (stride ≤ 4096) × (0 < count) × (count ≤ 256) }
    requires stride_in_bounds { (from + count * stride < length table.old + stride) × (length table.old ≤ table_length) }
    ensures raises { Raises table.old table.new }
    ensures by_index { (s : ℕ) → s < count → Up table.new (from + s * stride) }
{
    for n in 0..count {
        table[from + n * stride] = 1;
    }
}

// The cell on the line along an axis through c that stands at x on it.
fn moved(axis: Axis, c: Cell, x: usize) -> Cell
    ensures { result ≡ moved axis c x }
{
    match axis {
        Axis::I => Cell { i: x, ..c },
        Axis::J => Cell { j: x, ..c },
        Axis::K => Cell { k: x, ..c },
    }
}

// The groups of the cells from `low` to `high` on the line along an axis through c.
pub fn raise_along(table: &mut [u8], axis: Axis, c: Cell, low: usize, high: usize)
    requires { (length table.old ≡ table_length) × (low ≤ high) × (high < 256) × InTable (moved axis c high) }
    ensures raises { Raises table.old table.new }
    ensures by_index { (x : ℕ) → low ≤ x → x ≤ high → Up table.new (place_of (moved axis c x)) }
{
    let first = moved(axis, c, low);
    let n = place(first.i, first.j, first.k);
    match axis {
        Axis::I => raise(
            table,
            n,
            BLOCK,
            high.div_ceil(GROUP) - low.div_ceil(GROUP) + 1,
        ),
        Axis::J => raise(table, n, 1, high - low + 1),
        Axis::K => raise(table, n, AXIS_MOST, high / GROUP - low / GROUP + 1),
    }
}

// Whether a group of the block of slab i is raised.
pub fn some_raised(table: &[u8], i: usize) -> bool
    requires { (length table.now ≡ table_length) × (i < 256) }
    ensures { result ≡ false → (j k : ℕ) → j < 256 → k < 256 → get_or table.now (place_at i j k) 0 ≡ 0 }
{
    let first = place(i, 0, 0);
    let block = &table[first..first + BLOCK];
    let mut some = false;
    for group in block {
        some |= *group != 0;
    }
    some
}
