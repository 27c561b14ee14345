// A record of the list by its key, which is list order as a number.
#![tactic(auto)]

ghost use Rattle.std.specs.Prelude.{◌≡◌, ◌≤◌, ◌<◌};
ghost use Rattle.order.specs.Order.{key};
ghost use Rattle.list_lookup.specs.Lookup.{key_at, Table, Behind, Ahead, Window};

use grid::{Cell, Stretch};

// List order as a number.
pub fn key_of(c: Cell) -> usize
    requires { (c.i ≤ 256) × (c.j ≤ 256) × (c.k ≤ 256) }
    ensures { result ≡ key c }
{
    c.i * 65536 + c.j * 256 + c.k
}

fn key_at(records: &[u32], n: usize, p: usize) -> usize
    requires { Table records.now n × (p < n) }
    ensures { result ≡ key_at records.now p }
{
    key_of(list_record::read(records, p).cell)
}

// Two records between which the first one lies whose key is `want` or more, from `from` on: by steps up
// that double, so that a near one is found soon.
fn window_above(records: &[u32], n: usize, from: usize, want: usize) -> Stretch
    requires { Table records.now n × Behind records.now n want from }
    ensures { Window records.now n want from result }
{
    let mut lo = from;
    let mut step = 1usize;
    while step < n - lo {
        let next = lo + step;
        if want <= key_at(records, n, next) {
            return Stretch { from: lo, to: next };
        }
        lo = next;
        step = 2 * step;
    }
    Stretch { from: lo, to: n }
}

// The same by steps down from record `near`, whose key is `want` or more.
fn window_below(records: &[u32], n: usize, from: usize, near: usize, want: usize) -> Stretch
    requires { Table records.now n × Behind records.now n want from × Ahead records.now n want near × (from ≤ near) }
    ensures { Window records.now n want from result }
{
    let mut hi = near;
    let mut step = 1usize;
    while step < hi - from {
        let next = hi - step;
        if key_at(records, n, next) < want {
            return Stretch { from: next, to: hi };
        }
        hi = next;
        step = 2 * step;
    }
    Stretch { from, to: hi }
}

// The same, where record `near` is the guess: rows that follow each other lie about as far apart.
fn window(records: &[u32], n: usize, from: usize, near: usize, want: usize) -> Stretch
    requires { Table records.now n × Behind records.now n want from }
    ensures { Window records.now n want from result }
{
    if (near <= from) | (n <= near) {
        return window_above(records, n, from, want);
    }
    if key_at(records, n, near) < want {
        return window_above(records, n, near, want);
    }
    window_below(records, n, from, near, want)
}

// The first record whose key is `want` or more, which lies from `from` on; or n. It is looked for about
// record `near` first.
fn search(records: &[u32], n: usize, from: usize, near: usize, want: usize) -> usize
    requires { Table records.now n × Behind records.now n want from }
    ensures { Behind records.now n want result × Ahead records.now n want result × (from ≤ result) }
{
    let w = window(records, n, from, near, want);
    let mut lo = w.from;
    let mut hi = w.to;
    while lo < hi {
        let mid = lo + (hi - lo) / 2;
        if key_at(records, n, mid) < want {
            lo = mid + 1;
        } else {
            hi = mid;
        }
    }
    lo
}

// The same, where record `near` is often the one.
pub fn find(records: &[u32], n: usize, from: usize, near: usize, want: usize) -> usize
    requires { Table records.now n × Behind records.now n want from }
    ensures { Behind records.now n want result × Ahead records.now n want result × (from ≤ result) }
{
    if (near < from) | (n <= near) {
        return search(records, n, from, near, want);
    }
    if key_at(records, n, near) == want {
        return near;
    }
    search(records, n, from, near, want)
}
