// Classes: which part of a vessel that is cut into parts each triangle belongs to.
#![tactic(auto)]

ghost use Rattle.std.specs.Prelude.{◌≡◌, ◌≤◌, ◌<◌, length};
ghost use Rattle.classes.specs.Classes.{begin_of, bad_end, first_bad_end, ends_fault, count_fault, entry_fault, no_class, class_of, with_part, class_fault, NamedBelow, Ended, Classes, Classified, class_answer, class_buffer};

use grid::{Reason, Refusal};

// The class of a triangle that no part names, and of one that several name.
pub const NO_CLASS: u32 = 4294967294;

pub const SEVERAL: u32 = 4294967295;

// Where part p begins: at the end of the part before it.
fn begin_of(ends: &[u32], p: usize) -> u32
    requires { p < length ends.now }
    ensures { result ≡ begin_of ends.now p }
{
    if p == 0 {
        return 0;
    }
    ends[p - 1]
}

// Whether the end of part p is at fault, in a list of this length.
fn bad_end(ends: &[u32], p: usize, len: usize) -> bool
    requires { p < length ends.now }
    ensures { result ≡ bad_end ends.now len p }
{
    let begin = begin_of(ends, p);
    let end = ends[p];
    let stray = (p + 1 == ends.len()) & (end as usize != len);
    (end < begin) | (p == 65535) | stray
}

// The first part whose end is at fault, or the number of parts.
fn first_bad_end(ends: &[u32], len: usize) -> usize
    ensures { result ≡ first_bad_end ends.now len }
{
    for p in 0..ends.len() {
        if bad_end(ends, p, len) {
            return p;
        }
    }
    ends.len()
}

// Refusal 15 of the ends of parts of a list of this length.
fn ends_fault(ends: &[u32], len: usize) -> Result<(), Refusal>
    ensures { result ≡ ends_fault ends.now len }
{
    let p = first_bad_end(ends, len);
    if (p < ends.len()) | ((ends.len() == 0) & (len != 0)) {
        return Err(Reason::BadRange.at(p));
    }
    Ok(())
}

// Refusal 1 of a number of triangles.
fn count_fault(count: usize) -> Result<(), Refusal>
    ensures { result ≡ count_fault count }
{
    if 65536 < count {
        return Err(Reason::BadCount.at(0));
    }
    Ok(())
}

// Refusal 4 of entries that name one of `count` triangles.
fn entry_fault(entries: &[u32], count: usize) -> Result<(), Refusal>
    ensures { result ≡ entry_fault count entries.now }
{
    let n = marking_checks::first_missing(entries, count);
    if n < entries.len() {
        return Err(Reason::MissingName.at(n));
    }
    Ok(())
}

// Refusals 1, 4, 14 and 15, of an output of this length.
fn class_fault(entries: &[u32], ends: &[u32], count: usize, len: usize) -> Result<(), Refusal>
    ensures { result ≡ class_fault entries.now ends.now count len }
{
    count_fault(count)?;
    entry_fault(entries, count)?;
    order::room_fault(len, count as u64)?;
    ends_fault(ends, entries.len())
}

fn clear(classes: &mut [u32], count: usize)
    requires { count ≤ length classes.old }
    ensures { Classes count (λ t. no_class) classes.old classes.new }
{
    classes[..count].fill(NO_CLASS);
}

// A triangle's class once one part more names it.
fn with_part(class: u32, part: u32) -> u32
    ensures { result ≡ with_part part class }
{
    if class == NO_CLASS {
        return part;
    }
    if class == part {
        return class;
    }
    SEVERAL
}

// The entries of one part.
fn classify_part(classes: &mut [u32], entries: &[u32], from: usize, to: usize, part: u32)
    requires from_le_to { (from ≤ to) × (to ≤ length entries.now) }
    requires named_below { NamedBelow entries.now (length classes.old) }
    ensures { Classified entries.now from to part classes.old classes.new }
{
    for e in from..to {
        let t = entries[e] as usize;
        classes[t] = with_part(classes[t], part);
    }
}

fn classify_parts(classes: &mut [u32], entries: &[u32], ends: &[u32], count: usize)
    requires named_below { NamedBelow entries.now count × (count ≤ length classes.old) }
    requires ended { Ended ends.now (length entries.now) }
    requires classes { Classes count (λ t. no_class) classes.old classes.old }
    ensures { Classes count (class_of entries.now ends.now) classes.old classes.new }
{
    for p in 0..ends.len() {
        let from = begin_of(ends, p) as usize;
        let to = ends[p] as usize;
        classify_part(classes, entries, from, to, p as u32);
    }
}

// Writes the class of each of `count` triangles, from the entries of all parts, one part after the
// other, and the end of each part; or refuses and writes nothing.
pub fn classify(
    entries: &[u32],
    ends: &[u32],
    count: usize,
    classes: &mut [u32],
) -> Result<(), Refusal>
    ensures answer { result ≡ class_answer entries.now ends.now count classes.old }
    ensures classes_after { classes.new ≡ class_buffer entries.now ends.now count classes.old }
{
    class_fault(entries, ends, count, classes.len())?;
    clear(classes, count);
    classify_parts(classes, entries, ends, count);
    Ok(())
}
