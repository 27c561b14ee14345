// What the test programs share: made and stored input, outputs filled before a call, and answers, sums and
// numbers written as text. The text is tested by the programs' runs; here it is only proved that nothing faults.
#![tactic(auto)]

ghost use Rattle.std.specs.Prelude.{◌≡◌, ℕ, ◌+◌, ◌*◌, ◌^◌, ◌≤◌, ◌<◌, length};

use grid::{Axes, Laid, Placement, Refusal};
use numbers::NoWhole;

// The number of the standard output among the open files.
const STDOUT: i32 = 1;

// A list of so many numbers, which repeat the stored ones in turn (without any they are 0), save that the
// one at `place` is `value`. The stored ones stand in the input from `from` on.
#[derive(Clone, Copy)]
pub struct Row {
    pub length: usize,
    pub stored: usize,
    pub place: usize,
    pub value: u32,
    pub from: usize,
}

// ---- input

// More numbers than a list of points or triangles may have.
pub fn ones() -> [f32; 196620]
    ensures { 196620 ≡ length result }
{
    [1.0f32; 196620]
}

// ---- sums

// What stands in a list: a label or a number.
pub trait Item: Copy {
    // Its bits, or what no item of the type has.
    fn bits(self) -> u64;
}

impl Item for u8 {
    fn bits(self) -> u64 {
        u64::from(self)
    }
}

impl Item for u32 {
    fn bits(self) -> u64 {
        u64::from(self)
    }
}

impl Item for f32 {
    fn bits(self) -> u64 {
        if self.is_nan() {
            return 4294967296;
        }
        u64::from(self.to_bits())
    }
}

// A number that depends on s and on x.
pub fn folded(s: u64, x: u64) -> u64 {
    (s % 4294967291 * 31 + x % 4294967291 + 1) % 4294967291
}

// A number that depends on s, on every item and on its place.
pub fn sum<T: Item>(s: u64, list: &[T]) -> u64 {
    let mut t = s;
    for item in list {
        t = folded(t, item.bits());
    }
    t
}

// ---- output

pub fn text(t: &[u8]) {
    io::write_all(STDOUT, t);
}

pub fn number(n: u64) {
    io::print_decimal(STDOUT, n);
    text(b" ");
}

// The bits of a float in hexadecimal.
pub fn bits(x: f32) {
    if x.is_nan() {
        text(b"nan ");
    } else {
        io::print_hex(STDOUT, u64::from(x.to_bits()), 8);
        text(b" ");
    }
}

// A whole number with its sign.
pub fn signed(n: i64) {
    if n < 0 {
        text(b"-");
    }
    number(n.unsigned_abs());
}

pub fn whole(w: Result<i64, NoWhole>) {
    match w {
        Ok(n) => signed(n),
        Err(NoWhole::TooLarge) => text(b"large "),
        Err(NoWhole::NotANumber) => text(b"nan "),
    }
}

pub fn checked(c: Result<(), Refusal>) {
    match c {
        Ok(()) => text(b"fine"),
        Err(f) => {
            text(b"refused ");
            number(u64::from(f.reason.number()));
            number(f.place as u64);
        }
    }
    text(b"\n");
}

// Axes, then the bits of the origin, the scale and the reciprocal.
pub fn sized(s: Result<Laid, Refusal>) {
    match s {
        Err(f) => {
            checked(Err(f));
        }
        Ok(laid) => {
            text(b"grid ");
            number(laid.axes.r0 as u64);
            number(laid.axes.r1 as u64);
            number(laid.axes.r2 as u64);
            bits(laid.placement.x);
            bits(laid.placement.y);
            bits(laid.placement.z);
            bits(laid.placement.scale);
            bits(laid.placement.reciprocal);
            text(b"\n");
        }
    }
}

// ---- labels of a case

// A mark.
pub fn label_if(surface: bool) -> u8 {
    if surface {
        grid::SURFACE
    } else {
        grid::UNDEFINED
    }
}

fn bit(byte: u8, n: usize) -> bool {
    byte >> (n % 8) & 1 == 1
}

// Marks, a bit for each cell: cell i is bit i % 8 of byte i / 8.
pub fn marks_of(s: &[u8], from: usize, n: usize) -> [u8; 65536]
    requires { (8 * from + n ≤ 8 * length s.now) × (n ≤ 65536) }
    ensures { 65536 ≡ length result }
{
    let mut out = [0u8; 65536];
    for (i, label) in out[..n].iter_mut().enumerate() {
        *label = label_if(bit(s[from + i / 8], i));
    }
    out
}

// Labels, a byte for each cell.
pub fn labels_of(s: &[u8], from: usize, n: usize) -> [u8; 65536]
    requires { (from + n ≤ length s.now) × (n ≤ 65536) }
    ensures { 65536 ≡ length result }
{
    let mut out = [0u8; 65536];
    out[..n].copy_from_slice(&s[from..from + n]);
    out
}

// The random number after x, of 32 bits.
pub fn drawn(x: u64) -> u64 {
    (x % 4294967296 * 1664525 + 1013904223) % 4294967296
}

// ---- numbers of a stored case

// A number of a list: a word or a float.
pub trait Stored: Item {
    // The number of a stored word.
    fn of_word(word: u32) -> Self;

    // Number i of an output before a call.
    fn blank(i: usize) -> Self;

    // Writes it as text.
    fn show(self);
}

impl Stored for u32 {
    fn of_word(word: u32) -> Self {
        word
    }

    fn blank(i: usize) -> Self {
        (i % 97) as u32 + 4000000000
    }

    fn show(self) {
        number(u64::from(self));
    }
}

impl Stored for f32 {
    fn of_word(word: u32) -> Self {
        program_words::float_of(word)
    }

    fn blank(i: usize) -> Self {
        program_words::float_of((i % 97) as u32 + 1100000000)
    }

    fn show(self) {
        bits(self);
    }
}

// ---- lists of a stored case

// More than a stored input has.
pub fn input() -> [u8; 262144]
    ensures { 262144 ≡ length result }
{
    [0u8; 262144]
}

// Runs the cases of an input one after the other. Each has at least so many bytes and answers where the next
// begins, or the end: cases are of many lengths, so no index counts them.
pub fn each_case<F: Fn(&[u8], usize) -> usize>(s: &[u8], least: usize, one_case: F)
    requires least_bound { (0 < least) × (length s.now + least < 2 ^ 64) }
    requires callable { (at : ℕ) → at + least ≤ length s.now → F.pre one_case s at }
    requires goes_on { (at next : ℕ) → at + least ≤ length s.now → F.post one_case s at next → (at + least ≤ next) × (next ≤ length s.now) }
{
    let mut at = 0;
    while at + least <= s.len() {
        at = one_case(s, at);
    }
}

// Two words as one number, the lower first.
pub fn wide(s: &[u8], at: usize) -> usize
    requires { at + 8 ≤ length s.now }
{
    program_words::word(s, at) as usize + 4294967296 * (program_words::word(s, at + 4) as usize)
}

pub fn axes_of(s: &[u8], at: usize) -> Axes
    requires { at + 12 ≤ length s.now }
{
    Axes {
        r0: program_words::word(s, at) as usize,
        r1: program_words::word(s, at + 4) as usize,
        r2: program_words::word(s, at + 8) as usize,
    }
}

pub fn placement_of(s: &[u8], at: usize) -> Placement
    requires { at + 20 ≤ length s.now }
{
    Placement {
        x: program_words::float_at(s, at),
        y: program_words::float_at(s, at + 4),
        z: program_words::float_at(s, at + 8),
        scale: program_words::float_at(s, at + 12),
        reciprocal: program_words::float_at(s, at + 16),
    }
}

// A list of N numbers, of which n are stored from `at` on.
pub fn list_of<T: Stored, const N: usize>(s: &[u8], at: usize, n: usize) -> [T; N]
    requires { (at + 4 * n ≤ length s.now) × (n ≤ N) }
    ensures { N ≡ length result }
{
    let mut out = [T::of_word(0); N];
    for i in 0..n {
        out[i] = T::of_word(program_words::word(s, at + 4 * i));
    }
    out
}

// The list that four words describe.
pub fn row_of(s: &[u8], at: usize, from: usize) -> Row
    requires { at + 16 ≤ length s.now }
    ensures { (result.length ≤ 196620) × (result.stored ≤ 65536) × (result.from ≡ from) }
{
    Row {
        length: (program_words::word(s, at) as usize).min(196620),
        stored: (program_words::word(s, at + 4) as usize).min(65536),
        place: program_words::word(s, at + 8) as usize,
        value: program_words::word(s, at + 12),
        from,
    }
}

// Number i of a row whose stored numbers are words.
fn word_at(s: &[u8], r: Row, i: usize) -> u32
    requires { r.from + 4 * r.stored ≤ length s.now }
{
    let m = r.stored;
    let from = r.from;
    if i == r.place {
        return r.value;
    }
    if m == 0 {
        return 0;
    }
    program_words::word(s, from + 4 * (i % m))
}

pub fn numbers<T: Stored>(s: &[u8], r: Row) -> [T; 196620]
    requires { (r.from + 4 * r.stored ≤ length s.now) × (r.length ≤ 196620) }
    ensures { 196620 ≡ length result }
{
    let mut out = [T::of_word(0); 196620];
    for i in 0..r.length {
        out[i] = T::of_word(word_at(s, r, i));
    }
    out
}

// Label i of a row whose stored labels are bytes.
fn label_at(s: &[u8], r: Row, i: usize) -> u8
    requires { r.from + r.stored ≤ length s.now }
{
    let m = r.stored;
    let from = r.from;
    if i == r.place {
        return (r.value % 256) as u8;
    }
    if m == 0 {
        return 0;
    }
    s[from + i % m]
}

// As many as there are, but at most 65,536.
pub fn labels(s: &[u8], r: Row) -> [u8; 65536]
    requires { r.from + r.stored ≤ length s.now }
    ensures { 65536 ≡ length result }
{
    let mut out = [0u8; 65536];
    for (i, label) in out[..r.length.min(65536)].iter_mut().enumerate() {
        *label = label_at(s, r, i);
    }
    out
}

// How many bytes so many labels take: whole words.
pub fn padded(n: usize) -> usize
    requires { n ≤ 65536 }
    ensures { (n ≤ result) × (result ≤ 65540) }
{
    (n + 3) / 4 * 4
}

// ---- outputs before a call

// The first n numbers are none that an answer has.
pub fn blank<T: Stored>(n: usize) -> [T; 196620]
    requires { n ≤ 196620 }
    ensures { 196620 ≡ length result }
{
    let mut out = [T::of_word(0); 196620];
    for i in 0..n {
        out[i] = T::blank(i);
    }
    out
}

// ---- outputs after it

// As many numbers as are written out of an answer of n.
fn few(n: usize, len: usize) -> usize
    ensures { result ≤ len }
{
    if 36 < n { 0 } else { n.min(len) }
}

// The first n numbers, if they are few.
pub fn show<T: Stored>(out: &[T], n: usize) {
    for item in &out[..few(n, out.len())] {
        item.show();
    }
}

pub fn refused(f: Refusal) {
    text(b"refused ");
    number(u64::from(f.reason.number()));
    number(f.place as u64);
}

pub fn line(sum: u64) {
    number(sum);
    text(b"\n");
}
