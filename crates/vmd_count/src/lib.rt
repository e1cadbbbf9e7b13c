// The distinct names of a section, byte for byte or up to the line feed, counted with no lent memory: passes over its records,
// each of which finds the names above a floor, as many as fit in a local array of record numbers. Internal: callers see to the
// lengths.
#![tactic(auto)]

ghost use Rattle.std.specs.Prelude.{◌≡◌, true, false, ◌+◌, ◌-◌, ◌*◌, ◌≤◌, ◌<◌, length};
ghost use Rattle.vmd_format.specs.Read.{write_all};
ghost use Rattle.vmd_keys.specs.Names.{names_in, cut_names, distinct};
ghost use Rattle.vmd_keys.specs.Rowed.{row_names, row_key};
ghost use Rattle.vmd_keys.specs.Heap.{Ascending};
ghost use Rattle.vmd_count.specs.Rowed.{bound, row_length, RowTallied};
ghost use Rattle.vmd_count.specs.Held.{low, high, sum_of, Holds, Firsts, Fresh, Wanted, step_if};

use vmd_keys::{VmdCut, VmdRows};

// How many names, and how many bytes they have together.
#[derive(Clone, Copy, PartialEq, Eq)]
pub struct VmdNames {
    pub names: u64,
    pub bytes: u64,
}

// The first m places are held, of names up to that of a record, if there is a ceiling.
#[derive(Clone, Copy)]
struct Held {
    m: usize,
    ceil: Option<u32>,
}

const PLACES: usize = 32768;

// What stays when the places are full.
const KEPT: usize = 16384;

// Whether the name of x is not that of the last of the j places kept.
fn is_fresh(a: &[u32], j: usize, x: u32, rows: VmdRows) -> bool
    requires { j ≤ length a.now }
    ensures { Fresh (row_key rows.entry) a.now j x result }
{
    j == 0 || !rows.same_name(a[j - 1], x)
}

// j, or the next place. A sum, and no choice, so that counting does not wait for what is counted.
pub fn next_if(j: usize, on: bool) -> usize
    requires { j + 1 < 18446744073709551616 }
    ensures { result ≡ step_if on j }
{
    j + on as usize
}

// Keeps the first place of each run of equal names among the first m, and returns how many. The places and their number stand
// side by side here and below, since one fixed array serves all passes (no heap).
fn keep_firsts(a: &mut [u32], m: usize, rows: VmdRows) -> usize
    requires { (m ≤ length a.old) × Ascending (row_key rows) m a.old }
    ensures { Firsts (row_key rows.entry) m a.old result a.new }
{
    let mut j = 0;
    for k in 0..m {
        let x = a[k];
        let on = is_fresh(a, j, x, rows);
        a[j] = x;
        j = next_if(j, on);
    }
    j
}

// The places are full: sorts them and keeps one of each name, as many as may stay; if there are more, the last one kept is the
// new ceiling.
fn squeeze(
    a: &mut [u32; PLACES],
    rows: VmdRows,
    floor: Option<u32>,
    i: usize,
    ceil: Option<u32>,
) -> Held
    requires { (i ≤ rows.count) × Holds (row_key rows) (bound floor) (bound ceil) i 32768 a.old }
    ensures { Holds (row_key rows.entry) (bound floor) (bound result.ceil) i result.m a.new × (result.m ≤ 16384) }
{
    rows.sort_records(a, PLACES);
    let k = keep_firsts(a, PLACES, rows);
    if k > KEPT {
        return Held {
            m: KEPT,
            ceil: Some(a[KEPT - 1]),
        };
    }
    Held { m: k, ceil }
}

// Whether a record's name lies above the floor, the name of a record.
fn is_above(rows: VmdRows, floor: Option<u32>, x: u32) -> bool
    ensures { (result ≡ true → low (row_key rows.entry) (bound floor) ≤ row_key rows.entry x) × (result ≡ false → row_key rows.entry x < low (row_key rows.entry) (bound floor)) }
{
    match floor {
        None => true,
        Some(f) => rows.name_before(f, x),
    }
}

// Whether a record's name lies below the ceiling.
fn is_below(rows: VmdRows, ceil: Option<u32>, x: u32) -> bool
    ensures { (result ≡ true → row_key rows.entry x < high (row_key rows.entry) (bound ceil)) × (result ≡ false → ¬ (bound ceil ≡ 0) × (row_key rows.entry (bound ceil - 1) ≤ row_key rows.entry x)) }
{
    match ceil {
        None => true,
        Some(c) => rows.name_before(x, c),
    }
}

// Whether a record's name lies above the floor and below the ceiling, and is not known to have come earlier.
fn is_wanted(
    cache: &mut [u32],
    rows: VmdRows,
    floor: Option<u32>,
    ceil: Option<u32>,
    i: usize,
) -> bool
    requires { (16385 ≤ length cache.old) × (i < rows.count) }
    ensures { Wanted (row_key rows.entry) (bound floor) (bound ceil) i result }
{
    is_above(rows, floor, i as u32)
        && is_below(rows, ceil, i as u32)
        && rows.earlier_record(cache, i) == i
}

// One record more.
fn offer(
    a: &mut [u32; PLACES],
    cache: &mut [u32],
    rows: VmdRows,
    floor: Option<u32>,
    i: usize,
    held: Held,
) -> Held
    requires { (16385 ≤ length cache.old) × (i < rows.count) × (held.m < 32768) × Holds (row_key rows) (bound floor) (bound held.ceil) i held.m a.old }
    ensures { Holds (row_key rows.entry) (bound floor) (bound result.ceil) (i + 1) result.m a.new × (result.m < 32768) }
{
    let Held { m, ceil } = held;
    if !is_wanted(cache, rows, floor, ceil, i) {
        return held;
    }
    a[m] = i as u32;
    if m + 1 < PLACES {
        return Held { m: m + 1, ceil };
    }
    squeeze(a, rows, floor, i + 1, ceil)
}

// The names above the floor and, if there are too many, not above the ceiling that it finds.
fn pass(a: &mut [u32; PLACES], cache: &mut [u32], rows: VmdRows, floor: Option<u32>) -> Held
    requires { 16385 ≤ length cache.old }
    ensures { Holds (row_key rows.entry) (bound floor) (bound result.ceil) rows.entry.count result.m a.new × (result.m < 32768) }
{
    let mut held = Held { m: 0, ceil: None };
    for i in 0..rows.count {
        held = offer(a, cache, rows, floor, i, held);
    }
    held
}

// The bytes of the names that the first k places hold, added up.
fn weigh(a: &[u32], k: usize, rows: VmdRows) -> u64
    requires { (k ≤ length a.now) × (k ≤ 32768) }
    ensures { (result ≡ sum_of (row_length rows.entry) k a.now) × (result ≤ 15 * k) }
{
    let mut sum: u64 = 0;
    for x in &a[..k] {
        sum += rows.name_size(*x);
    }
    sum
}

// Counts what a pass has found.
fn tally(a: &mut [u32], rows: VmdRows, floor: Option<u32>, held: Held) -> VmdNames
    requires { (held.m ≤ 32768) × (held.m ≤ length a.old) × Holds (row_key rows) (bound floor) (bound held.ceil) rows.count held.m a.old }
    ensures { RowTallied rows.entry (bound floor) (bound held.ceil) result.names result.bytes }
{
    rows.sort_records(a, held.m);
    let k = keep_firsts(a, held.m, rows);
    let bytes = weigh(a, k, rows);
    VmdNames {
        names: k as u64,
        bytes,
    }
}

// Pass after pass, each from the ceiling of the one before.
fn count(a: &mut [u32; PLACES], cache: &mut [u32], rows: VmdRows) -> VmdNames
    requires { 16385 ≤ length cache.old }
    ensures { (result.names ≡ length (distinct (row_names rows.entry))) × (result.bytes ≡ length (write_all (λ d. d) (distinct (row_names rows.entry)))) }
{
    let mut names: u64 = 0;
    let mut bytes: u64 = 0;
    let mut floor = None;
    // Pass after pass until one has left no name above it: nothing is counted, so no range.
    loop {
        let held = pass(a, cache, rows, floor);
        let found = tally(a, rows, floor, held);
        names += found.names;
        bytes += found.bytes;
        if held.ceil.is_none() {
            return VmdNames { names, bytes };
        }
        floor = held.ceil;
    }
}

// How many distinct names the n records of a size from a place on have, as names are told apart, and how many bytes these names
// have together.
pub fn count_names(s: &[u8], at: usize, size: usize, n: usize, cut: VmdCut) -> VmdNames
    requires { (at + size * n ≤ length s.now) × (16 ≤ size) × (n ≤ 4294967295) }
    ensures { (result.names ≡ length (distinct (cut_names cut (names_in s.now at size n)))) × (result.bytes ≡ length (write_all (λ d. d) (distinct (cut_names cut (names_in s.now at size n))))) }
{
    if n == 0 {
        return VmdNames { names: 0, bytes: 0 };
    }
    let rows = VmdRows {
        file: s,
        place: at,
        size,
        count: n,
        cut,
    };
    let mut a = [0u32; PLACES];
    let mut cache = [0u32; vmd_keys::CACHE_SIZE];
    count(&mut a, &mut cache, rows)
}
