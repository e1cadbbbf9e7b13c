// A name table out of a section: the distinct names of its records, told apart byte for byte, in order of first appearance, and
// each record's index. The index column and a second one of the same length serve as work space. Internal: callers see to the
// lengths.
#![tactic(auto)]

ghost use Rattle.std.specs.Prelude.{◌≡◌, ◌+◌, ◌-◌, ◌*◌, ◌≤◌, ◌<◌, length, get_or};
ghost use Rattle.vmd_bytes.specs.Slices.{splice};
ghost use Rattle.vmd_keys.specs.Names.{name_in, names_in, distinct};
ghost use Rattle.vmd_keys.specs.Rowed.{row_key, row_rank};
ghost use Rattle.vmd_keys.specs.Heap.{Ascending};
ghost use Rattle.vmd_tables.specs.Tables.{name_table};
ghost use Rattle.vmd_tables.specs.Leading.{Leads, Lists, First, Beyond, Numbered, Step, Fits, Leader};
ghost use Rattle.vmd_tables.specs.Rowed.{raw_names, raw_key, RowsNumbered};

use vmd_count::VmdNames;
use vmd_keys::{NAME_WIDTH, VmdCut, VmdRows};

// Puts into `leads`, for each record, an earlier one of its name that is at hand, or itself, and lists those that lead
// themselves, in file order. The result is how many are listed.
fn list_leaders(leads: &mut [u32], list: &mut [u32], cache: &mut [u32], rows: VmdRows) -> usize
    requires { (16385 ≤ length cache.old) × (rows.count ≤ length leads.old) × (rows.count ≤ length list.old) }
    ensures leads { Leads (row_key rows.entry) rows.entry.count leads.new × Lists (row_key rows.entry) rows.entry.count result leads.new list.new }
    ensures beyond { Beyond rows.entry.count leads.old leads.new × Beyond rows.entry.count list.old list.new }
{
    let mut m = 0;
    for i in 0..rows.count {
        let e = rows.earlier_record(cache, i);
        leads[i] = e as u32;
        list[m] = i as u32;
        m = vmd_count::next_if(m, e == i);
    }
    m
}

// The record that leads place k of a list sorted by name and number: that of the place before where the names are the same,
// else its own.
fn leader_of(leads: &[u32], list: &[u32], k: usize, rows: VmdRows) -> u32
    requires { (k < length list.now) × (get_or list.now (k - 1) 0 < length leads.now) }
    ensures { Leader (row_key rows.entry) leads.now list.now k result }
{
    let x = list[k];
    if k == 0 {
        return x;
    }
    let y = list[k - 1];
    if rows.same_name(y, x) {
        return leads[y as usize];
    }
    x
}

// Has each listed record led by the first of its name; the list is sorted by name and number.
fn settle_leaders(leads: &mut [u32], list: &[u32], m: usize, rows: VmdRows)
    requires { (rows.count ≤ length leads.old) × (m ≤ length list.now) × Leads (row_key rows) rows.count leads.old
        × Lists (row_key rows) rows.count m leads.old list.now × Ascending (row_rank rows) m list.now }
    ensures { First (row_key rows.entry) rows.entry.count leads.new × Beyond rows.entry.count leads.old leads.new }
{
    for k in 0..m {
        let e = leader_of(leads, list, k, rows);
        leads[list[k] as usize] = e;
    }
}

// Adds the name of a record at the end of the table's bytes. The result is the new end.
fn add_name(bytes: &mut [u8], to: usize, s: &[u8], p: usize) -> usize
    requires { (p + 15 ≤ length s.now) × (to + length (name_in s.now p) ≤ length bytes.old) }
    ensures { (bytes.new ≡ splice bytes.old to (name_in s.now p)) × (result ≡ to + length (name_in s.now p)) }
{
    let name = vmd_bytes::trim_fixed_bytes(&s[p..p + NAME_WIDTH]);
    vmd_bytes::copy_bytes(name, 0, bytes, to, name.len());
    to + name.len()
}

// Numbers record i: a name that comes first is added to the table, any other has the index of the record that leads it.
fn number_record(
    bytes: &mut [u8],
    ends: &mut [u32],
    indices: &mut [u32],
    leads: &[u32],
    rows: VmdRows,
    i: usize,
    table: VmdNames,
) -> VmdNames
    requires i_in_bounds { (i < rows.count) × (i < length leads.now) × (i < length indices.old) × (get_or leads.now i 0 ≤ i) }
    requires fits { Fits rows.file.now (rows.place + rows.size * i) i (get_or leads.now i 0) table.names table.bytes bytes.old ends.old }
    ensures { Step rows.entry.file.now (rows.entry.place + rows.entry.size * i) i (get_or leads.now i 0) table.names table.bytes bytes.old ends.old indices.old result.names result.bytes bytes.new ends.new indices.new }
{
    let e = leads[i] as usize;
    if e < i {
        indices[i] = indices[e];
        return table;
    }
    let names = table.names as usize;
    let end = add_name(
        bytes,
        table.bytes as usize,
        rows.file,
        rows.place + rows.size * i,
    );
    ends[names] = end as u32;
    indices[i] = names as u32;
    VmdNames {
        names: table.names + 1,
        bytes: end as u64,
    }
}

// The table, and each record's index, from records that are led by the first of their name.
fn number_records(
    bytes: &mut [u8],
    ends: &mut [u32],
    indices: &mut [u32],
    leads: &[u32],
    rows: VmdRows,
) -> VmdNames
    requires led { (rows.count ≤ length indices.old) × (rows.count ≤ length leads.now) × First (raw_key rows) rows.count leads.now }
    requires room { (length (distinct (raw_names rows)) ≤ length ends.old) × (length (name_table (raw_names rows)).bytes ≤ length bytes.old) × (length (name_table (raw_names rows)).bytes ≤ 4294967295) }
    ensures { RowsNumbered rows.entry result.names result.bytes bytes.old bytes.new ends.old ends.new indices.old indices.new }
{
    let mut table = VmdNames { names: 0, bytes: 0 };
    for i in 0..rows.count {
        table = number_record(bytes, ends, indices, leads, rows, i, table);
    }
    table
}

// The name table of n records of a size from a place on, and each record's index. The first n places of `work` are left with
// anything.
pub fn write_name_table(
    bytes: &mut [u8],
    ends: &mut [u32],
    indices: &mut [u32],
    work: &mut [u32],
    s: &[u8],
    at: usize,
    size: usize,
    n: usize,
) -> VmdNames
    requires n_in_bounds { (at + size * n ≤ length s.now) × (16 ≤ size) × (n ≤ 4294967295) × (n ≤ length indices.old) × (n ≤ length work.old) }
    requires n_in_bounds_2 { (length (distinct (names_in s.now at size n)) ≤ length ends.old) × (length (name_table (names_in s.now at size n)).bytes ≤ length bytes.old) × (length (name_table (names_in s.now at size n)).bytes ≤ 4294967295) }
    ensures numbered { Numbered s.now at size n result.names result.bytes bytes.old bytes.new ends.old ends.new indices.old indices.new }
    ensures beyond { Beyond n work.old work.new }
{
    if n == 0 {
        return VmdNames { names: 0, bytes: 0 };
    }
    let rows = VmdRows {
        file: s,
        place: at,
        size,
        count: n,
        cut: VmdCut::Whole,
    };
    let mut cache = [0u32; vmd_keys::CACHE_SIZE];
    let m = list_leaders(work, indices, &mut cache, rows);
    rows.sort_records(indices, m);
    settle_leaders(work, indices, m, rows);
    number_records(bytes, ends, indices, work, rows)
}
