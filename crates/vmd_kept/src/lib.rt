// How many records of a section tidying keeps, counted with no lent memory: passes over its records, each of which finds the
// keys above a floor, as many as fit in a local array of places. Internal: callers see to the lengths.
#![tactic(auto)]

ghost use Rattle.std.specs.Prelude.{◌≡◌, List, [], ◌∷◌, ◌++◌, ℕ, ◌+◌, ◌≤◌, ◌<◌, length, take};
ghost use Rattle.vmd_tracks.specs.Tracks.{lasts};
ghost use Rattle.vmd_count.specs.Rowed.{bound};
ghost use Rattle.vmd_sort.specs.Order.{key, rest};
ghost use Rattle.vmd_sort.specs.Walk.{states_there, total};
ghost use Rattle.vmd_sort.specs.Ranking.{places_in};
ghost use Rattle.vmd_kept.specs.Window.{above, between, Rising, Holds, Cut};

use vmd_records::VmdParsedPropertyFrame;
use vmd_sort::{VmdOrder, VmdRanking, VmdRun};

// How many records, and how many IK states they have together.
#[derive(Clone, Copy, PartialEq, Eq)]
pub struct VmdKept {
    pub records: u64,
    pub ik_states: u64,
}

// The first m places are held, of keys up to that of a place, if there is a ceiling.
#[derive(Clone, Copy)]
struct Held {
    m: usize,
    ceil: Option<u64>,
}

// The records that are counted by their keys, which are of what stands at their places.
#[derive(Clone, Copy)]
struct Keyed<'a> {
    run: VmdRun<'a>,
    order: VmdOrder,
    ghost few: { run.count ≤ 4294967295 },
    ghost own: { (x : ℕ) → rest order x ≡ x },
}

const PLACES: usize = 32768;

// What stays when the places are full.
const KEPT: usize = 16384;

// How many of the k places stay; if not all of them, the last of these is the new ceiling.
fn cut(a: &[u64], k: usize, ceil: Option<u64>) -> Held
    requires { k ≤ length a.now }
    ensures { Cut k a.now (bound ceil) result.m (bound result.ceil) }
{
    if k > KEPT {
        return Held {
            m: KEPT,
            ceil: Some(a[KEPT - 1]),
        };
    }
    Held { m: k, ceil }
}

// The IK states of the property frames at some places, added up.
pub fn count_ik_states(s: &[u8], places: &[u64]) -> u64
    requires { length places.now ≤ 4294967295 }
    ensures { result ≡ total (states_there s.now) places.now }
{
    let mut sum: u64 = 0;
    for x in places {
        sum += vmd_sort::number_there(s, *x, VmdParsedPropertyFrame::IK_COUNT_OFFSET) as u64;
    }
    sum
}

impl<'a> Keyed<'a> {
    ghost use Rattle.vmd_kept.specs.Keyed.{kept_key, file_end, kept_places};

    // Whether a place's key lies above the floor's.
    fn is_above(self, floor: Option<u64>, x: u64) -> bool
        ensures { result ≡ above (kept_key self.entry) (bound floor) x }
    {
        let ranking = VmdRanking {
            file: self.run.file,
            order: self.order,
        };
        match floor {
            None => true,
            Some(f) => ranking.key_cmp(f, x).is_lt(),
        }
    }

    // Whether a place's key lies above the floor's and not above the ceiling's.
    fn is_between(self, floor: Option<u64>, ceil: Option<u64>, x: u64) -> bool
        ensures { result ≡ between (kept_key self.entry) (bound floor) (bound ceil) x }
    {
        self.is_above(floor, x) && (ceil.is_none() || !self.is_above(ceil, x))
    }

    // The places are full: keeps the last of each key, of as many keys as may stay. They go back into file order, so that of one
    // key the later record stands later when more come.
    fn squeeze(self, a: &mut [u64; PLACES], ceil: Option<u64>) -> Held
        requires { Rising (file_end self) a.old }
        ensures { (result.m ≤ 16384) × ((floor p : ℕ) (l : List ℕ) → Holds (kept_key self.entry) floor (bound ceil) p a.old l → Holds (kept_key self.entry) floor (bound result.ceil) p (take result.m a.new) l) }
    {
        let file = self.run.file;
        let order = self.order;
        let k = VmdRanking { file, order }.tidy_places(a);
        let held = cut(a, k, ceil);
        let order = VmdOrder::Number;
        VmdRanking { file, order }.sort_places(&mut a[..held.m]);
        held
    }

    // One place more.
    fn offer(self, a: &mut [u64; PLACES], floor: Option<u64>, x: u64, held: Held) -> Held
        requires { (held.m < 32768) × (x < file_end self) × Rising x (take held.m a.old) }
        ensures { (result.m < 32768) × ((l : List ℕ) → Holds (kept_key self.entry) (bound floor) (bound held.ceil) x (take held.m a.old) l → Holds (kept_key self.entry) (bound floor) (bound result.ceil) (x + 1) (take result.m a.new) (l ++ x ∷ [])) }
    {
        let Held { m, ceil } = held;
        if !self.is_between(floor, ceil, x) {
            return held;
        }
        a[m] = x;
        if m + 1 < PLACES {
            return Held { m: m + 1, ceil };
        }
        self.squeeze(a, ceil)
    }

    // The keys above the floor and, if there are too many, not above the ceiling that it finds.
    fn pass(self, a: &mut [u64; PLACES], floor: Option<u64>) -> Held
        ensures { (result.m < 32768) × Holds (kept_key self.entry) (bound floor) (bound result.ceil) (file_end self.entry) (take result.m a.new) (kept_places self.entry) }
    {
        let mut held = Held { m: 0, ceil: None };
        let mut p = self.run.place;
        for _i in 0..self.run.count {
            held = self.offer(a, floor, p as u64, held);
            p = self.run.stride.next_place(self.run.file, p);
        }
        held
    }

    // Counts what a pass has found.
    fn tally(self, a: &mut [u64]) -> VmdKept
        requires { (length a.old ≤ 32768) × Rising (file_end self) a.old }
        ensures { (result.records ≡ length (lasts (kept_key self.entry) a.old)) × (result.ik_states ≡ total (states_there self.entry.run.file.now) (lasts (kept_key self.entry) a.old)) }
    {
        let file = self.run.file;
        let order = self.order;
        let k = VmdRanking { file, order }.tidy_places(a);
        VmdKept {
            records: k as u64,
            ik_states: count_ik_states(file, &a[..k]),
        }
    }

    // Pass after pass, each from the ceiling of the one before.
    fn count(self, a: &mut [u64; PLACES]) -> VmdKept
        ensures { (result.records ≡ length (lasts (kept_key self.entry) (kept_places self.entry))) × (result.ik_states ≡ total (states_there self.entry.run.file.now) (lasts (kept_key self.entry) (kept_places self.entry))) }
    {
        let mut records: u64 = 0;
        let mut ik_states: u64 = 0;
        let mut floor = None;
        // Pass after pass, as in vmd_count.
        loop {
            let held = self.pass(a, floor);
            let found = self.tally(&mut a[..held.m]);
            records += found.records;
            ik_states += found.ik_states;
            if held.ceil.is_none() {
                return VmdKept { records, ik_states };
            }
            floor = held.ceil;
        }
    }
}

// How many of the records of a run tidying keeps.
pub fn count_kept(run: VmdRun, order: VmdOrder) -> VmdKept
    requires { (run.count ≤ 4294967295) × ((x : ℕ) → rest order x ≡ x) }
    ensures { (result.records ≡ length (lasts (key order run.entry.file.now) (places_in run.entry))) × (result.ik_states ≡ total (states_there run.entry.file.now) (lasts (key order run.entry.file.now) (places_in run.entry))) }
{
    let mut a = [0u64; PLACES];
    Keyed { run, order }.count(&mut a)
}
