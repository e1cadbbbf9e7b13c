// What every other crate names: the refusals, the editions, their magics and sizes, the manner of reading, and a section of a
// file.
#![tactic(auto)]

ghost use Rattle.std.specs.Prelude.{◌≡◌, ◌+◌, ◌≤◌};
ghost use Rattle.vmd_format.specs.Refusal.{number};
ghost use Rattle.vmd_format.specs.Take.{model_width};
ghost use Rattle.vmd_base.specs.Meaning.{refusal_of, edition_is};

// ---- sizes, in bytes

// The magic as it is written, with its five zero bytes.
pub const MAGIC_SIZE: usize = 30;

// The magic as it is compared, with the first of them.
pub const MAGIC_COMPARED: usize = 26;

// The field of the model name, after the magic.
pub const MODEL_WIDTH: usize = 20;

// The same in the older edition.
const OLDER_MODEL_WIDTH: usize = 10;

// A place of the scratch is that of the first of so many property frames (02 f).
pub const FRAMES_PER_PLACE: usize = 16;

pub const VMD_MAGIC: [u8; MAGIC_SIZE] = *b"Vocaloid Motion Data 0002\0\0\0\0\0";

pub const OLDER_MAGIC: [u8; MAGIC_SIZE] = *b"Vocaloid Motion Data file\0\0\0\0\0";

// ---- types

// What is turned down: the table of refusals.
#[derive(Clone, Copy, Debug, PartialEq, Eq)]
pub enum VmdRefusal {
    FileEndsEarly = 1,
    MagicDiffers = 2,
    ScratchTooShort = 3,
    Outside = 4,
    PartsNotWhole = 5,
    NameUnfit = 6,
    NameNotGood = 7,
    NotFinite = 8,
    SelfShadowUnfit = 9,
    ColumnsDisagree = 10,
    CountTooLarge = 11,
    NameIndexTooLarge = 12,
    OutputTooShort = 13,
    PartsDoNotFit = 14,
    ModelNameTooLong = 15,
    BytesOver = 16,
    CountOversized = 17,
    FirstAboveLast = 18,
}

impl VmdRefusal {
    pub fn number(self) -> u32
        ensures { result ≡ number (refusal_of self) }
    {
        self as u32
    }
}

// The editions of the format. Their headers differ, and nothing else.
#[derive(Clone, Copy, Debug, PartialEq, Eq)]
pub enum VmdEdition {
    Newer,
    Older,
}

impl VmdEdition {
    pub fn model_width(self) -> usize
        ensures value { result ≡ model_width (edition_is self) }
        ensures upper_bound { result ≤ 20 }
    {
        match self {
            VmdEdition::Newer => MODEL_WIDTH,
            VmdEdition::Older => OLDER_MODEL_WIDTH,
        }
    }
}

// The manner of reading a whole take. Strict, which is meant where none is named: an oversized camera, light or self-shadow
// count is refused, and so are bytes after the last property frame. Lenient: such a count empties its section, and such bytes
// are ignored.
#[derive(Clone, Copy, Debug, PartialEq, Eq)]
pub enum VmdManner {
    Strict,
    Lenient,
}

// How many records a section has, and where the first is.
#[derive(Clone, Copy, Debug, PartialEq, Eq)]
pub struct VmdSection {
    pub count: u32,
    pub place: usize,
}

// How many records each section has.
#[derive(Clone, Copy, Debug, PartialEq, Eq)]
pub struct VmdCounts {
    pub bones: u32,
    pub morphs: u32,
    pub cameras: u32,
    pub lights: u32,
    pub self_shadows: u32,
    pub properties: u32,
}

impl VmdCounts {
    // The records of all six sections.
    pub fn records(self) -> u64
        ensures { result ≡ self.bones + self.morphs + self.cameras + self.lights + self.self_shadows + self.properties }
    {
        let front = (self.bones as u64) + (self.morphs as u64) + (self.cameras as u64);
        let back = (self.lights as u64) + (self.self_shadows as u64) + (self.properties as u64);
        front + back
    }
}

// A part of a file: where it begins, and how many bytes it has; 0 and 0 where there is none. No Option: the functions for C
// fill two slots with it, 0 and 0 too.
#[derive(Clone, Copy, Debug, PartialEq, Eq)]
pub struct VmdPart {
    pub at: usize,
    pub len: usize,
}
