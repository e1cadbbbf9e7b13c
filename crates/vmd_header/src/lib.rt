// The header of a file of either edition: where its model name stands, and where its sections begin (internal).
#![tactic(auto)]

ghost use Rattle.std.specs.Prelude.{◌≡◌, length};
ghost use Rattle.vmd_format.specs.Answer.{map_answer};
ghost use Rattle.vmd_format.specs.Take.{model_width};
ghost use Rattle.vmd_format.specs.Fetch.{model_of};
ghost use Rattle.vmd_laws.specs.Places.{header_place, place_past, header_places};
ghost use Rattle.vmd_base.specs.Meaning.{answer, edition_is};
ghost use Rattle.vmd_places.specs.Parts.{file_part};
ghost use Rattle.vmd_header.specs.Meaning.{header_is};

use vmd_base::{
    MAGIC_COMPARED, MAGIC_SIZE, OLDER_MAGIC, VMD_MAGIC, VmdEdition, VmdPart, VmdRefusal,
};

// What a header says of places: the field of the model name, and where the sections begin.
#[derive(Clone, Copy, Debug, PartialEq, Eq)]
pub struct VmdHeader {
    pub name: usize,
    pub width: usize,
    pub sections: usize,
}

// The header of a file that is of this edition.
fn header_of(file: &[u8], edition: VmdEdition) -> Result<VmdHeader, VmdRefusal>
    ensures { answer header_is result ≡ map_answer header_places (place_past (model_width (edition_is edition)) file.now) }
{
    let width = edition.model_width();
    if file.len() < MAGIC_SIZE + width {
        return Err(VmdRefusal::FileEndsEarly);
    }
    Ok(VmdHeader {
        name: MAGIC_SIZE,
        width,
        sections: MAGIC_SIZE + width,
    })
}

pub fn read_header(file: &[u8]) -> Result<VmdHeader, VmdRefusal>
    ensures { answer header_is result ≡ map_answer header_places (header_place file.now) }
{
    if file.len() < MAGIC_SIZE {
        return Err(VmdRefusal::FileEndsEarly);
    }
    if vmd_bytes::same_start(file, &VMD_MAGIC, MAGIC_COMPARED) {
        return header_of(file, VmdEdition::Newer);
    }
    if vmd_bytes::same_start(file, &OLDER_MAGIC, MAGIC_COMPARED) {
        return header_of(file, VmdEdition::Older);
    }
    Err(VmdRefusal::MagicDiffers)
}

// Where the model name stands; nowhere where the header is refused.
pub fn model_part(file: &[u8]) -> VmdPart
    ensures { result ≡ file_part 30 (length (model_of file.now)) }
{
    match read_header(file) {
        Err(_) => VmdPart { at: 0, len: 0 },
        Ok(header) => vmd_places::name_at(file, header.name, header.width),
    }
}

// The model name; empty where the header is refused.
pub fn model_name<'a>(file: &'a [u8]) -> &'a [u8]
    ensures { result.now ≡ model_of file.now }
{
    vmd_places::cut(file, model_part(file))
}
