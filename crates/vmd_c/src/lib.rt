// The library for C, thin over the calls of vmd_reader, vmd_export, vmd_names, vmd_parts, vmd_split, vmd_season, vmd_tidy,
// vmd_excerpt and vmd_canonical, and for its slots over vmd_slots. include/vmd.h says how C calls it. Every function states what
// it returns, and every slot and buffer at exit, by equations with definitions.
#![tactic(auto)]

ghost use Rattle.std.specs.Prelude.{◌≡◌, [], ◌*◌, length};
ghost use Rattle.vmd_format.specs.Bytes.{flag_byte};
ghost use Rattle.vmd_format.specs.Names.{fault};
ghost use Rattle.vmd_format.specs.Answer.{map_answer, fitted, left};
ghost use Rattle.vmd_format.specs.Records.{bone, morph, camera, light, self_shadow};
ghost use Rattle.vmd_format.specs.Read.{strict, lenient};
ghost use Rattle.vmd_format.specs.Opening.{open_file, scratch_after};
ghost use Rattle.vmd_format.specs.Fetch.{record_place, fetch, or_empty, model_of, fetch_property, step_property, fetch_ik_state};
ghost use Rattle.vmd_format.specs.Parts.{build};
ghost use Rattle.vmd_base.specs.Meaning.{manner_of};
ghost use Rattle.vmd_places.specs.Meaning.{ik_place};
ghost use Rattle.vmd_places.specs.Parts.{file_part, part_in};
ghost use Rattle.vmd_export.specs.Saved.{exported_answer, exported_output, older_answer, older_output, joined_answer, joined_output, export_size, older_size, join_size};
ghost use Rattle.vmd_checks.specs.Meaning.{parts_of};
ghost use Rattle.vmd_slots.specs.Meaning.{status, slot_after, counts_of, places_of, totals_of, scan_at, bone_words, morph_words, camera_words, light_values, light_words, self_shadow_words, property_words, part_words, joined_words, size_words, count_words, season_counts, season_figures, season_at, mean_words, change_words};
ghost use Rattle.vmd_take_parts.specs.Split.{split, split_answer, split_sizes, parts_left, buffers};
ghost use Rattle.vmd_tidy.specs.Tidied.{tidied_answer, tidied_output, tidied_scratch, size_answer, size_scratch};
ghost use Rattle.vmd_excerpt.specs.Excerpted.{excerpted_answer, excerpted_output, excerpt_size};
ghost use Rattle.vmd_form.specs.Canonical.{canonical, first_change};
ghost use Rattle.vmd_season.specs.Season.{no_takes, with_file, mean};

use vmd_base::VmdManner;
use vmd_check_columns::{VmdBoneColumns, VmdMorphColumns};
use vmd_check_tables::VmdNameTable;
use vmd_checks::VmdParts;
use vmd_season::VmdSeason;
use vmd_slots::VmdSlot;
use vmd_split::{VmdLentBones, VmdLentMorphs, VmdLentRecords};

// ---- opening

// Of every call that reads a whole take there are two functions for C, strict and lenient, over one that is told the manner.

fn parse_in(
    manner: VmdManner,
    file: &[u8],
    scratch: &mut [u64],
    counts: &mut [u32; 6],
    places: &mut [u64; 6],
    totals: &mut [u64; 3],
) -> u32
    ensures { let answer = open_file (manner_of manner) file.now (length scratch.old) in
        (result ≡ status answer)
        × (counts.new ≡ slot_after counts.old counts_of answer)
        × (places.new ≡ slot_after places.old places_of answer)
        × (totals.new ≡ slot_after totals.old totals_of answer)
        × (scratch.new ≡ scratch_after (manner_of manner) file.now scratch.old) }
{
    match vmd_reader::open_file(file, manner, scratch) {
        Err(k) => k.number(),
        Ok(o) => {
            let s = o.sections;
            *counts = s.counts().slot();
            *places = [
                s.bones.place as u64,
                s.morphs.place as u64,
                s.cameras.place as u64,
                s.lights.place as u64,
                s.self_shadows.place as u64,
                s.properties.place as u64,
            ];
            *totals = [s.ik_states, o.min_frame as u64, o.max_frame as u64];
            0
        }
    }
}

#[unsafe(no_mangle)]
pub extern "C" fn vmd_parse_animation(
    file: &[u8],
    scratch: &mut [u64],
    counts: &mut [u32; 6],
    places: &mut [u64; 6],
    totals: &mut [u64; 3],
) -> u32
    ensures { let answer = open_file strict file.now (length scratch.old) in
        (result ≡ status answer)
        × (counts.new ≡ slot_after counts.old counts_of answer)
        × (places.new ≡ slot_after places.old places_of answer)
        × (totals.new ≡ slot_after totals.old totals_of answer)
        × (scratch.new ≡ scratch_after strict file.now scratch.old) }
{
    parse_in(VmdManner::Strict, file, scratch, counts, places, totals)
}

#[unsafe(no_mangle)]
pub extern "C" fn vmd_parse_animation_lenient(
    file: &[u8],
    scratch: &mut [u64],
    counts: &mut [u32; 6],
    places: &mut [u64; 6],
    totals: &mut [u64; 3],
) -> u32
    ensures { let answer = open_file lenient file.now (length scratch.old) in
        (result ≡ status answer)
        × (counts.new ≡ slot_after counts.old counts_of answer)
        × (places.new ≡ slot_after places.old places_of answer)
        × (totals.new ≡ slot_after totals.old totals_of answer)
        × (scratch.new ≡ scratch_after lenient file.now scratch.old) }
{
    parse_in(VmdManner::Lenient, file, scratch, counts, places, totals)
}

// ---- records by number

#[unsafe(no_mangle)]
pub extern "C" fn vmd_bone_frame(
    file: &[u8],
    counts: &[u32; 6],
    places: &[u64; 6],
    i: usize,
    fields: &mut [u32; 8],
) -> u32
    ensures { let answer = fetch bone (scan_at counts.now places.now).bones i file.now in
        (result ≡ status answer)
        × (fields.new ≡ slot_after fields.old bone_words answer) }
{
    let opening = vmd_slots::opening_of(counts, places);
    vmd_slots::report(vmd_reader::bone_frame(file, opening, i), fields)
}

#[unsafe(no_mangle)]
pub extern "C" fn vmd_morph_frame(
    file: &[u8],
    counts: &[u32; 6],
    places: &[u64; 6],
    i: usize,
    fields: &mut [u32; 2],
) -> u32
    ensures { let answer = fetch morph (scan_at counts.now places.now).morphs i file.now in
        (result ≡ status answer)
        × (fields.new ≡ slot_after fields.old morph_words answer) }
{
    let opening = vmd_slots::opening_of(counts, places);
    vmd_slots::report(vmd_reader::morph_frame(file, opening, i), fields)
}

#[unsafe(no_mangle)]
pub extern "C" fn vmd_camera_frame(
    file: &[u8],
    counts: &[u32; 6],
    places: &[u64; 6],
    i: usize,
    fields: &mut [u32; 10],
) -> u32
    ensures { let answer = fetch camera (scan_at counts.now places.now).cameras i file.now in
        (result ≡ status answer)
        × (fields.new ≡ slot_after fields.old camera_words answer) }
{
    let opening = vmd_slots::opening_of(counts, places);
    vmd_slots::report(vmd_reader::camera_frame(file, opening, i), fields)
}

#[unsafe(no_mangle)]
pub extern "C" fn vmd_light_frame(
    file: &[u8],
    counts: &[u32; 6],
    places: &[u64; 6],
    i: usize,
    frame: &mut u32,
    values: &mut [f32; 6],
) -> u32
    ensures { let answer = fetch light (scan_at counts.now places.now).lights i file.now in
        (result ≡ status answer)
        × (frame.new ≡ slot_after frame.old (λ l. l.frame) answer)
        × (values.new ≡ slot_after values.old light_values answer) }
{
    match vmd_reader::light_frame(file, vmd_slots::opening_of(counts, places), i) {
        Err(k) => k.number(),
        Ok(x) => {
            *frame = x.frame;
            *values = [
                x.color_r,
                x.color_g,
                x.color_b,
                x.direction_x,
                x.direction_y,
                x.direction_z,
            ];
            0
        }
    }
}

#[unsafe(no_mangle)]
pub extern "C" fn vmd_light_frame_bits(
    file: &[u8],
    counts: &[u32; 6],
    places: &[u64; 6],
    i: usize,
    fields: &mut [u32; 7],
) -> u32
    ensures { let answer = fetch light (scan_at counts.now places.now).lights i file.now in
        (result ≡ status answer)
        × (fields.new ≡ slot_after fields.old light_words answer) }
{
    let opening = vmd_slots::opening_of(counts, places);
    vmd_slots::report(vmd_reader::light_frame_bits(file, opening, i), fields)
}

#[unsafe(no_mangle)]
pub extern "C" fn vmd_self_shadow_frame(
    file: &[u8],
    counts: &[u32; 6],
    places: &[u64; 6],
    i: usize,
    fields: &mut [u32; 3],
) -> u32
    ensures { let answer = fetch self_shadow (scan_at counts.now places.now).self_shadows i file.now in
        (result ≡ status answer)
        × (fields.new ≡ slot_after fields.old self_shadow_words answer) }
{
    let opening = vmd_slots::opening_of(counts, places);
    vmd_slots::report(vmd_reader::self_shadow_frame(file, opening, i), fields)
}

#[unsafe(no_mangle)]
pub extern "C" fn vmd_property_frame(
    file: &[u8],
    counts: &[u32; 6],
    places: &[u64; 6],
    scratch: &[u64],
    i: usize,
    fields: &mut [u32; 3],
) -> u32
    ensures { let answer = fetch_property (scan_at counts.now places.now).properties scratch.now i file.now in
        (result ≡ status answer)
        × (fields.new ≡ slot_after fields.old property_words answer) }
{
    let opening = vmd_slots::opening_of(counts, places);
    vmd_slots::report(
        vmd_reader::property_frame(file, opening, scratch, i),
        fields,
    )
}

#[unsafe(no_mangle)]
pub extern "C" fn vmd_property_frame_at(
    file: &[u8],
    place: u64,
    fields: &mut [u32; 3],
    next: &mut u64,
) -> u32
    ensures { let answer = step_property place file.now in
        (result ≡ status answer)
        × (fields.new ≡ slot_after fields.old (λ x. property_words x.head) answer)
        × (next.new ≡ slot_after next.old (λ x. x.next) answer) }
{
    match vmd_reader::property_frame_at(file, place as usize) {
        Err(k) => k.number(),
        Ok((frame, after)) => {
            *fields = frame.slot();
            *next = after as u64;
            0
        }
    }
}

#[unsafe(no_mangle)]
pub extern "C" fn vmd_ik_state(
    file: &[u8],
    counts: &[u32; 6],
    places: &[u64; 6],
    scratch: &[u64],
    i: usize,
    j: usize,
    enabled: &mut u32,
) -> u32
    ensures { let answer = fetch_ik_state (scan_at counts.now places.now).properties scratch.now i j file.now in
        (result ≡ status answer)
        × (enabled.new ≡ slot_after enabled.old (λ k. flag_byte k.enabled) answer) }
{
    let opening = vmd_slots::opening_of(counts, places);
    vmd_slots::report(vmd_reader::ik_state(file, opening, scratch, i, j), enabled)
}

// ---- names and interpolation bytes

#[unsafe(no_mangle)]
pub extern "C" fn vmd_bone_name(
    file: &[u8],
    counts: &[u32; 6],
    places: &[u64; 6],
    i: usize,
    part: &mut [u64; 2],
)
    ensures { let p = (scan_at counts.now places.now).bones in
        part.new ≡ part_words (part_in (record_place 111 p i file.now) 0 (or_empty (map_answer (λ x. x.name) (fetch bone p i file.now)))) }
{
    *part = vmd_reader::bone_name_part(file, vmd_slots::opening_of(counts, places), i).slot();
}

#[unsafe(no_mangle)]
pub extern "C" fn vmd_morph_name(
    file: &[u8],
    counts: &[u32; 6],
    places: &[u64; 6],
    i: usize,
    part: &mut [u64; 2],
)
    ensures { let p = (scan_at counts.now places.now).morphs in
        part.new ≡ part_words (part_in (record_place 23 p i file.now) 0 (or_empty (map_answer (λ x. x.name) (fetch morph p i file.now)))) }
{
    *part = vmd_reader::morph_name_part(file, vmd_slots::opening_of(counts, places), i).slot();
}

#[unsafe(no_mangle)]
pub extern "C" fn vmd_ik_name(
    file: &[u8],
    counts: &[u32; 6],
    places: &[u64; 6],
    scratch: &[u64],
    i: usize,
    j: usize,
    part: &mut [u64; 2],
)
    ensures { let p = (scan_at counts.now places.now).properties in
        part.new ≡ part_words (part_in (ik_place p scratch.now i j file.now) 0 (or_empty (map_answer (λ x. x.name) (fetch_ik_state p scratch.now i j file.now)))) }
{
    *part = vmd_reader::ik_name_part(
        file,
        vmd_slots::opening_of(counts, places),
        scratch,
        i,
        j,
    ).slot();
}

#[unsafe(no_mangle)]
pub extern "C" fn vmd_model_name(file: &[u8], part: &mut [u64; 2])
    ensures { part.new ≡ part_words (file_part 30 (length (model_of file.now))) }
{
    *part = vmd_reader::model_part(file).slot();
}

#[unsafe(no_mangle)]
pub extern "C" fn vmd_bone_interpolation(
    file: &[u8],
    counts: &[u32; 6],
    places: &[u64; 6],
    i: usize,
    part: &mut [u64; 2],
)
    ensures { let p = (scan_at counts.now places.now).bones in
        part.new ≡ part_words (part_in (record_place 111 p i file.now) 47 (or_empty (map_answer (λ x. x.interpolation) (fetch bone p i file.now)))) }
{
    *part = vmd_reader::bone_interpolation_part(
        file,
        vmd_slots::opening_of(counts, places),
        i,
    ).slot();
}

#[unsafe(no_mangle)]
pub extern "C" fn vmd_camera_interpolation(
    file: &[u8],
    counts: &[u32; 6],
    places: &[u64; 6],
    i: usize,
    part: &mut [u64; 2],
)
    ensures { let p = (scan_at counts.now places.now).cameras in
        part.new ≡ part_words (part_in (record_place 61 p i file.now) 32 (or_empty (map_answer (λ x. x.interpolation) (fetch camera p i file.now)))) }
{
    *part = vmd_reader::camera_interpolation_part(
        file,
        vmd_slots::opening_of(counts, places),
        i,
    ).slot();
}

// ---- saving and joining

fn export_size_in(manner: VmdManner, file: &[u8], size: &mut u64) -> u32
    ensures { let answer = export_size (manner_of manner) file.now in
        (result ≡ status answer)
        × (size.new ≡ slot_after size.old (λ n. n) answer) }
{
    vmd_slots::report_written(vmd_export::export_file_size(file, manner), size)
}

#[unsafe(no_mangle)]
pub extern "C" fn vmd_export_size(file: &[u8], size: &mut u64) -> u32
    ensures { let answer = export_size strict file.now in
        (result ≡ status answer)
        × (size.new ≡ slot_after size.old (λ n. n) answer) }
{
    export_size_in(VmdManner::Strict, file, size)
}

#[unsafe(no_mangle)]
pub extern "C" fn vmd_export_size_lenient(file: &[u8], size: &mut u64) -> u32
    ensures { let answer = export_size lenient file.now in
        (result ≡ status answer)
        × (size.new ≡ slot_after size.old (λ n. n) answer) }
{
    export_size_in(VmdManner::Lenient, file, size)
}

fn export_in(manner: VmdManner, file: &[u8], out: &mut [u8], written: &mut u64) -> u32
    ensures { let answer = exported_answer (manner_of manner) file.now out.old in
        (result ≡ status answer)
        × (written.new ≡ slot_after written.old (λ n. n) answer)
        × (out.new ≡ exported_output (manner_of manner) file.now out.old) }
{
    vmd_slots::report_written(vmd_export::export_file(file, manner, out), written)
}

#[unsafe(no_mangle)]
pub extern "C" fn vmd_export_animation(file: &[u8], out: &mut [u8], written: &mut u64) -> u32
    ensures { let answer = exported_answer strict file.now out.old in
        (result ≡ status answer)
        × (written.new ≡ slot_after written.old (λ n. n) answer)
        × (out.new ≡ exported_output strict file.now out.old) }
{
    export_in(VmdManner::Strict, file, out, written)
}

#[unsafe(no_mangle)]
pub extern "C" fn vmd_export_animation_lenient(
    file: &[u8],
    out: &mut [u8],
    written: &mut u64,
) -> u32
    ensures { let answer = exported_answer lenient file.now out.old in
        (result ≡ status answer)
        × (written.new ≡ slot_after written.old (λ n. n) answer)
        × (out.new ≡ exported_output lenient file.now out.old) }
{
    export_in(VmdManner::Lenient, file, out, written)
}

fn export_older_size_in(manner: VmdManner, file: &[u8], size: &mut u64) -> u32
    ensures { let answer = older_size (manner_of manner) file.now in
        (result ≡ status answer)
        × (size.new ≡ slot_after size.old (λ n. n) answer) }
{
    vmd_slots::report_written(vmd_export::export_older_file_size(file, manner), size)
}

#[unsafe(no_mangle)]
pub extern "C" fn vmd_export_older_size(file: &[u8], size: &mut u64) -> u32
    ensures { let answer = older_size strict file.now in
        (result ≡ status answer)
        × (size.new ≡ slot_after size.old (λ n. n) answer) }
{
    export_older_size_in(VmdManner::Strict, file, size)
}

#[unsafe(no_mangle)]
pub extern "C" fn vmd_export_older_size_lenient(file: &[u8], size: &mut u64) -> u32
    ensures { let answer = older_size lenient file.now in
        (result ≡ status answer)
        × (size.new ≡ slot_after size.old (λ n. n) answer) }
{
    export_older_size_in(VmdManner::Lenient, file, size)
}

fn export_older_in(manner: VmdManner, file: &[u8], out: &mut [u8], written: &mut u64) -> u32
    ensures { let answer = older_answer (manner_of manner) file.now out.old in
        (result ≡ status answer)
        × (written.new ≡ slot_after written.old (λ n. n) answer)
        × (out.new ≡ older_output (manner_of manner) file.now out.old) }
{
    vmd_slots::report_written(vmd_export::export_older_file(file, manner, out), written)
}

#[unsafe(no_mangle)]
pub extern "C" fn vmd_export_older_animation(file: &[u8], out: &mut [u8], written: &mut u64) -> u32
    ensures { let answer = older_answer strict file.now out.old in
        (result ≡ status answer)
        × (written.new ≡ slot_after written.old (λ n. n) answer)
        × (out.new ≡ older_output strict file.now out.old) }
{
    export_older_in(VmdManner::Strict, file, out, written)
}

#[unsafe(no_mangle)]
pub extern "C" fn vmd_export_older_animation_lenient(
    file: &[u8],
    out: &mut [u8],
    written: &mut u64,
) -> u32
    ensures { let answer = older_answer lenient file.now out.old in
        (result ≡ status answer)
        × (written.new ≡ slot_after written.old (λ n. n) answer)
        × (out.new ≡ older_output lenient file.now out.old) }
{
    export_older_in(VmdManner::Lenient, file, out, written)
}

fn join_size_in(manner: VmdManner, first: &[u8], second: &[u8], size: &mut u64) -> u32
    ensures { let answer = join_size (manner_of manner) first.now second.now in
        (result ≡ status answer)
        × (size.new ≡ slot_after size.old (λ n. n) answer) }
{
    vmd_slots::report_written(vmd_export::join_files_size(first, second, manner), size)
}

#[unsafe(no_mangle)]
pub extern "C" fn vmd_join_size(first: &[u8], second: &[u8], size: &mut u64) -> u32
    ensures { let answer = join_size strict first.now second.now in
        (result ≡ status answer)
        × (size.new ≡ slot_after size.old (λ n. n) answer) }
{
    join_size_in(VmdManner::Strict, first, second, size)
}

#[unsafe(no_mangle)]
pub extern "C" fn vmd_join_size_lenient(first: &[u8], second: &[u8], size: &mut u64) -> u32
    ensures { let answer = join_size lenient first.now second.now in
        (result ≡ status answer)
        × (size.new ≡ slot_after size.old (λ n. n) answer) }
{
    join_size_in(VmdManner::Lenient, first, second, size)
}

fn join_in<'a>(
    manner: VmdManner,
    first: &'a [u8],
    second: &'a [u8],
    out: &mut [u8],
    written: &mut u64,
) -> u32
    ensures { let answer = joined_answer (manner_of manner) first.now second.now out.old in
        (result ≡ status answer)
        × (written.new ≡ slot_after written.old (λ n. n) answer)
        × (out.new ≡ joined_output (manner_of manner) first.now second.now out.old) }
{
    vmd_slots::report_written(vmd_export::join_files(first, second, manner, out), written)
}

#[unsafe(no_mangle)]
pub extern "C" fn vmd_join_animations<'a>(
    first: &'a [u8],
    second: &'a [u8],
    out: &mut [u8],
    written: &mut u64,
) -> u32
    ensures { let answer = joined_answer strict first.now second.now out.old in
        (result ≡ status answer)
        × (written.new ≡ slot_after written.old (λ n. n) answer)
        × (out.new ≡ joined_output strict first.now second.now out.old) }
{
    join_in(VmdManner::Strict, first, second, out, written)
}

#[unsafe(no_mangle)]
pub extern "C" fn vmd_join_animations_lenient<'a>(
    first: &'a [u8],
    second: &'a [u8],
    out: &mut [u8],
    written: &mut u64,
) -> u32
    ensures { let answer = joined_answer lenient first.now second.now out.old in
        (result ≡ status answer)
        × (written.new ≡ slot_after written.old (λ n. n) answer)
        × (out.new ≡ joined_output lenient first.now second.now out.old) }
{
    join_in(VmdManner::Lenient, first, second, out, written)
}

#[unsafe(no_mangle)]
pub extern "C" fn vmd_joined_model<'a>(first: &'a [u8], second: &'a [u8], part: &mut [u64; 3])
    ensures { part.new ≡ joined_words (model_of first.now) (model_of second.now) }
{
    let n = vmd_export::joined_model(first, second).len();
    if n == 0 {
        *part = [0, 0, 0];
        return;
    }
    if vmd_reader::model_name(first).len() == 0 {
        *part = [1, vmd_base::MAGIC_SIZE as u64, n as u64];
        return;
    }
    *part = [0, vmd_base::MAGIC_SIZE as u64, n as u64];
}

// ---- tidying

fn tidy_size_in(
    manner: VmdManner,
    file: &[u8],
    scratch: &mut [u64],
    size: &mut u64,
    kept: &mut [u32; 6],
    dropped: &mut [u32; 6],
) -> u32
    ensures { let answer = size_answer (manner_of manner) file.now scratch.old in
        (result ≡ status answer)
        × (size.new ≡ slot_after size.old (λ t. t.bytes) answer)
        × (kept.new ≡ slot_after kept.old (λ t. count_words t.kept) answer)
        × (dropped.new ≡ slot_after dropped.old (λ t. count_words t.dropped) answer)
        × (scratch.new ≡ size_scratch (manner_of manner) file.now scratch.old) }
{
    vmd_slots::report_tidied(
        vmd_tidy::tidy_file_size(file, manner, scratch),
        size,
        kept,
        dropped,
    )
}

#[unsafe(no_mangle)]
pub extern "C" fn vmd_tidy_size(
    file: &[u8],
    scratch: &mut [u64],
    size: &mut u64,
    kept: &mut [u32; 6],
    dropped: &mut [u32; 6],
) -> u32
    ensures { let answer = size_answer strict file.now scratch.old in
        (result ≡ status answer)
        × (size.new ≡ slot_after size.old (λ t. t.bytes) answer)
        × (kept.new ≡ slot_after kept.old (λ t. count_words t.kept) answer)
        × (dropped.new ≡ slot_after dropped.old (λ t. count_words t.dropped) answer)
        × (scratch.new ≡ size_scratch strict file.now scratch.old) }
{
    tidy_size_in(VmdManner::Strict, file, scratch, size, kept, dropped)
}

#[unsafe(no_mangle)]
pub extern "C" fn vmd_tidy_size_lenient(
    file: &[u8],
    scratch: &mut [u64],
    size: &mut u64,
    kept: &mut [u32; 6],
    dropped: &mut [u32; 6],
) -> u32
    ensures { let answer = size_answer lenient file.now scratch.old in
        (result ≡ status answer)
        × (size.new ≡ slot_after size.old (λ t. t.bytes) answer)
        × (kept.new ≡ slot_after kept.old (λ t. count_words t.kept) answer)
        × (dropped.new ≡ slot_after dropped.old (λ t. count_words t.dropped) answer)
        × (scratch.new ≡ size_scratch lenient file.now scratch.old) }
{
    tidy_size_in(VmdManner::Lenient, file, scratch, size, kept, dropped)
}

fn tidy_in(
    manner: VmdManner,
    file: &[u8],
    scratch: &mut [u64],
    out: &mut [u8],
    written: &mut u64,
    kept: &mut [u32; 6],
    dropped: &mut [u32; 6],
) -> u32
    ensures { let answer = tidied_answer (manner_of manner) file.now scratch.old out.old in
        (result ≡ status answer)
        × (written.new ≡ slot_after written.old (λ t. t.bytes) answer)
        × (kept.new ≡ slot_after kept.old (λ t. count_words t.kept) answer)
        × (dropped.new ≡ slot_after dropped.old (λ t. count_words t.dropped) answer)
        × (out.new ≡ tidied_output (manner_of manner) file.now scratch.old out.old)
        × (scratch.new ≡ tidied_scratch (manner_of manner) file.now scratch.old out.old) }
{
    vmd_slots::report_tidied(
        vmd_tidy::tidy_file(file, manner, scratch, out),
        written,
        kept,
        dropped,
    )
}

#[unsafe(no_mangle)]
pub extern "C" fn vmd_tidy_animation(
    file: &[u8],
    scratch: &mut [u64],
    out: &mut [u8],
    written: &mut u64,
    kept: &mut [u32; 6],
    dropped: &mut [u32; 6],
) -> u32
    ensures { let answer = tidied_answer strict file.now scratch.old out.old in
        (result ≡ status answer)
        × (written.new ≡ slot_after written.old (λ t. t.bytes) answer)
        × (kept.new ≡ slot_after kept.old (λ t. count_words t.kept) answer)
        × (dropped.new ≡ slot_after dropped.old (λ t. count_words t.dropped) answer)
        × (out.new ≡ tidied_output strict file.now scratch.old out.old)
        × (scratch.new ≡ tidied_scratch strict file.now scratch.old out.old) }
{
    tidy_in(
        VmdManner::Strict,
        file,
        scratch,
        out,
        written,
        kept,
        dropped,
    )
}

#[unsafe(no_mangle)]
pub extern "C" fn vmd_tidy_animation_lenient(
    file: &[u8],
    scratch: &mut [u64],
    out: &mut [u8],
    written: &mut u64,
    kept: &mut [u32; 6],
    dropped: &mut [u32; 6],
) -> u32
    ensures { let answer = tidied_answer lenient file.now scratch.old out.old in
        (result ≡ status answer)
        × (written.new ≡ slot_after written.old (λ t. t.bytes) answer)
        × (kept.new ≡ slot_after kept.old (λ t. count_words t.kept) answer)
        × (dropped.new ≡ slot_after dropped.old (λ t. count_words t.dropped) answer)
        × (out.new ≡ tidied_output lenient file.now scratch.old out.old)
        × (scratch.new ≡ tidied_scratch lenient file.now scratch.old out.old) }
{
    tidy_in(
        VmdManner::Lenient,
        file,
        scratch,
        out,
        written,
        kept,
        dropped,
    )
}

// ---- excerpts

fn excerpt_size_in(manner: VmdManner, file: &[u8], first: u32, last: u32, size: &mut u64) -> u32
    ensures { let answer = excerpt_size (manner_of manner) first last file.now in
        (result ≡ status answer)
        × (size.new ≡ slot_after size.old (λ n. n) answer) }
{
    vmd_slots::report_written(
        vmd_excerpt::excerpt_file_size(file, manner, first, last),
        size,
    )
}

#[unsafe(no_mangle)]
pub extern "C" fn vmd_excerpt_size(file: &[u8], first: u32, last: u32, size: &mut u64) -> u32
    ensures { let answer = excerpt_size strict first last file.now in
        (result ≡ status answer)
        × (size.new ≡ slot_after size.old (λ n. n) answer) }
{
    excerpt_size_in(VmdManner::Strict, file, first, last, size)
}

#[unsafe(no_mangle)]
pub extern "C" fn vmd_excerpt_size_lenient(
    file: &[u8],
    first: u32,
    last: u32,
    size: &mut u64,
) -> u32
    ensures { let answer = excerpt_size lenient first last file.now in
        (result ≡ status answer)
        × (size.new ≡ slot_after size.old (λ n. n) answer) }
{
    excerpt_size_in(VmdManner::Lenient, file, first, last, size)
}

fn excerpt_in(
    manner: VmdManner,
    file: &[u8],
    first: u32,
    last: u32,
    out: &mut [u8],
    written: &mut u64,
) -> u32
    ensures { let answer = excerpted_answer (manner_of manner) first last file.now out.old in
        (result ≡ status answer)
        × (written.new ≡ slot_after written.old (λ n. n) answer)
        × (out.new ≡ excerpted_output (manner_of manner) first last file.now out.old) }
{
    vmd_slots::report_written(
        vmd_excerpt::excerpt_file(file, manner, first, last, out),
        written,
    )
}

#[unsafe(no_mangle)]
pub extern "C" fn vmd_excerpt_animation(
    file: &[u8],
    first: u32,
    last: u32,
    out: &mut [u8],
    written: &mut u64,
) -> u32
    ensures { let answer = excerpted_answer strict first last file.now out.old in
        (result ≡ status answer)
        × (written.new ≡ slot_after written.old (λ n. n) answer)
        × (out.new ≡ excerpted_output strict first last file.now out.old) }
{
    excerpt_in(VmdManner::Strict, file, first, last, out, written)
}

#[unsafe(no_mangle)]
pub extern "C" fn vmd_excerpt_animation_lenient(
    file: &[u8],
    first: u32,
    last: u32,
    out: &mut [u8],
    written: &mut u64,
) -> u32
    ensures { let answer = excerpted_answer lenient first last file.now out.old in
        (result ≡ status answer)
        × (written.new ≡ slot_after written.old (λ n. n) answer)
        × (out.new ≡ excerpted_output lenient first last file.now out.old) }
{
    excerpt_in(VmdManner::Lenient, file, first, last, out, written)
}

// ---- is it canonical?

fn is_canonical_in(manner: VmdManner, file: &[u8], slot: &mut u32) -> u32
    ensures { let answer = canonical (manner_of manner) file.now in
        (result ≡ status answer)
        × (slot.new ≡ slot_after slot.old flag_byte answer) }
{
    vmd_slots::report(vmd_canonical::is_canonical_file(file, manner), slot)
}

#[unsafe(no_mangle)]
pub extern "C" fn vmd_is_canonical(file: &[u8], slot: &mut u32) -> u32
    ensures { let answer = canonical strict file.now in
        (result ≡ status answer)
        × (slot.new ≡ slot_after slot.old flag_byte answer) }
{
    is_canonical_in(VmdManner::Strict, file, slot)
}

#[unsafe(no_mangle)]
pub extern "C" fn vmd_is_canonical_lenient(file: &[u8], slot: &mut u32) -> u32
    ensures { let answer = canonical lenient file.now in
        (result ≡ status answer)
        × (slot.new ≡ slot_after slot.old flag_byte answer) }
{
    is_canonical_in(VmdManner::Lenient, file, slot)
}

fn first_change_in(manner: VmdManner, file: &[u8], change: &mut [u64; 2]) -> u32
    ensures { let answer = first_change (manner_of manner) file.now in
        (result ≡ status answer)
        × (change.new ≡ slot_after change.old change_words answer) }
{
    vmd_slots::report(vmd_canonical::first_file_change(file, manner), change)
}

#[unsafe(no_mangle)]
pub extern "C" fn vmd_first_change(file: &[u8], change: &mut [u64; 2]) -> u32
    ensures { let answer = first_change strict file.now in
        (result ≡ status answer)
        × (change.new ≡ slot_after change.old change_words answer) }
{
    first_change_in(VmdManner::Strict, file, change)
}

#[unsafe(no_mangle)]
pub extern "C" fn vmd_first_change_lenient(file: &[u8], change: &mut [u64; 2]) -> u32
    ensures { let answer = first_change lenient file.now in
        (result ≡ status answer)
        × (change.new ≡ slot_after change.old change_words answer) }
{
    first_change_in(VmdManner::Lenient, file, change)
}

// ---- building

#[unsafe(no_mangle)]
pub extern "C" fn vmd_first_fault(name: &[u8]) -> usize
    ensures { result ≡ fault name.now }
{
    vmd_names::first_fault(name)
}

#[unsafe(no_mangle)]
pub extern "C" fn vmd_build_size(
    model_name: &[u8],
    bone_name_bytes: &[u8],
    bone_name_ends: &[u32],
    morph_name_bytes: &[u8],
    morph_name_ends: &[u32],
    camera_frames: &[u8],
    light_frames: &[u8],
    self_shadow_frames: &[u8],
    property_frames: &[u8],
    bone_name_indices: &[u32],
    bone_frames: &[u32],
    bone_translations_xyz: &[f32],
    bone_rotations_xyzw: &[f32],
    bone_interpolations: &[u8],
    morph_name_indices: &[u32],
    morph_frames: &[u32],
    morph_weights: &[f32],
    size: &mut u64,
) -> u32
    ensures { let answer = map_answer length (fitted 18446744073709551615 (build (parts_of
        model_name.now bone_name_bytes.now bone_name_ends.now morph_name_bytes.now
        morph_name_ends.now camera_frames.now light_frames.now self_shadow_frames.now
        property_frames.now bone_name_indices.now bone_frames.now bone_translations_xyz.now
        bone_rotations_xyzw.now bone_interpolations.now morph_name_indices.now morph_frames.now
        morph_weights.now))) in
        (result ≡ status answer)
        × (size.new ≡ slot_after size.old (λ n. n) answer) }
{
    let parts = VmdParts {
        model_name,
        bone_names: VmdNameTable {
            bytes: bone_name_bytes,
            ends: bone_name_ends,
        },
        morph_names: VmdNameTable {
            bytes: morph_name_bytes,
            ends: morph_name_ends,
        },
        camera_frames,
        light_frames,
        self_shadow_frames,
        property_frames,
        bones: VmdBoneColumns {
            name_indices: bone_name_indices,
            frames: bone_frames,
            translations_xyz: bone_translations_xyz,
            rotations_xyzw: bone_rotations_xyzw,
            interpolations: bone_interpolations,
        },
        morphs: VmdMorphColumns {
            name_indices: morph_name_indices,
            frames: morph_frames,
            weights: morph_weights,
        },
    };
    let answer = vmd_parts::build_vmd_size(&parts);
    vmd_slots::report_written(answer, size)
}

#[unsafe(no_mangle)]
pub extern "C" fn vmd_build_animation_from_parts(
    model_name: &[u8],
    bone_name_bytes: &[u8],
    bone_name_ends: &[u32],
    morph_name_bytes: &[u8],
    morph_name_ends: &[u32],
    camera_frames: &[u8],
    light_frames: &[u8],
    self_shadow_frames: &[u8],
    property_frames: &[u8],
    bone_name_indices: &[u32],
    bone_frames: &[u32],
    bone_translations_xyz: &[f32],
    bone_rotations_xyzw: &[f32],
    bone_interpolations: &[u8],
    morph_name_indices: &[u32],
    morph_frames: &[u32],
    morph_weights: &[f32],
    out: &mut [u8],
    written: &mut u64,
) -> u32
    ensures { let file = fitted (length out.old) (build (parts_of
        model_name.now bone_name_bytes.now bone_name_ends.now morph_name_bytes.now
        morph_name_ends.now camera_frames.now light_frames.now self_shadow_frames.now
        property_frames.now bone_name_indices.now bone_frames.now bone_translations_xyz.now
        bone_rotations_xyzw.now bone_interpolations.now morph_name_indices.now morph_frames.now
        morph_weights.now)) in
        (result ≡ status (map_answer length file))
        × (written.new ≡ slot_after written.old (λ n. n) (map_answer length file))
        × (out.new ≡ left out.old file) }
{
    let parts = VmdParts {
        model_name,
        bone_names: VmdNameTable {
            bytes: bone_name_bytes,
            ends: bone_name_ends,
        },
        morph_names: VmdNameTable {
            bytes: morph_name_bytes,
            ends: morph_name_ends,
        },
        camera_frames,
        light_frames,
        self_shadow_frames,
        property_frames,
        bones: VmdBoneColumns {
            name_indices: bone_name_indices,
            frames: bone_frames,
            translations_xyz: bone_translations_xyz,
            rotations_xyzw: bone_rotations_xyzw,
            interpolations: bone_interpolations,
        },
        morphs: VmdMorphColumns {
            name_indices: morph_name_indices,
            frames: morph_frames,
            weights: morph_weights,
        },
    };
    let answer = vmd_parts::build_vmd_animation_from_parts(&parts, out);
    vmd_slots::report_written(answer, written)
}

// ---- parts out of a take

fn split_sizes_in(manner: VmdManner, file: &[u8], sizes: &mut [u64; 4]) -> u32
    ensures { let answer = split_sizes (manner_of manner) file.now in
        (result ≡ status answer) × (sizes.new ≡ slot_after sizes.old size_words answer) }
{
    vmd_slots::report(vmd_split::split_file_sizes(file, manner), sizes)
}

#[unsafe(no_mangle)]
pub extern "C" fn vmd_split_sizes(file: &[u8], sizes: &mut [u64; 4]) -> u32
    ensures { let answer = split_sizes strict file.now in
        (result ≡ status answer) × (sizes.new ≡ slot_after sizes.old size_words answer) }
{
    split_sizes_in(VmdManner::Strict, file, sizes)
}

#[unsafe(no_mangle)]
pub extern "C" fn vmd_split_sizes_lenient(file: &[u8], sizes: &mut [u64; 4]) -> u32
    ensures { let answer = split_sizes lenient file.now in
        (result ≡ status answer) × (sizes.new ≡ slot_after sizes.old size_words answer) }
{
    split_sizes_in(VmdManner::Lenient, file, sizes)
}

#[unsafe(no_mangle)]
pub extern "C" fn vmd_split_animation_into_parts(
    file: &[u8],
    bone_name_bytes: &mut [u8],
    bone_name_ends: &mut [u32],
    morph_name_bytes: &mut [u8],
    morph_name_ends: &mut [u32],
    camera_frames: &mut [u8],
    light_frames: &mut [u8],
    self_shadow_frames: &mut [u8],
    property_frames: &mut [u8],
    bone_name_indices: &mut [u32],
    bone_frames: &mut [u32],
    bone_translations_xyz: &mut [u32],
    bone_rotations_xyzw: &mut [u32],
    bone_interpolations: &mut [u8],
    morph_name_indices: &mut [u32],
    morph_frames: &mut [u32],
    morph_weights: &mut [u32],
    sizes: &mut [u64; 4],
) -> u32
    ensures { let lent = buffers bone_name_bytes.old bone_name_ends.old morph_name_bytes.old morph_name_ends.old
        camera_frames.old light_frames.old self_shadow_frames.old property_frames.old
        bone_name_indices.old bone_frames.old bone_translations_xyz.old bone_rotations_xyzw.old
        bone_interpolations.old morph_name_indices.old morph_frames.old morph_weights.old in
        (result ≡ status (split_answer strict file.now lent))
        × (sizes.new ≡ slot_after sizes.old size_words (split_answer strict file.now lent))
        × (buffers bone_name_bytes.new bone_name_ends.new morph_name_bytes.new morph_name_ends.new
        camera_frames.new light_frames.new self_shadow_frames.new property_frames.new
        bone_name_indices.new bone_frames.new bone_translations_xyz.new bone_rotations_xyzw.new
        bone_interpolations.new morph_name_indices.new morph_frames.new morph_weights.new
        ≡ parts_left lent (split strict file.now lent)) }
{
    let mut bones = VmdLentBones {
        name_bytes: bone_name_bytes,
        name_ends: bone_name_ends,
        name_indices: bone_name_indices,
        frames: bone_frames,
        translations_xyz: bone_translations_xyz,
        rotations_xyzw: bone_rotations_xyzw,
        interpolations: bone_interpolations,
    };
    let mut morphs = VmdLentMorphs {
        name_bytes: morph_name_bytes,
        name_ends: morph_name_ends,
        name_indices: morph_name_indices,
        frames: morph_frames,
        weights: morph_weights,
    };
    let mut records = VmdLentRecords {
        cameras: camera_frames,
        lights: light_frames,
        self_shadows: self_shadow_frames,
        properties: property_frames,
    };
    let answer = vmd_split::split_file(
        file,
        VmdManner::Strict,
        &mut bones,
        &mut morphs,
        &mut records,
    );
    vmd_slots::report(answer, sizes)
}

#[unsafe(no_mangle)]
pub extern "C" fn vmd_split_animation_into_parts_lenient(
    file: &[u8],
    bone_name_bytes: &mut [u8],
    bone_name_ends: &mut [u32],
    morph_name_bytes: &mut [u8],
    morph_name_ends: &mut [u32],
    camera_frames: &mut [u8],
    light_frames: &mut [u8],
    self_shadow_frames: &mut [u8],
    property_frames: &mut [u8],
    bone_name_indices: &mut [u32],
    bone_frames: &mut [u32],
    bone_translations_xyz: &mut [u32],
    bone_rotations_xyzw: &mut [u32],
    bone_interpolations: &mut [u8],
    morph_name_indices: &mut [u32],
    morph_frames: &mut [u32],
    morph_weights: &mut [u32],
    sizes: &mut [u64; 4],
) -> u32
    ensures { let lent = buffers bone_name_bytes.old bone_name_ends.old morph_name_bytes.old morph_name_ends.old
        camera_frames.old light_frames.old self_shadow_frames.old property_frames.old
        bone_name_indices.old bone_frames.old bone_translations_xyz.old bone_rotations_xyzw.old
        bone_interpolations.old morph_name_indices.old morph_frames.old morph_weights.old in
        (result ≡ status (split_answer lenient file.now lent))
        × (sizes.new ≡ slot_after sizes.old size_words (split_answer lenient file.now lent))
        × (buffers bone_name_bytes.new bone_name_ends.new morph_name_bytes.new morph_name_ends.new
        camera_frames.new light_frames.new self_shadow_frames.new property_frames.new
        bone_name_indices.new bone_frames.new bone_translations_xyz.new bone_rotations_xyzw.new
        bone_interpolations.new morph_name_indices.new morph_frames.new morph_weights.new
        ≡ parts_left lent (split lenient file.now lent)) }
{
    let mut bones = VmdLentBones {
        name_bytes: bone_name_bytes,
        name_ends: bone_name_ends,
        name_indices: bone_name_indices,
        frames: bone_frames,
        translations_xyz: bone_translations_xyz,
        rotations_xyzw: bone_rotations_xyzw,
        interpolations: bone_interpolations,
    };
    let mut morphs = VmdLentMorphs {
        name_bytes: morph_name_bytes,
        name_ends: morph_name_ends,
        name_indices: morph_name_indices,
        frames: morph_frames,
        weights: morph_weights,
    };
    let mut records = VmdLentRecords {
        cameras: camera_frames,
        lights: light_frames,
        self_shadows: self_shadow_frames,
        properties: property_frames,
    };
    let answer = vmd_split::split_file(
        file,
        VmdManner::Lenient,
        &mut bones,
        &mut morphs,
        &mut records,
    );
    vmd_slots::report(answer, sizes)
}

// ---- season figures

#[unsafe(no_mangle)]
pub extern "C" fn vmd_season_none(counts: &mut [u32; 12], figures: &mut [u64; 11])
    ensures { (counts.new ≡ season_counts no_takes) × (figures.new ≡ season_figures no_takes) }
{
    vmd_slots::report_season(VmdSeason::none(), counts, figures);
}

#[unsafe(no_mangle)]
pub extern "C" fn vmd_season_add(file: &[u8], counts: &mut [u32; 12], figures: &mut [u64; 11])
    ensures { let next = with_file lenient (season_at counts.old figures.old) file.now in
        (counts.new ≡ season_counts next) × (figures.new ≡ season_figures next) }
{
    let next = vmd_slots::season_of(counts, figures).add(file);
    vmd_slots::report_season(next, counts, figures);
}

// The mean looks at no counts.
#[unsafe(no_mangle)]
pub extern "C" fn vmd_season_mean(figures: &[u64; 11], numbers: &mut [u64; 2])
    ensures { numbers.new ≡ mean_words (mean (season_at [] figures.now)) }
{
    let none = [0u32; 12];
    let m = vmd_slots::season_of(&none, figures).mean();
    *numbers = m.slot();
}
