//! Module 2: keeping images. Load appends an image's bytes to the code store and writes what run time looks up: the place of each
//! constant, and a row for each template. Both tables are indexed by places of the code store, so its count bounds them too.
#![tactic(auto)]

ghost use Rattle.std.specs.Prelude.{◌≡◌, List, [], ℕ, ◌+◌, ◌≤◌, ◌<◌, length, get_or, MatchOption};
ghost use Rattle.std.proofs.Math.Option.{some};
ghost use Rattle.std.proofs.Math.ListN.{get_elem?};
ghost use Rattle.std.proofs.Math.Seq.{paste};
ghost use Rattle.machine.specs.State.{no_template, limit, code_store};
ghost use Rattle.reader.specs.Constants.{constant_of};
ghost use Rattle.image.specs.View.{Window, word_at, wide_at, constant_at, constants_of, images_of};
ghost use Rattle.image.specs.Fills.{Fills, FillsOne, FillsAll, FillsImage};
ghost use Rattle.image.specs.Near.{Nears};
ghost use Rattle.image.specs.Load.{sizes_listed, Loads, Fitting, AppendSays, space_of, space_refusal, template_from, found_of};

mod error;

pub use error::LoadError;
use reader::{Constant, ImageError, Reader};

// The listed sizes. Both tables have an entry for each byte of code.
pub const CODE_BYTES: usize = 32768;

pub const IMAGES: usize = 16;

// Bytes of the code store and images in use.
#[derive(Clone, Copy, Debug, Default, PartialEq, Eq)]
pub struct ImageCounts {
    pub code: usize,
    pub images: usize,
}

// A template as the tables have it: its constants' places are `constant_count` entries from `constants` on.
#[derive(Clone, Copy, Debug, Default, PartialEq, Eq)]
pub struct FunctionTemplate {
    pub param_count: usize,
    pub local_count: usize,
    pub constants: usize,
    pub constant_count: usize,
    pub at: usize,
    pub size: usize,
}

// n constants: the place of each goes into the table.
fn fill_constants(
    reader: &mut Reader,
    places: &mut [u16],
    n: u16,
    own: u64,
    count: u64,
) -> Result<(), ImageError>
    requires { (length reader.old.src.now ≤ limit code_store) × (length reader.old.src.now ≤ length places.old) }
    ensures src { reader.new.src ≡ reader.old.src }
    ensures fills { Fills reader.old.src.now places.old places.new reader.old.at reader.new.at n own count result }
{
    let first = reader.at();
    for i in 0..usize::from(n) {
        let at = reader.at();
        reader.constant(own, count)?;
        places[first + i] = at as u16;
    }
    Ok(())
}

// A template's row is six of its eight entries.
fn fill_template(
    reader: &mut Reader,
    places: &mut [u16],
    rows: &mut [u16],
    r: usize,
    own: u64,
    count: u64,
) -> Result<(), ImageError>
    requires at_in_bounds { (length reader.old.src.now ≤ limit code_store) × (r ≤ reader.old.at) }
    requires src_in_bounds { (length reader.old.src.now ≤ length places.old) × (length reader.old.src.now ≤ length rows.old) }
    ensures src { reader.new.src ≡ reader.old.src }
    ensures fills { FillsOne reader.old.src.now places.old rows.old places.new rows.new reader.old.at r reader.new.at own count result }
{
    let head = reader.head()?;
    let first = reader.at();
    fill_constants(reader, places, head.constant_count, own, count)?;
    let tail = reader.tail()?;
    rows[r] = head.param_count;
    rows[r + 1] = head.local_count;
    rows[r + 2] = first as u16;
    rows[r + 3] = head.constant_count;
    rows[r + 4] = tail.at as u16;
    rows[r + 5] = tail.size;
    Ok(())
}

fn fill_templates(
    reader: &mut Reader,
    places: &mut [u16],
    rows: &mut [u16],
    count: u64,
) -> Result<(), ImageError>
    requires at_in_bounds { length reader.old.src.now ≤ limit code_store }
    requires src_in_bounds { (length reader.old.src.now ≤ length places.old) × (length reader.old.src.now ≤ length rows.old) }
    ensures src { reader.new.src ≡ reader.old.src }
    ensures fills { FillsAll reader.old.src.now places.old rows.old places.new rows.new reader.old.at reader.new.at count result }
{
    let first = reader.at();
    for own in 0..count {
        fill_template(reader, places, rows, first + 8 * own as usize, own, count)?;
    }
    Ok(())
}

// An image that starts at a place of the store: its template count, then its rows.
fn fill_image(s: &[u8], places: &mut [u16], rows: &mut [u16], at: usize) -> Result<(), ImageError>
    requires at_in_bounds { (at ≤ length s.now) × (length s.now ≤ limit code_store) }
    requires s_in_bounds { (length s.now ≤ length places.old) × (length s.now ≤ length rows.old) }
    ensures { FillsImage s.now places.old rows.old places.new rows.new at result }
{
    let mut reader = Reader::new(s, at);
    let count = reader.word()?;
    rows[at] = count;
    fill_templates(&mut reader, places, rows, u64::from(count))
}

// The image's bytes, behind those that are there.
fn copy(code: &mut [u8], at: usize, image: &[u8])
    requires { at + length image.now ≤ length code.old }
    ensures { code.new ≡ paste code.old at image.now (length image.now) }
{
    for i in 0..image.len() {
        code[at + i] = image[i];
    }
}

// Questions 8 and 9.
fn ask_space(counts: ImageCounts, n: usize) -> Result<(), LoadError>
    ensures { space_of result ≡ space_refusal counts n }
{
    if CODE_BYTES < n || CODE_BYTES - n < counts.code {
        return Err(LoadError::CodeFull);
    }
    if IMAGES <= counts.images {
        return Err(LoadError::ImagesFull);
    }
    Ok(())
}

// An image that pass 1 has taken and that fits. Pass 2 reads it again where it now stands, so its refusal is never met.
fn append(
    code: &mut [u8],
    places: &mut [u16],
    rows: &mut [u16],
    starts: &mut [u16],
    counts: ImageCounts,
    image: &[u8],
) -> Result<(usize, ImageCounts), LoadError>
    requires { Fitting (record { code = code.old; places = places.old; rows = rows.old; starts = starts.old }) counts image.now }
    ensures { AppendSays
        (record { code = code.old; places = places.old; rows = rows.old; starts = starts.old })
        (record { code = code.new; places = places.new; rows = rows.new; starts = starts.new })
        counts image.now result }
{
    let at = counts.code;
    let i = counts.images;
    let end = at + image.len();
    copy(code, at, image);
    fill_image(&code[..end], places, rows, at)?;
    starts[i] = at as u16;
    let next = ImageCounts {
        code: end,
        images: i + 1,
    };
    Ok((i, next))
}

// Question 33.
fn listed(code: usize, places: usize, rows: usize, starts: usize) -> bool
    ensures { result ≡ sizes_listed code places rows starts }
{
    code == CODE_BYTES && places == CODE_BYTES && rows == CODE_BYTES && starts == IMAGES
}

// 33, 1 to 7, 8, 9; then the image is appended. Nothing is written before the last question.
pub fn load(
    code: &mut [u8],
    places: &mut [u16],
    rows: &mut [u16],
    starts: &mut [u16],
    counts: ImageCounts,
    image: &[u8],
) -> Result<(usize, ImageCounts), LoadError>
    ensures { Loads
        (record { code = code.old; places = places.old; rows = rows.old; starts = starts.old })
        (record { code = code.new; places = places.new; rows = rows.new; starts = starts.new })
        counts image.now result }
{
    if !listed(code.len(), places.len(), rows.len(), starts.len()) {
        return Err(LoadError::StoreSizes);
    }
    Reader::new(image, 0).image()?;
    ask_space(counts, image.len())?;
    append(code, places, rows, starts, counts, image)
}

// An entry of a table, or 0 past its end.
fn entry(xs: &[u16], i: usize) -> usize
    ensures { (result ≡ get_or xs.now i 0) × (result < 65536) }
{
    usize::from(xs.get(i).copied().unwrap_or(0))
}

// How many templates image i has, of n images.
pub fn template_count(rows: &[u16], starts: &[u16], n: usize, i: usize) -> usize
    ensures { (code places : List ℕ) → result ≡ length (get_or (images_of code places rows.now starts.now n) i []) }
{
    if n <= i {
        return 0;
    }
    entry(rows, entry(starts, i))
}

// Template t of image i, of n images; one of zeros where there is none.
pub fn template_at(rows: &[u16], starts: &[u16], n: usize, i: usize, t: usize) -> FunctionTemplate
    ensures { (code places : List ℕ) → template_from code places result ≡ get_or (get_or (images_of code places rows.now starts.now n) i []) t no_template }
{
    if n <= i {
        return FunctionTemplate::default();
    }
    let b = entry(starts, i);
    if entry(rows, b) <= t {
        return FunctionTemplate::default();
    }
    let r = b + 2 + 8 * t;
    FunctionTemplate {
        param_count: entry(rows, r),
        local_count: entry(rows, r + 1),
        constants: entry(rows, r + 2),
        constant_count: entry(rows, r + 3),
        at: entry(rows, r + 4),
        size: entry(rows, r + 5),
    }
}

// Where constant k of a template stands in the code.
fn place_of(places: &[u16], t: FunctionTemplate, k: usize) -> Option<usize>
    ensures { MatchOption result (t.constant_count ≤ k) (λ p. (k < t.constant_count) × (p ≡ get_or places.now (t.constants + k) 0) × (p < 65536)) }
{
    if t.constant_count <= k {
        return None;
    }
    Some(t.constants.checked_add(k).map_or(0, |i| entry(places, i)))
}

// The constant that nine bytes show, the first of which stands at place p of the code. Each is read where it is used: so a number is one load.
fn constant_in(bytes: &[u8; 9], p: usize) -> Constant
    requires { p < 65536 }
    ensures { (code : List ℕ) → Window code p bytes.now → constant_of result ≡ constant_at code p }
{
    match bytes[0] {
        0 => Constant::Number(u64::from_be_bytes([
            bytes[1], bytes[2], bytes[3], bytes[4], bytes[5], bytes[6], bytes[7], bytes[8],
        ])),
        1 => Constant::Str(
            (p + 3) as u64,
            u64::from(u16::from_be_bytes([bytes[1], bytes[2]])),
        ),
        2 => Constant::Bool(bytes[1] == 1),
        3 => Constant::Null,
        4 => Constant::Undefined,
        5 => Constant::Function(u64::from(u16::from_be_bytes([bytes[1], bytes[2]]))),
        _ => Constant::Undefined,
    }
}

// A byte of the code, or 0 past its end.
fn byte_of(code: &[u8], p: usize) -> u8
    ensures { result ≡ get_or code.now p 0 }
{
    code.get(p).copied().unwrap_or(0)
}

// Two bytes.
fn word_of(code: &[u8], p: usize) -> u64
    requires { p < 65600 }
    ensures { result ≡ word_at code.now p }
{
    u64::from(u16::from_be_bytes([byte_of(code, p), byte_of(code, p + 1)]))
}

// Eight bytes. Where all are there, they make one load.
fn long_of(code: &[u8], p: usize) -> u64
    requires { p < 65600 }
    ensures { result ≡ wide_at code.now 8 0 p }
{
    if p + 8 <= code.len() {
        return u64::from_be_bytes([
            code[p],
            code[p + 1],
            code[p + 2],
            code[p + 3],
            code[p + 4],
            code[p + 5],
            code[p + 6],
            code[p + 7],
        ]);
    }
    u64::from_be_bytes([
        byte_of(code, p),
        byte_of(code, p + 1),
        byte_of(code, p + 2),
        byte_of(code, p + 3),
        byte_of(code, p + 4),
        byte_of(code, p + 5),
        byte_of(code, p + 6),
        byte_of(code, p + 7),
    ])
}

// The constant whose kind stands at place p of the code, of the bytes that its kind has.
fn held(code: &[u8], p: usize) -> Constant
    requires { p < 65536 }
    ensures { constant_of result ≡ constant_at code.now p }
{
    match byte_of(code, p) {
        0 => Constant::Number(long_of(code, p + 1)),
        1 => Constant::Str((p + 3) as u64, word_of(code, p + 1)),
        2 => Constant::Bool(byte_of(code, p + 1) == 1),
        3 => Constant::Null,
        4 => Constant::Undefined,
        5 => Constant::Function(word_of(code, p + 1)),
        _ => Constant::Undefined,
    }
}

// Constant k of a template.
pub fn constant_at(code: &[u8], places: &[u16], t: FunctionTemplate, k: usize) -> Option<Constant>
    ensures { found_of result ≡ get_elem? (constants_of code.now places.now t.constants t.constant_count) k }
{
    let p = place_of(places, t, k)?;
    Some(held(code, p))
}

// Constant k of a template, the quick way: where nine bytes are there. `None` says nothing of the constant.
pub fn near(code: &[u8], places: &[u16], t: FunctionTemplate, k: usize) -> Option<Constant>
    ensures { Nears (get_elem? (constants_of code.now places.now t.constants t.constant_count) k) result }
{
    let p = place_of(places, t, k)?;
    Some(constant_in(code.get(p..p + 9)?.first_chunk()?, p))
}

// Constant k of template t of image i, of n images.
pub fn load_const(
    code: &[u8],
    places: &[u16],
    rows: &[u16],
    starts: &[u16],
    n: usize,
    i: usize,
    t: usize,
    k: usize,
) -> Option<Constant>
    ensures { found_of result ≡ get_elem? (get_or (get_or (images_of code.now places.now rows.now starts.now n) i []) t no_template).constants k }
{
    constant_at(code, places, template_at(rows, starts, n, i, t), k)
}
