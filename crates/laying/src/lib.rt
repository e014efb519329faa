// The reserve of a new image, empty or of one book; and the call that lays an empty one.
#![tactic(auto)]

ghost use Rattle.std.specs.Prelude.{◌≡◌, [], ◌≤◌, length};
ghost use Rattle.laws.specs.Folds.{join_below};
ghost use Rattle.laws.specs.Bytes.{splice};
ghost use Rattle.paper.specs.Geometry.{header_bytes, fixed_regions, Allowed, no_region, need, size_at};
ghost use Rattle.paper.specs.Image.{not_open, front, blanked, coded, size_width, set_pages, written_header, entry_row, size_row};
ghost use Rattle.paper.specs.Index.{empty_index};
ghost use Rattle.paper.specs.Calls.{lay, version_number, laid_size};
ghost use Rattle.paper.specs.Move.{moved_owner, moved_place, moved_size, moved_front};
ghost use Rattle.paper.specs.Refusals.{blank, refusal};
ghost use Rattle.paper.specs.Answers.{no_in, answered, plain};
ghost use Rattle.paper.specs.Outcomes.{lent, gives, outcome};
ghost use Rattle.rules.specs.Facts.{Readable, Indexed, fronted};

use numbers::Number;
use paper::{Block, Geometry, Pages, Position, Refusal, Region, Version};

// ---- header and tables. What is written is lent by itself (image says why), and each function asks that the
// geometry has the blocks

// C is the first region that can be opened.
#[tactic(auto, using(rules::proofs::Written::header_put))]
fn write_header(image: &mut [u8], version: Version, taken: u16)
    requires { header_bytes ≤ length image.old }
    ensures { image.new ≡ splice 0 (written_header (version_number version) taken fixed_regions) image.old }
{
    0u32.write(image, paper::MARKER_AT);
    u32::from(version).write(image, paper::VERSION_AT);
    taken.write(image, paper::TAKEN_AT);
    (paper::FIXED_REGIONS as u16).write(image, paper::COUNTER_AT);
    0u32.write(image, paper::BLANK_AT);
}

// Numbers are held against counts as in image. Of the blocks taken, all the old anonymous book's, the last stands first. A block that is not taken holds region E-1, position 0.
fn new_owner(g: Geometry, taken: u16, b: Block) -> Region
    requires { Allowed g }
    ensures { result.0 ≡ moved_owner g taken b.0 }
{
    if b.0 < taken {
        return paper::ANONYMOUS;
    }
    g.no_region()
}

fn new_place(taken: u16, b: Block) -> Position
    ensures { result.0 ≡ moved_place taken b.0 }
{
    let next = b.0 as usize + 1;
    if next < taken as usize {
        return Position(next);
    }
    Position(0)
}

fn write_blocks(g: Geometry, image: &mut [u8], taken: u16)
    requires { Readable g image.old }
    ensures { image.new ≡ splice header_bytes (join_below g.blocks (entry_row (moved_owner g taken) (moved_place taken))) image.old }
{
    for i in 0..g.blocks {
        let b = Block(i as u16);
        let owner = new_owner(g, taken, b);
        let place = new_place(taken, b);
        image::set_entry(g, image, b, owner, place);
    }
}

// ---- entries as they are written: all eight bytes as one number

// What stands in the entry of a region that is not open: all ones in the bytes that the version has for the pages, and edition 0.
#[tactic(auto, using(rules::proofs::Cells::coded_not_open), unfolding(paper::specs::Image::size_width))]
fn not_open(version: Version) -> u64
    ensures { result ≡ coded (size_width (version_number version)) not_open }
{
    match version {
        Version::Two => paper::ALL_ONES,
        Version::Three => paper::LOW_ONES as u64,
    }
}

// Regions 0 to 15 are open and empty, and no other is open.
#[tactic(auto, using(rules::proofs::Cells::coded_pages), unfolding(paper::specs::Calls::laid_size))]
fn laid_size(version: Version, r: Region) -> u64
    ensures { result ≡ coded (size_width (version_number version)) (laid_size r.0) }
{
    if r.0 < paper::FIXED_REGIONS {
        return 0;
    }
    not_open(version)
}

// The old anonymous book has so many pages.
#[tactic(auto, using(rules::proofs::Cells::coded_pages), unfolding(paper::specs::Move::moved_size))]
fn new_size(version: Version, r: Region, pages: Pages) -> u64
    ensures { result ≡ coded (size_width (version_number version)) (moved_size pages.0 r.0) }
{
    if r == paper::ANONYMOUS {
        return pages.0;
    }
    laid_size(version, r)
}

fn write_regions(g: Geometry, version: Version, image: &mut [u8], pages: Pages)
    requires { Readable g image.old × (need g pages.0 ≤ g.blocks) }
    ensures { image.new ≡ splice (size_at g 0) (join_below g.entries (size_row (version_number version) (moved_size pages.0))) image.old }
{
    for r in 0..g.entries {
        let region = Region(r as u32);
        new_size(version, region, pages).write(image, g.size_at(region));
    }
}

// The header last: before it there is no image, whatever stands in the tables.
fn write_tables(g: Geometry, version: Version, image: &mut [u8], pages: Pages)
    requires { Readable g image.old × (need g pages.0 ≤ g.blocks) }
    ensures { image.new ≡ fronted g (moved_front g version pages.0) image.old }
{
    let taken = g.need(pages) as u16;
    write_blocks(g, image, taken);
    write_regions(g, version, image, pages);
    write_header(image, version, taken);
}

// ---- the rest of the reserve

// Zeros between the tables and the end of the reserve.
#[tactic(auto, using(rules::proofs::Parts::zeros_written))]
fn blank_unused(g: Geometry, image: &mut [u8])
    requires { Readable g image.old }
    ensures { image.new ≡ blanked g image.old }
{
    numbers::zero_part(image, g.front_bytes(), g.block_bytes());
}

// Region E-1 as open, which it never is: from here on recovery refuses, whatever an older memory has in this place, until the regions' entries
// are written, of which this is the last.
fn spoil(g: Geometry, image: &mut [u8])
    requires { Readable g image.old }
    ensures { image.new ≡ fronted g (set_pages g (no_region g) 0 (front g image.old)) image.old }
{
    image::set_pages(g, image, g.no_region(), Pages(0));
}

// The old anonymous book has so many pages, in the first data blocks. The header comes last: cut short before it, recovery refuses the image,
// and where it is zero lay takes the image again.
pub fn write_reserve(g: Geometry, version: Version, image: &mut [u8], pages: Pages)
    requires { Readable g image.old × (need g pages.0 ≤ g.blocks) }
    ensures { image.new ≡ fronted g (moved_front g version pages.0) (blanked g image.old) }
{
    spoil(g, image);
    blank_unused(g, image);
    write_tables(g, version, image, pages);
}

// ---- the empty index

fn write_empty_index(g: Geometry, index: &mut [u8])
    requires { Indexed g index.old }
    ensures { index.new ≡ empty_index g }
{
    numbers::fill_u16(index, 0, g.entries + 1, 0);
    numbers::fill_u16(index, g.slot_at(0), g.blocks, paper::NO_BLOCK.0);
}

// ---- refusals 1, 2, 3, 12

fn blank(g: Geometry, image: &[u8]) -> bool
    requires { header_bytes ≤ length image.now }
    ensures { result ≡ blank g image.now }
{
    numbers::all_zero(&image[..paper::HEADER_BYTES])
}

fn layable(g: Geometry, version: Version, image: &[u8], index: &[u8]) -> Result<(), Refusal>
    ensures { no_in result ≡ refusal g image.now index.now (lay version) }
{
    desk::lent(g, image, index)?;
    if !blank(g, image) {
        return Err(Refusal::NotBlank);
    }
    Ok(())
}

// ---- Lay: header and both tables, zeros in the rest of the reserve, and the empty index. Data blocks keep their bytes

pub fn lay(g: Geometry, version: Version, image: &mut [u8], index: &mut [u8]) -> Result<(), Refusal>
    ensures { gives (answered plain result) [] (lent image.new index.new) ≡ outcome g (lay version) (lent image.old index.old) }
{
    layable(g, version, image, index)?;
    write_reserve(g, version, image, Pages(0));
    write_empty_index(g, index);
    Ok(())
}
