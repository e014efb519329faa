// The calls that change the tables: open, grow and release.
#![tactic(auto)]

ghost use Rattle.std.specs.Prelude.{◌≡◌, true, [], ◌*◌, ◌^◌, ◌<◌, length};
ghost use Rattle.paper.specs.Geometry.{capacity};
ghost use Rattle.paper.specs.Image.{front, pages_of, is_open};
ghost use Rattle.paper.specs.Calls.{«open», grow, release, grown_front, grown};
ghost use Rattle.paper.specs.Index.{index_of};
ghost use Rattle.paper.specs.Answers.{answered, plain, counted, opened_as};
ghost use Rattle.paper.specs.Outcomes.{gives, lent, outcome};
ghost use Rattle.rules.specs.Facts.{Formed, Readable, fronted, Indexed};
ghost use Rattle.image.specs.Views.{front_of};
ghost use Rattle.keeping.specs.Kept.{zeroed_new};
ghost use Rattle.books.specs.Room.{has_room, Growing};

use image::Image;
use index::Index;
use paper::{Book, Geometry, Offset, Pages, Refusal, Region};
use stretches::Walk;

// Whether region 1's blocks and those from N to K are enough for so many pages more. The sum of the pages could wrap, so the growth alone is
// held against what the blocks leave.
fn has_room(image: &Image<'_>, region: Region, pages: Pages) -> bool
    requires formed { Formed image.now.g (capacity image.now.g (length image.now.bytes.now)) (front_of image.now) }
    requires region_value { is_open image.now.g (front_of image.now) region.0 ≡ true }
    ensures { result ≡ has_room image.now.g image.now.bytes.now region.0 pages.0 }
{
    let g = image.g;
    let old = image.pages(region);
    let spare = image.need(paper::RECLAIMED);
    let room = spare + (g.capacity(image.bytes.len()) as u64 - image.taken() as u64);
    let most = (g.need(old) + room) * g.pages as u64;
    pages.0 <= most - old.0
}

// After an accepted grow or release the index is what recover would then write. (It is lent by itself: image says why.)
fn index_anew(image: &Image<'_>, index: &mut [u8])
    requires indexed { Indexed image.now.g index.old }
    requires formed { Formed image.now.g (capacity image.now.g (length image.now.bytes.now)) (front_of image.now) }
    ensures { index.new ≡ index_of image.now.g (front_of image.now) }
{
    index::write_index(image, index);
}

// Open: while C is below E-1, gives C and raises it; then the lowest region from 16 to E-2 that is not open and not at its last edition. A
// book with no pages has no blocks, so the index stays.
pub fn open(g: Geometry, image: &mut [u8], index: &mut [u8]) -> Result<Book, Refusal>
    ensures { gives (answered opened_as result) [] (lent image.new index.new) ≡ outcome g «open» (lent image.old index.old) }
{
    recovery::ordered(g, image, index)?;
    let before = Image { g, bytes: image };
    let Some(region) = tables::next_region(&before) else {
        return Err(Refusal::NoRegion);
    };
    let edition = before.edition(region);
    tables::open_tables(g, image, region);
    Ok(Book { region, edition })
}

// Release: appends the book's blocks to region 1 in position order, sets "not open" and raises the edition.
#[tactic(auto, using(crate::proofs::Left::zero_refused))]
pub fn release(g: Geometry, image: &mut [u8], index: &mut [u8], book: Book) -> Result<(), Refusal>
    ensures { gives (answered plain result) [] (lent image.new index.new) ≡ outcome g (release book.region.0 book.edition.0) (lent image.old index.old) }
{
    recovery::ordered(g, image, index)?;
    if book.region == paper::ANONYMOUS {
        return Err(Refusal::Unusable);
    }
    let before = Image { g, bytes: image };
    desk::name_book(&before, book)?;
    tables::release_tables(g, image, book.region);
    index_anew(&Image { g, bytes: image }, index);
    Ok(())
}

// ---- grow, step by step. What is written is lent by itself (image says why), so each step asks again what
// a growth is: what holds of region and pages has that name

// The blocks for so many pages more, and last the page count: until it is written the needs sum to less than N, and recovery refuses.
fn grow_tables(image: &mut [u8], index: &Index<'_>, region: Region, pages: Pages)
    requires { Growing index.now.g image.old index.now.bytes.now region.0 pages.0 }
    ensures { image.new ≡ fronted index.now.g (grown_front index.now.g region.0 pages.0 (front index.now.g image.old)) image.old }
{
    let g = index.g;
    let before = Image { g, bytes: image };
    let old = before.pages(region);
    let new = Pages(old.0 + pages.0);
    let more = g.need(new) - g.need(old);
    tables::grant_blocks(image, index, region, more as usize);
    image::set_pages(g, image, region, new);
}

// The first byte of the new pages. It may lie inside a block that the book holds already, whose other pages show another book's old bytes.
fn first_new(g: Geometry, old: Pages) -> Offset
    requires { old.0 * g.page < 2 ^ 64 }
    ensures { result.0 ≡ old.0 * g.page }
{
    Offset(old.0 * g.page as u64)
}

// Zeros in exactly the new pages, before any table tells of them: in a block that the book holds already, and in those that it will be granted.
fn zero_new(image: &mut [u8], index: &Index<'_>, region: Region, old: Pages, pages: Pages)
    requires growing { Growing index.now.g image.old index.now.bytes.now region.0 pages.0 }
    requires value { old.0 ≡ pages_of index.now.g (front index.now.g image.old) region.0 }
    ensures { image.new ≡ zeroed_new index.now.g region.0 pages.0 (front index.now.g image.old) image.old }
{
    let g = index.g;
    let s = tables::take_stock(&Image { g, bytes: image }, region);
    let n = pages.0 * g.page as u64;
    let walk = Walk {
        g,
        at: g.spot(first_new(g, old)),
        left: n as usize,
    };
    for (at, bytes) in walk {
        let b = tables::block_after(index, region, s, at.position);
        stretches::zero_at(g, image, b, at, bytes);
    }
}

// So many pages more: zeros in exactly the new pages, then the tables, then the index. Cut short before the tables, the old book stands; in
// them, recovery refuses; and once the page count is written no page shows another book's bytes.
fn extend(g: Geometry, image: &mut [u8], index: &mut [u8], region: Region, old: Pages, pages: Pages)
    requires growing { Growing g image.old index.old region.0 pages.0 }
    requires value { (old.0 ≡ pages_of g (front g image.old) region.0) × (0 < pages.0) }
    ensures { (image.new ≡ grown g region.0 pages.0 image.old) × (index.new ≡ index_of g (front g (grown g region.0 pages.0 image.old))) }
{
    let before = Index { g, bytes: index };
    zero_new(image, &before, region, old, pages);
    grow_tables(image, &before, region, pages);
    index_anew(&Image { g, bytes: image }, index);
}

// Grow by so many pages: answers the old page count.
pub fn grow(
    g: Geometry,
    image: &mut [u8],
    index: &mut [u8],
    book: Book,
    pages: Pages,
) -> Result<Pages, Refusal>
    ensures { gives (answered counted result) [] (lent image.new index.new) ≡ outcome g (grow book.region.0 book.edition.0 pages.0) (lent image.old index.old) }
{
    recovery::ordered(g, image, index)?;
    let before = Image { g, bytes: image };
    desk::name_book(&before, book)?;
    if !has_room(&before, book.region, pages) {
        return Err(Refusal::NoRoom);
    }
    let old = before.pages(book.region);
    if pages == Pages(0) {
        return Ok(old);
    }
    extend(g, image, index, book.region, old, pages);
    Ok(old)
}
