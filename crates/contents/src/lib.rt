// The calls on a book's contents: load, store and look.
#![tactic(auto)]

ghost use Rattle.std.specs.Prelude.{[], ◌≡◌, ◌+◌, ◌*◌, ◌<◌, ◌≤◌, ltb, IfOk};
ghost use Rattle.paper.specs.Geometry.{most_book_pages};
ghost use Rattle.paper.specs.Image.{pages_of};
ghost use Rattle.paper.specs.Calls.{load, store, look};
ghost use Rattle.paper.specs.Answers.{no_in, answered, plain};
ghost use Rattle.paper.specs.Outcomes.{lent, gives, outcome};
ghost use Rattle.rules.specs.Lines.{read_no};
ghost use Rattle.image.specs.Views.{front_of};
ghost use Rattle.stretches.specs.Stretch.{IsSpot};

use image::Image;
use index::{Index, Lent};
use paper::{Book, Geometry, Offset, Refusal, Region, Spot};

// Bounds are asked, and numbers held against counts, as in image.
fn book_bytes(image: &Image<'_>, region: Region) -> u64
    requires region_lt_entries { (region.0 < image.now.g.entries) × (pages_of image.now.g (front_of image.now) region.0 ≤ most_book_pages image.now.g) }
    ensures { result ≡ pages_of image.now.g (front_of image.now) region.0 * image.now.g.page }
{
    image.pages(region).0 * image.g.page as u64
}

// Offset plus length beyond the book's bytes. The sum could wrap, so it is not formed.
fn beyond(image: &Image<'_>, region: Region, offset: Offset, n: usize) -> bool
    requires region_lt_entries { (region.0 < image.now.g.entries) × (pages_of image.now.g (front_of image.now) region.0 ≤ most_book_pages image.now.g) }
    ensures { result ≡ ltb (pages_of image.now.g (front_of image.now) region.0 * image.now.g.page) (offset.0 + n) }
{
    let bytes = book_bytes(image, region);
    if bytes < offset.0 {
        return true;
    }
    bytes - offset.0 < n as u64
}

// 1 to 5, 8, 18, 6, 9, 7 for n bytes at the offset. An offset in the book is turned here, once; whoever reads or writes goes on from its spot.
fn read_from(
    g: Geometry,
    image: &[u8],
    index: &[u8],
    book: Book,
    offset: Offset,
    n: usize,
) -> Result<Spot, Refusal>
    ensures number { no_in result ≡ read_no g image.now index.now book.region.0 book.edition.0 offset.0 n }
    ensures spot { IfOk result (λ s. IsSpot g offset.0 s) }
{
    let lent = desk::entered(g, image, index)?;
    desk::check_book(&lent.image, book)?;
    if beyond(&lent.image, book.region, offset, n) {
        return Err(Refusal::Beyond);
    }
    let spot = g.spot(offset);
    if !stretches::touched_right(&lent, book.region, spot, n) {
        return Err(Refusal::IndexWrong);
    }
    Ok(spot)
}

// Fills the lent buffer; its length is the number of bytes asked.
pub fn load(
    g: Geometry,
    image: &[u8],
    index: &[u8],
    book: Book,
    offset: Offset,
    buffer: &mut [u8],
) -> Result<(), Refusal>
    ensures { gives (answered plain result) buffer.new (lent image.now index.now) ≡ outcome g (load book.region.0 book.edition.0 offset.0 buffer.old) (lent image.now index.now) }
{
    let spot = read_from(g, image, index, book, offset, buffer.len())?;
    let lent = Lent {
        image: Image { g, bytes: image },
        index: Index { g, bytes: index },
    };
    stretches::copy_out(&lent, book.region, spot, buffer);
    Ok(())
}

// Writes the lent bytes; every block that they touch is checked before the first is written.
pub fn store(
    g: Geometry,
    image: &mut [u8],
    index: &[u8],
    book: Book,
    offset: Offset,
    bytes: &[u8],
) -> Result<(), Refusal>
    ensures { gives (answered plain result) [] (lent image.new index.now) ≡ outcome g (store book.region.0 book.edition.0 offset.0 bytes.now) (lent image.old index.now) }
{
    let spot = read_from(g, image, index, book, offset, bytes.len())?;
    let index = Index { g, bytes: index };
    stretches::copy_in(image, &index, book.region, spot, bytes);
    Ok(())
}

// The caller's own image bytes from the offset to the end of the block or book, whichever comes first; none where a load of one byte there is
// refused, for the paper's look has no refusal to answer.
pub fn look<'a, 'b>(
    g: Geometry,
    image: &'a [u8],
    index: &'b [u8],
    book: Book,
    offset: Offset,
) -> &'a [u8]
    ensures { result.now ≡ (outcome g (look book.region.0 book.edition.0 offset.0) (lent image.now index.now)).bytes }
{
    let Ok(spot) = read_from(g, image, index, book, offset, 1) else {
        return &image[0..0];
    };
    let now = Image { g, bytes: image };
    let left = (book_bytes(&now, book.region) - offset.0) as usize;
    let index = Index { g, bytes: index };
    let s = stretches::first_stretch(&index, book.region, spot, left);
    &image[s.at..s.at + s.bytes]
}
