// The refusals that calls share, each in its order, and the call that asks nothing else: size.
#![tactic(auto)]

ghost use Rattle.std.specs.Prelude.{◌≡◌, [], ◌<◌, eqb, ltb, length, IfOk};
ghost use Rattle.paper.specs.Geometry.{capacity};
ghost use Rattle.paper.specs.Image.{taken, edition_of};
ghost use Rattle.paper.specs.Calls.{size};
ghost use Rattle.paper.specs.Refusals.{usable};
ghost use Rattle.paper.specs.Answers.{no_in, answered, counted};
ghost use Rattle.paper.specs.Outcomes.{lent, gives, outcome};
ghost use Rattle.rules.specs.Lines.{head_no, whole_no, name_no, book_no, lent_no, indexed_head_no, entered_no};
ghost use Rattle.image.specs.Views.{front_of, IsImage};
ghost use Rattle.index.specs.Views.{IsLent};

use image::{Headed, Image};
use index::{Index, Lent};
use paper::{Block, Book, Geometry, Pages, Refusal, Region};

// ---- shared refusals. What passes them is given back as a value that says so

// 1, 3, 4.
#[tactic(auto, using(paper::proofs::Arithmetic::allowed_facts, rules::proofs::Lines::head_1, rules::proofs::Lines::head_3, rules::proofs::Lines::head_4, rules::proofs::Lines::head_0))]
pub fn head<'a>(g: Geometry, image: &'a [u8]) -> Result<Headed<'a>, Refusal>
    ensures number { no_in result ≡ head_no g image.now }
    ensures image { IfOk result (λ h. IsImage g image.now h.image) }
{
    if !g.allowed() {
        return Err(Refusal::GeometryWrong);
    }
    if image.len() < g.block_bytes() {
        return Err(Refusal::ImageShort);
    }
    let image = Image { g, bytes: image };
    if !image.header_right() {
        return Err(Refusal::HeaderWrong);
    }
    Ok(Headed { image })
}

// 1, 2, 3.
#[tactic(auto, using(paper::proofs::Arithmetic::allowed_facts, rules::proofs::Lines::lent_1, rules::proofs::Lines::lent_2, rules::proofs::Lines::lent_3, rules::proofs::Lines::lent_0))]
pub fn lent(g: Geometry, image: &[u8], index: &[u8]) -> Result<(), Refusal>
    ensures { no_in result ≡ lent_no g image.now index.now }
{
    if !g.allowed() {
        return Err(Refusal::GeometryWrong);
    }
    if index.len() != g.index_bytes() {
        return Err(Refusal::IndexLength);
    }
    if image.len() < g.block_bytes() {
        return Err(Refusal::ImageShort);
    }
    Ok(())
}

// 1, 2, 3, 4.
#[tactic(auto, using(paper::proofs::Arithmetic::allowed_facts, rules::proofs::Lines::indexed_head_1, rules::proofs::Lines::indexed_head_2))]
pub fn indexed_head<'a>(g: Geometry, image: &'a [u8], index: &[u8]) -> Result<Headed<'a>, Refusal>
    ensures number { no_in result ≡ indexed_head_no g image.now index.now }
    ensures image { IfOk result (λ h. IsImage g image.now h.image) }
{
    if !g.allowed() {
        return Err(Refusal::GeometryWrong);
    }
    if index.len() != g.index_bytes() {
        return Err(Refusal::IndexLength);
    }
    head(g, image)
}

// The image has room for fewer blocks than were taken: it ends before the next one, block N, would begin. N is at most B, so this says as
// much as K does, and divides nothing.
pub fn tail_missing(headed: &Headed<'_>) -> bool
    ensures { result ≡ ltb (capacity headed.now.image.g (length headed.now.image.bytes.now)) (taken headed.now.image.g (front_of headed.now.image)) }
{
    let image = &headed.image;
    image.bytes.len() < image.g.data_at(Block(image.taken()))
}

// 1, 3, 4, 5.
#[tactic(auto, using(rules::proofs::Lines::whole_5, rules::proofs::Lines::whole_0))]
fn whole<'a>(g: Geometry, image: &'a [u8]) -> Result<Image<'a>, Refusal>
    ensures number { no_in result ≡ whole_no g image.now }
    ensures image { IfOk result (λ i. IsImage g image.now i) }
{
    let headed = head(g, image)?;
    if tail_missing(&headed) {
        return Err(Refusal::TailMissing);
    }
    Ok(headed.image)
}

// 1, 2, 3, 4, 5.
#[tactic(auto, using(rules::proofs::Lines::indexed_head_shown, rules::proofs::Lines::entered_5, rules::proofs::Lines::entered_0))]
pub fn entered<'a, 'b>(
    g: Geometry,
    image: &'a [u8],
    index: &'b [u8],
) -> Result<Lent<'a, 'b>, Refusal>
    ensures number { no_in result ≡ entered_no g image.now index.now }
    ensures lent { IfOk result (λ l. IsLent g image.now index.now l) }
{
    let headed = indexed_head(g, image, index)?;
    if tail_missing(&headed) {
        return Err(Refusal::TailMissing);
    }
    Ok(Lent {
        image: headed.image,
        index: Index { g, bytes: index },
    })
}

#[tactic(auto, unfolding(paper::specs::Refusals::usable))]
pub fn usable(image: &Image<'_>, region: Region) -> bool
    ensures { result ≡ usable image.now.g (front_of image.now) region.0 }
{
    let callable = region == paper::ANONYMOUS || paper::FIXED_REGIONS <= region.0;
    callable && region < image.g.no_region() && image.is_open(region)
}

// The region's book is the one of that edition. (A region inside the table is asked, as in image.)
pub fn is_edition(image: &Image<'_>, book: Book) -> bool
    requires region_lt_entries { book.region.0 < image.now.g.entries }
    ensures { result ≡ eqb (edition_of image.now.g (front_of image.now) book.region.0) book.edition.0 }
{
    image.edition(book.region) == book.edition
}

// 8, 18.
#[tactic(auto, using(rules::proofs::Lines::name_8, rules::proofs::Lines::name_18, rules::proofs::Lines::name_0))]
pub fn name_book(image: &Image<'_>, book: Book) -> Result<(), Refusal>
    ensures { no_in result ≡ name_no image.now.g image.now.bytes.now book.region.0 book.edition.0 }
{
    if !usable(image, book.region) {
        return Err(Refusal::Unusable);
    }
    if !is_edition(image, book) {
        return Err(Refusal::Stale);
    }
    Ok(())
}

// 8, 18, and 6 for this book alone.
#[tactic(auto, using(rules::proofs::Lines::name_shown, rules::proofs::Lines::book_6, rules::proofs::Lines::book_0))]
pub fn check_book(image: &Image<'_>, book: Book) -> Result<(), Refusal>
    ensures { no_in result ≡ book_no image.now.g image.now.bytes.now book.region.0 book.edition.0 }
{
    name_book(image, book)?;
    if image.g.most_book_pages() < image.pages(book.region) {
        return Err(Refusal::TablesWrong);
    }
    Ok(())
}

// ---- Size: answers the page count; takes no index

#[tactic(auto, using(rules::proofs::Lines::whole_shown, rules::proofs::Lines::size_on, rules::proofs::Lines::size_done))]
pub fn size(g: Geometry, image: &[u8], book: Book) -> Result<Pages, Refusal>
    ensures { gives (answered counted result) [] (lent image.now []) ≡ outcome g (size book.region.0 book.edition.0) (lent image.now []) }
{
    let image = whole(g, image)?;
    check_book(&image, book)?;
    Ok(image.pages(book.region))
}
