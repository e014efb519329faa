// Each call as a host in C or Rust sees it: one number, the refusal above and the value below. Whoever exports the calls chooses how a
// geometry is named.
#![tactic(auto)]

ghost use Rattle.std.specs.Prelude.{◌≡◌, ℕ, []};
ghost use Rattle.paper.specs.Calls.{lay, «open», grow, load, store, size, release, recover};
ghost use Rattle.paper.specs.Move.{move_outcome};
ghost use Rattle.paper.specs.Answers.{Answer, Refused, no_of, plain, counted, opened_as};
ghost use Rattle.paper.specs.Outcomes.{lent, outcome};
ghost use Rattle.host.specs.Host.{geometry_of, says, packed, sees, host_sees};

use paper::{Book, Edition, Geometry, Offset, Pages, Refusal, Region, Version};

// 2^56. A value lies below it, and a refusal is counted in it.
const VALUE_END: u64 = 1 << 56;

// 2^16. A region lies below it, and in open's value its edition is counted in it.
const REGION_END: u64 = 1 << 16;

// What a call that has nothing to tell answers when it is done.
const DONE: u64 = 0;

// A number that names no geometry gives one that no call allows, as the paper of hosts has it: each call then refuses with 1 by itself.
#[tactic(auto, unfolding(crate::specs::Host::geometry_of))]
pub fn geometry_of(n: u32) -> Geometry
    ensures { result ≡ geometry_of n }
{
    match n {
        0 => Geometry::BENCH,
        1 => Geometry::HOUSE,
        _ => Geometry {
            page: 0,
            pages: 0,
            blocks: 0,
            entries: 0,
        },
    }
}

pub fn book_of(region: u32, edition: u32) -> Book
    ensures { (result.region.0 ≡ region) × (result.edition.0 ≡ edition) }
{
    Book {
        region: Region(region),
        edition: Edition(edition),
    }
}

// ---- an answer as one number

// What an accepted call gives back: the paper's answer, and the number that a host gets for it.
pub trait Value: Copy {
    ghost told: { Self → Answer };

    fn number(self) -> u64
        ensures { result ≡ packed (told self) };
}

impl Value for () {
    ghost told = { plain };

    fn number(self) -> u64 {
        DONE
    }
}

impl Value for Pages {
    ghost told = { counted };

    fn number(self) -> u64 {
        self.0
    }
}

impl Value for Book {
    ghost told = { opened_as };

    fn number(self) -> u64 {
        self.region.0 as u64 + self.edition.0 as u64 * REGION_END
    }
}

// A refusal by its number, whatever it is. Its value is 0, and a value's refusal is 0, so nothing is added.
pub fn refused(number: u8) -> u64
    ensures { result ≡ packed (Refused number) }
{
    number as u64 * VALUE_END
}

// What a call refuses with: a refusal of the table, or a number by itself, whatever it is.
pub trait Refuses: Copy {
    ghost number: { Self → ℕ };

    fn refusal(self) -> u8
        ensures { result ≡ number self };
}

impl Refuses for Refusal {
    ghost number = { no_of };

    fn refusal(self) -> u8 {
        u8::from(self)
    }
}

impl Refuses for u8 {
    ghost number = { λ n. n };

    fn refusal(self) -> u8 {
        self
    }
}

pub fn pack<T: Value, E: Refuses>(answer: Result<T, E>) -> u64
    ensures { result ≡ packed (says T.told E.number answer) }
{
    match answer {
        Ok(value) => value.number(),
        Err(refused_with) => refused(refused_with.refusal()),
    }
}

// ---- the calls

pub fn lay(g: Geometry, version: Version, image: &mut [u8], index: &mut [u8]) -> u64
    ensures { sees result [] (lent image.new index.new) ≡ host_sees (outcome g (lay version) (lent image.old index.old)) }
{
    pack(laying::lay(g, version, image, index))
}

pub fn move_over(g: Geometry, image: &mut [u8], index: &mut [u8], pages: Pages) -> u64
    ensures { sees result [] (lent image.new index.new) ≡ host_sees (move_outcome g pages.0 (lent image.old index.old)) }
{
    pack(moving::move_over(g, image, index, pages))
}

pub fn open(g: Geometry, image: &mut [u8], index: &mut [u8]) -> u64
    ensures { sees result [] (lent image.new index.new) ≡ host_sees (outcome g «open» (lent image.old index.old)) }
{
    pack(books::open(g, image, index))
}

pub fn grow(g: Geometry, image: &mut [u8], index: &mut [u8], book: Book, pages: Pages) -> u64
    ensures { sees result [] (lent image.new index.new) ≡ host_sees (outcome g (grow book.region.0 book.edition.0 pages.0) (lent image.old index.old)) }
{
    pack(books::grow(g, image, index, book, pages))
}

pub fn load(
    g: Geometry,
    image: &[u8],
    index: &[u8],
    book: Book,
    offset: Offset,
    buffer: &mut [u8],
) -> u64
    ensures { sees result buffer.new (lent image.now index.now) ≡ host_sees (outcome g (load book.region.0 book.edition.0 offset.0 buffer.old) (lent image.now index.now)) }
{
    pack(contents::load(g, image, index, book, offset, buffer))
}

pub fn store(
    g: Geometry,
    image: &mut [u8],
    index: &[u8],
    book: Book,
    offset: Offset,
    bytes: &[u8],
) -> u64
    ensures { sees result [] (lent image.new index.now) ≡ host_sees (outcome g (store book.region.0 book.edition.0 offset.0 bytes.now) (lent image.old index.now)) }
{
    pack(contents::store(g, image, index, book, offset, bytes))
}

pub fn size(g: Geometry, image: &[u8], book: Book) -> u64
    ensures { sees result [] (lent image.now []) ≡ host_sees (outcome g (size book.region.0 book.edition.0) (lent image.now [])) }
{
    pack(desk::size(g, image, book))
}

pub fn release(g: Geometry, image: &mut [u8], index: &mut [u8], book: Book) -> u64
    ensures { sees result [] (lent image.new index.new) ≡ host_sees (outcome g (release book.region.0 book.edition.0) (lent image.old index.old)) }
{
    pack(books::release(g, image, index, book))
}

pub fn recover(g: Geometry, image: &[u8], index: &mut [u8]) -> u64
    ensures { sees result [] (lent image.now index.new) ≡ host_sees (outcome g recover (lent image.now index.old)) }
{
    pack(recovery::recover(g, image, index))
}
