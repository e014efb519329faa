// The bench table through the compiled calls: a line for each case, with eight of the house after them, and case 11 amended for version 3.
// A case's table is walked step by step, and a case holds where each of its steps does.
#![tactic(auto)]

use paper::{Book, Edition, Geometry, Offset, Pages, Refusal, Region, Version};
use std::io;

const G: Geometry = Geometry::BENCH;

// How many bytes a number has.
#[derive(Clone, Copy)]
enum Width {
    One = 1,
    Two = 2,
    Four = 4,
}

// A step is a call, with what it is given and what it answers; or a change by hand; or a check of what stands in image or index.
#[derive(Clone, Copy)]
enum Step {
    Lay(Version, Result<(), Refusal>),
    Move(Pages, Result<(), Refusal>),
    Open(Result<Book, Refusal>),
    Grow(Book, Pages, Result<Pages, Refusal>),
    // So many of the bytes 1, 2, 3 and so on.
    Store(Book, Offset, usize, Result<(), Refusal>),
    // So many bytes, and the number that they make.
    Load(Book, Offset, usize, Result<u64, Refusal>),
    Release(Book, Result<(), Refusal>),
    Size(Book, Result<Pages, Refusal>),
    // From a copy of the image cut to so many bytes.
    Recover(usize, Result<(), Refusal>),
    // The part that is handed back.
    Look(Book, Offset, &'static [u8]),
    // Image and index are all zero.
    Zero,
    // The index is all zero.
    Wipe,
    // One byte of the image.
    Put(Offset, u8),
    // From there on the image has so many numbers of that width, and each is this one.
    Has(Width, Offset, usize, u64),
    // The same of the index, whose numbers have two bytes.
    Index(Offset, usize, u64),
}

// A book by its region, and by its edition where that is not 0. It is a macro, since a constant's value can call no function.
macro_rules! book {
    ($region:expr) => {
        book!($region, 0)
    };
    ($region:expr, $edition:expr) => {
        Book {
            region: Region($region),
            edition: Edition($edition),
        }
    };
}

// A block's entry, as one number, is its position and then its region.
const CASE_1: [Step; 8] = [
    Step::Lay(Version::Two, Ok(())),
    Step::Has(Width::Four, Offset(0), 1, 0),
    Step::Has(Width::Four, Offset(4), 1, 2),
    Step::Has(Width::Two, Offset(8), 1, 0),
    Step::Has(Width::Two, Offset(10), 1, 16),
    Step::Has(Width::Four, Offset(12), 1, 0),
    Step::Has(Width::Four, Offset(16), 16, 0x00000017),
    Step::Lay(Version::Two, Err(Refusal::NotBlank)),
];

const CASE_2: [Step; 2] = [Step::Open(Ok(book!(16))), Step::Open(Ok(book!(17)))];

const CASE_3: [Step; 5] = [
    Step::Grow(book!(16), Pages(8), Ok(Pages(0))),
    Step::Grow(book!(17), Pages(8), Ok(Pages(0))),
    Step::Grow(book!(16), Pages(1), Ok(Pages(8))),
    Step::Has(Width::Two, Offset(8), 1, 3),
    Step::Has(Width::Four, Offset(24), 1, 0x00010010),
];

const CASE_4: [Step; 7] = [
    Step::Index(Offset(0), 17, 0),
    Step::Index(Offset(34), 1, 2),
    Step::Index(Offset(36), 7, 3),
    Step::Index(Offset(50), 1, 0),
    Step::Index(Offset(52), 1, 2),
    Step::Index(Offset(54), 1, 1),
    Step::Index(Offset(56), 13, 65535),
];

const CASE_5: [Step; 8] = [
    Step::Store(book!(16), Offset(510), 4, Ok(())),
    Step::Has(Width::One, Offset(1021), 1, 0),
    Step::Has(Width::Two, Offset(1022), 1, 0x0201),
    Step::Has(Width::One, Offset(1024), 1, 0),
    Step::Has(Width::One, Offset(1535), 1, 0),
    Step::Has(Width::Two, Offset(1536), 1, 0x0403),
    Step::Has(Width::One, Offset(1538), 1, 0),
    Step::Look(book!(16), Offset(510), &[1, 2]),
];

const CASE_6: [Step; 4] = [
    Step::Load(book!(16), Offset(575), 1, Ok(0)),
    Step::Load(book!(16), Offset(576), 0, Ok(0)),
    Step::Load(book!(16), Offset(576), 1, Err(Refusal::Beyond)),
    Step::Load(book!(16), Offset(577), 0, Err(Refusal::Beyond)),
];

const CASE_7: [Step; 4] = [
    Step::Wipe,
    Step::Recover(2047, Err(Refusal::TailMissing)),
    Step::Index(Offset(0), 41, 0),
    Step::Recover(2048, Ok(())),
];

const CASE_8: [Step; 5] = [
    Step::Release(book!(16), Ok(())),
    Step::Has(Width::Four, Offset(16), 1, 0x00000001),
    Step::Has(Width::Four, Offset(24), 1, 0x00010001),
    Step::Has(Width::Four, Offset(88), 1, 16),
    Step::Has(Width::Four, Offset(92), 1, 0),
];

const CASE_9: [Step; 4] = [
    Step::Grow(book!(17), Pages(1), Ok(Pages(8))),
    Step::Has(Width::Four, Offset(24), 1, 0x00010011),
    Step::Has(Width::Two, Offset(8), 1, 3),
    Step::Has(Width::One, Offset(1536), 64, 0),
];

const CASE_10: [Step; 4] = [
    Step::Grow(book!(17), Pages(120), Err(Refusal::NoRoom)),
    Step::Grow(book!(17), Pages(18446744073709551615), Err(Refusal::NoRoom)),
    Step::Grow(book!(17), Pages(0), Ok(Pages(9))),
    Step::Grow(book!(17), Pages(119), Ok(Pages(9))),
];

const CASE_11: [Step; 12] = [
    Step::Zero,
    Step::Lay(Version::Two, Ok(())),
    Step::Open(Ok(book!(16))),
    Step::Open(Ok(book!(17))),
    Step::Open(Ok(book!(18))),
    Step::Open(Ok(book!(19))),
    Step::Open(Ok(book!(20))),
    Step::Open(Ok(book!(21))),
    Step::Open(Ok(book!(22))),
    Step::Open(Err(Refusal::NoRegion)),
    Step::Release(book!(18), Ok(())),
    Step::Open(Ok(book!(18))),
];

const CASE_12: [Step; 9] = [
    // Case 4's image with block 0's entry changed, so that two blocks name one position.
    Step::Zero,
    Step::Lay(Version::Two, Ok(())),
    Step::Open(Ok(book!(16))),
    Step::Open(Ok(book!(17))),
    Step::Grow(book!(16), Pages(8), Ok(Pages(0))),
    Step::Grow(book!(17), Pages(8), Ok(Pages(0))),
    Step::Grow(book!(16), Pages(1), Ok(Pages(8))),
    Step::Put(Offset(16), 0x11),
    Step::Recover(8704, Err(Refusal::TablesWrong)),
];

const CASE_13: [Step; 12] = [
    // A page grown inside a held block shows nothing of the book that had the block before.
    Step::Zero,
    Step::Lay(Version::Two, Ok(())),
    Step::Grow(book!(0), Pages(8), Ok(Pages(0))),
    Step::Open(Ok(book!(16))),
    Step::Grow(book!(16), Pages(8), Ok(Pages(0))),
    Step::Store(book!(16), Offset(60), 16, Ok(())),
    Step::Release(book!(16), Ok(())),
    Step::Grow(book!(0), Pages(1), Ok(Pages(8))),
    Step::Has(Width::Four, Offset(1084), 1, 0),
    Step::Has(Width::Four, Offset(1088), 1, 0x08070605),
    Step::Grow(book!(0), Pages(1), Ok(Pages(9))),
    Step::Has(Width::Four, Offset(1084), 2, 0),
];

const CASE_14: [Step; 3] = [
    // An image of three data blocks, though the geometry has sixteen, has room for three.
    Step::Lay(Version::Two, Ok(())),
    Step::Grow(book!(0), Pages(25), Err(Refusal::NoRoom)),
    Step::Grow(book!(0), Pages(24), Ok(Pages(0))),
];

const CASE_15: [Step; 11] = [
    // A second release goes after the first: blocks 0 and 1, then block 2.
    Step::Zero,
    Step::Lay(Version::Two, Ok(())),
    Step::Open(Ok(book!(16))),
    Step::Open(Ok(book!(17))),
    Step::Grow(book!(16), Pages(16), Ok(Pages(0))),
    Step::Grow(book!(17), Pages(1), Ok(Pages(0))),
    Step::Release(book!(16), Ok(())),
    Step::Release(book!(17), Ok(())),
    Step::Has(Width::Four, Offset(16), 1, 0x00000001),
    Step::Has(Width::Four, Offset(20), 1, 0x00010001),
    Step::Has(Width::Four, Offset(24), 1, 0x00020001),
];

const CASE_16: [Step; 12] = [
    // Blocks taken from region 1 come highest position first, so that a book's blocks need not be in the image's order: 1, 2, 0.
    Step::Zero,
    Step::Lay(Version::Two, Ok(())),
    Step::Open(Ok(book!(16))),
    Step::Open(Ok(book!(17))),
    Step::Grow(book!(16), Pages(8), Ok(Pages(0))),
    Step::Grow(book!(17), Pages(8), Ok(Pages(0))),
    Step::Grow(book!(16), Pages(1), Ok(Pages(8))),
    Step::Release(book!(16), Ok(())),
    Step::Grow(book!(17), Pages(16), Ok(Pages(8))),
    Step::Index(Offset(50), 1, 1),
    Step::Index(Offset(52), 1, 2),
    Step::Index(Offset(54), 1, 0),
];

const CASE_17: [Step; 23] = [
    // An image whose region 2, kept back, has nine pages in blocks 0 and 1: recovery takes it, and its two blocks come first.
    Step::Zero,
    Step::Lay(Version::Two, Ok(())),
    Step::Put(Offset(8), 2),
    Step::Put(Offset(16), 2),
    Step::Put(Offset(20), 2),
    Step::Put(Offset(22), 1),
    Step::Put(Offset(96), 9),
    Step::Put(Offset(512), 0x5a),
    Step::Put(Offset(1087), 0xa5),
    Step::Recover(8704, Ok(())),
    Step::Index(Offset(0), 3, 0),
    Step::Index(Offset(6), 22, 2),
    Step::Index(Offset(50), 1, 0),
    Step::Index(Offset(52), 1, 1),
    Step::Index(Offset(54), 14, 65535),
    // It is nobody's to call.
    Step::Size(book!(2), Err(Refusal::Unusable)),
    Step::Load(book!(2), Offset(0), 1, Err(Refusal::Unusable)),
    Step::Look(book!(2), Offset(0), &[]),
    Step::Store(book!(2), Offset(0), 1, Err(Refusal::Unusable)),
    Step::Grow(book!(2), Pages(1), Err(Refusal::Unusable)),
    Step::Release(book!(2), Err(Refusal::Unusable)),
    // Its first byte and its last are as they were.
    Step::Has(Width::One, Offset(512), 1, 0x5a),
    Step::Has(Width::One, Offset(1087), 1, 0xa5),
];

const CASE_18: [Step; 20] = [
    // Beside case 17's region 2 a book may have the other fourteen blocks, and not one more.
    Step::Open(Ok(book!(16))),
    Step::Grow(book!(16), Pages(113), Err(Refusal::NoRoom)),
    Step::Grow(book!(16), Pages(112), Ok(Pages(0))),
    Step::Size(book!(16), Ok(Pages(112))),
    Step::Grow(book!(16), Pages(1), Err(Refusal::NoRoom)),
    Step::Grow(book!(0), Pages(1), Err(Refusal::NoRoom)),
    Step::Store(book!(16), Offset(0), 16, Ok(())),
    Step::Has(Width::Two, Offset(8), 1, 16),
    Step::Release(book!(16), Ok(())),
    Step::Grow(book!(0), Pages(113), Err(Refusal::NoRoom)),
    Step::Grow(book!(0), Pages(112), Ok(Pages(0))),
    // Region 2 has kept its blocks, its pages and its bytes.
    Step::Has(Width::Four, Offset(16), 1, 0x00000002),
    Step::Has(Width::Four, Offset(20), 1, 0x00010002),
    Step::Has(Width::Four, Offset(96), 1, 9),
    Step::Has(Width::Four, Offset(100), 1, 0),
    Step::Has(Width::One, Offset(512), 1, 0x5a),
    Step::Has(Width::One, Offset(513), 574, 0),
    Step::Has(Width::One, Offset(1087), 1, 0xa5),
    // More than sixteen blocks of pages it may not have.
    Step::Put(Offset(96), 129),
    Step::Recover(8704, Err(Refusal::TablesWrong)),
];

const CASE_19: [Step; 20] = [
    // Lay makes the rest of the reserve zero, bytes 272 to 511, and not the byte after it.
    Step::Zero,
    Step::Put(Offset(272), 7),
    Step::Put(Offset(511), 7),
    Step::Put(Offset(512), 7),
    Step::Lay(Version::Two, Ok(())),
    Step::Has(Width::One, Offset(272), 240, 0),
    Step::Has(Width::One, Offset(512), 1, 7),
    Step::Recover(8704, Ok(())),
    // Recovery refuses the first of them and the last, before 5; other calls do not look at them.
    Step::Put(Offset(272), 1),
    Step::Recover(8704, Err(Refusal::Newer)),
    Step::Put(Offset(272), 0),
    Step::Put(Offset(511), 1),
    Step::Recover(8704, Err(Refusal::Newer)),
    Step::Grow(book!(0), Pages(1), Ok(Pages(0))),
    Step::Recover(512, Err(Refusal::Newer)),
    Step::Size(book!(0), Ok(Pages(1))),
    Step::Has(Width::One, Offset(511), 1, 1),
    Step::Put(Offset(511), 0),
    Step::Recover(512, Err(Refusal::TailMissing)),
    Step::Recover(8704, Ok(())),
];

const CASE_20: [Step; 23] = [
    // An older memory of 17 pages: its first block goes behind its third, and region 0 reads as it did.
    Step::Zero,
    Step::Put(Offset(0), 0x11),
    Step::Put(Offset(272), 0x22),
    Step::Put(Offset(511), 0x33),
    Step::Put(Offset(512), 0x44),
    Step::Put(Offset(1087), 0x55),
    Step::Put(Offset(2048), 0x66),
    Step::Move(Pages(129), Err(Refusal::TooFewBlocks)),
    Step::Move(Pages(17), Ok(())),
    Step::Has(Width::Two, Offset(8), 1, 3),
    Step::Has(Width::Four, Offset(16), 1, 0x00010000),
    Step::Has(Width::Four, Offset(20), 1, 0x00020000),
    Step::Has(Width::Four, Offset(24), 1, 0x00000000),
    Step::Has(Width::One, Offset(272), 240, 0),
    Step::Has(Width::One, Offset(2048), 1, 0x66),
    Step::Size(book!(0), Ok(Pages(17))),
    Step::Load(book!(0), Offset(0), 1, Ok(0x11)),
    Step::Load(book!(0), Offset(272), 1, Ok(0x22)),
    Step::Load(book!(0), Offset(511), 2, Ok(0x4433)),
    Step::Load(book!(0), Offset(1087), 1, Ok(0x55)),
    Step::Recover(8704, Ok(())),
    Step::Grow(book!(0), Pages(1), Ok(Pages(17))),
    Step::Load(book!(0), Offset(511), 2, Ok(0x4433)),
];

const CASE_21: [Step; 18] = [
    // Case 11 in version 3: a released region is given again with its next edition, and whoever names the old one is refused.
    Step::Zero,
    Step::Lay(Version::Three, Ok(())),
    Step::Has(Width::Four, Offset(4), 1, 3),
    Step::Open(Ok(book!(16))),
    Step::Open(Ok(book!(17))),
    Step::Open(Ok(book!(18))),
    Step::Open(Ok(book!(19))),
    Step::Open(Ok(book!(20))),
    Step::Open(Ok(book!(21))),
    Step::Open(Ok(book!(22))),
    Step::Open(Err(Refusal::NoRegion)),
    Step::Release(book!(18), Ok(())),
    Step::Open(Ok(book!(18, 1))),
    Step::Grow(book!(18), Pages(1), Err(Refusal::Stale)),
    Step::Grow(book!(18, 1), Pages(1), Ok(Pages(0))),
    Step::Store(book!(18), Offset(0), 1, Err(Refusal::Stale)),
    Step::Size(book!(18, 1), Ok(Pages(1))),
    Step::Has(Width::Four, Offset(228), 1, 1),
];

// ---- what a step wants

// The number that one, two or four bytes make; 0 for any other part.
fn number(part: &[u8]) -> u64 {
    match part {
        [a] => u64::from(*a),
        [a, b] => u64::from(u16::from_le_bytes([*a, *b])),
        [a, b, c, d] => u64::from(u32::from_le_bytes([*a, *b, *c, *d])),
        _ => 0,
    }
}

// So many numbers of that width from there on are those wanted.
fn has(bytes: &[u8], width: Width, from: Offset, times: usize, value: u64) -> bool {
    let Some(rest) = bytes.get(from.0 as usize..) else {
        return false;
    };
    rest.chunks_exact(width as usize)
        .take(times)
        .filter(|part| number(part) == value)
        .count()
        == times
}

fn put(image: &mut [u8], at: Offset, byte: u8) -> bool {
    let Some(place) = image.get_mut(at.0 as usize) else {
        return false;
    };
    *place = byte;
    true
}

fn recovers(image: &[u8], index: &mut [u8], bytes: usize, answer: Result<(), Refusal>) -> bool {
    let Some(part) = image.get(..bytes) else {
        return false;
    };
    recovery::recover(G, part, index) == answer
}

fn stores(
    image: &mut [u8],
    index: &[u8],
    book: Book,
    offset: Offset,
    length: usize,
    answer: Result<(), Refusal>,
) -> bool {
    let all: [u8; 16] = [1, 2, 3, 4, 5, 6, 7, 8, 9, 10, 11, 12, 13, 14, 15, 16];
    let Some(bytes) = all.get(..length) else {
        return false;
    };
    contents::store(G, image, index, book, offset, bytes) == answer
}

fn loads(
    image: &[u8],
    index: &[u8],
    book: Book,
    offset: Offset,
    length: usize,
    answer: Result<u64, Refusal>,
) -> bool {
    let mut buffer = [7u8; 4];
    let Some(bytes) = buffer.get_mut(..length) else {
        return false;
    };
    contents::load(G, image, index, book, offset, bytes).map(|()| number(bytes)) == answer
}

fn holds(image: &mut [u8], index: &mut [u8], step: Step) -> bool {
    match step {
        Step::Lay(version, answer) => laying::lay(G, version, image, index) == answer,
        Step::Move(pages, answer) => moving::move_over(G, image, index, pages) == answer,
        Step::Open(answer) => books::open(G, image, index) == answer,
        Step::Grow(book, pages, answer) => books::grow(G, image, index, book, pages) == answer,
        Step::Store(book, offset, length, answer) => stores(
            image, index, book, offset, length, answer,
        ),
        Step::Load(book, offset, length, answer) => loads(
            image, index, book, offset, length, answer,
        ),
        Step::Release(book, answer) => books::release(G, image, index, book) == answer,
        Step::Size(book, answer) => desk::size(G, image, book) == answer,
        Step::Recover(bytes, answer) => recovers(image, index, bytes, answer),
        Step::Look(book, offset, bytes) => contents::look(G, image, index, book, offset) == bytes,
        Step::Zero => {
            image.fill(0);
            index.fill(0);
            true
        }
        Step::Wipe => {
            index.fill(0);
            true
        }
        Step::Put(at, byte) => put(image, at, byte),
        Step::Has(width, from, times, value) => has(image, width, from, times, value),
        Step::Index(from, times, value) => has(index, Width::Two, from, times, value),
    }
}

// ---- the walk

// Every step of a case is made, also after one that does not hold.
fn walk(
    rt: &HostRuntime,
    image: &mut [u8],
    index: &mut [u8],
    case: u64,
    steps: &[Step],
) -> io::Result<()> {
    let mut right = true;
    for step in steps {
        right &= holds(image, index, *step);
    }
    if right {
        println!(rt; "case {case} holds")
    } else {
        println!(rt; "case {case} DOES NOT HOLD")
    }
}

// The image has room for three data blocks.
fn walk_14(rt: &HostRuntime) -> io::Result<()> {
    let mut image = [0u8; 2048];
    let mut index = [0u8; 82];
    walk(rt, &mut image, &mut index, 14, &CASE_14)
}

fn main(rt: HostRuntime) -> io::Result<()> {
    let mut image = [0u8; 8704];
    let mut index = [0u8; 82];
    walk(&rt, &mut image, &mut index, 1, &CASE_1)?;
    walk(&rt, &mut image, &mut index, 2, &CASE_2)?;
    walk(&rt, &mut image, &mut index, 3, &CASE_3)?;
    walk(&rt, &mut image, &mut index, 4, &CASE_4)?;
    walk(&rt, &mut image, &mut index, 5, &CASE_5)?;
    walk(&rt, &mut image, &mut index, 6, &CASE_6)?;
    walk(&rt, &mut image, &mut index, 7, &CASE_7)?;
    walk(&rt, &mut image, &mut index, 8, &CASE_8)?;
    walk(&rt, &mut image, &mut index, 9, &CASE_9)?;
    walk(&rt, &mut image, &mut index, 10, &CASE_10)?;
    walk(&rt, &mut image, &mut index, 11, &CASE_11)?;
    walk(&rt, &mut image, &mut index, 12, &CASE_12)?;
    walk(&rt, &mut image, &mut index, 13, &CASE_13)?;
    walk_14(&rt)?;
    walk(&rt, &mut image, &mut index, 15, &CASE_15)?;
    walk(&rt, &mut image, &mut index, 16, &CASE_16)?;
    walk(&rt, &mut image, &mut index, 17, &CASE_17)?;
    walk(&rt, &mut image, &mut index, 18, &CASE_18)?;
    walk(&rt, &mut image, &mut index, 19, &CASE_19)?;
    walk(&rt, &mut image, &mut index, 20, &CASE_20)?;
    walk(&rt, &mut image, &mut index, 21, &CASE_21)
}
