// The stored image: header and tables read and written, and the rules a to e checked. Nothing above this crate knows an offset of them.
#![tactic(auto)]

ghost use Rattle.std.specs.Prelude.{◌≡◌, ◌%◌, ◌^◌, ◌<◌, ◌≤◌, not, ◌&&◌, ◌||◌, eqb};
ghost use Rattle.laws.specs.Folds.{all_below, all_from};
ghost use Rattle.paper.specs.Geometry.{version2, version3, size_bytes, all_ones, last_edition, fixed_regions, reclaimed, no_region};
ghost use Rattle.paper.specs.Image.{size_width, front, version_of, stamped, taken, counter, owner, place, names, size_of, pages_of, edition_of, is_open, need_of, set_taken, set_counter, set_entry, set_pages, set_not_open};
ghost use Rattle.paper.specs.WellFormed.{current, rule_a, fits, rule_b, rule_c, named, rule_e};
ghost use Rattle.paper.specs.Refusals.{header_right, unused_blank};
ghost use Rattle.rules.specs.Facts.{Readable, Header, fronted};
ghost use Rattle.rules.specs.Given.{High, given};
ghost use Rattle.image.specs.Entries.{sized, fixed, fresh, released_entry};

use numbers::Number;
use paper::{Block, Edition, Geometry, Pages, Position, Region, Version};

// An image of an allowed geometry that holds the reserve: refusals 1 and 3 do not apply.
#[derive(Clone, Copy)]
pub struct Image<'a> {
    pub g: Geometry,
    pub bytes: &'a [u8],
    pub ghost readable: { Readable g bytes.now },
}

// One whose header is right: refusal 4 does not apply either.
#[derive(Clone, Copy)]
pub struct Headed<'a> {
    pub image: Image<'a>,
    pub ghost header: { Header image.g (front image.g image.bytes.now) },
}

// ---- what stands in the header and the tables. Regions and blocks are numbers as they are read or given, and need not be below E and B: a type
// for those that are would hold the geometry with each of them, and so each function asks for the bound that it needs, or holds the number against
// the count

impl Image<'_> {
    ghost use Rattle.image.specs.Views.{front_of};

    pub fn taken(&self) -> u16
        ensures { result ≡ taken self.now.g (front_of self.now) }
    {
        u16::read(self.bytes, paper::TAKEN_AT)
    }

    pub fn counter(&self) -> Region
        ensures { result.0 ≡ counter self.now.g (front_of self.now) }
    {
        Region(u16::read(self.bytes, paper::COUNTER_AT) as u32)
    }

    pub fn owner(&self, b: Block) -> Region
        requires b_lt_blocks { b.0 < self.now.g.blocks }
        ensures { result.0 ≡ owner self.now.g (front_of self.now) b.0 }
    {
        Region(u16::read(self.bytes, self.g.entry_at(b)) as u32)
    }

    // The position as the entry has it: two bytes, so that the pages before it can be counted in eight, and a slot from a start on.
    pub fn stored_place(&self, b: Block) -> u16
        requires b_lt_blocks { b.0 < self.now.g.blocks }
        ensures { result ≡ place self.now.g (front_of self.now) b.0 }
    {
        u16::read(self.bytes, self.g.entry_at(b) + 2)
    }

    pub fn place(&self, b: Block) -> Position
        requires b_lt_blocks { b.0 < self.now.g.blocks }
        ensures { result.0 ≡ place self.now.g (front_of self.now) b.0 }
    {
        Position(self.stored_place(b) as usize)
    }

    // Version 3 keeps the low half of a region's entry for the pages, and the high half for the edition.
    pub fn is_version_3(&self) -> bool
        ensures { result ≡ eqb (version_of self.now.g (front_of self.now)) version3 }
    {
        u32::read(self.bytes, paper::VERSION_AT) == u32::from(Version::Three)
    }

    // What an entry says of its book, by the version: the pages, or none for "not open". Whoever goes through many regions has asked the version
    // before: it is asked of each no more, and the loop is compiled for either.
    fn size_by(&self, version_3: bool, r: Region) -> Option<Pages>
        requires r_lt_entries { r.0 < self.now.g.entries }
        requires version { version_3 ≡ eqb (version_of self.now.g (front_of self.now)) version3 }
        ensures { size_of self.now.g (front_of self.now) r.0 ≡ sized result }
    {
        let at = self.g.size_at(r);
        if version_3 {
            let n = u32::read(self.bytes, at);
            return if n == paper::LOW_ONES {
                None
            } else {
                Some(Pages(n as u64))
            };
        }
        let n = u64::read(self.bytes, at);
        if n == paper::ALL_ONES {
            None
        } else {
            Some(Pages(n))
        }
    }

    fn size(&self, r: Region) -> Option<Pages>
        requires r_lt_entries { r.0 < self.now.g.entries }
        ensures { size_of self.now.g (front_of self.now) r.0 ≡ sized result }
    {
        self.size_by(self.is_version_3(), r)
    }

    pub fn is_open(&self, r: Region) -> bool
        ensures { result ≡ is_open self.now.g (front_of self.now) r.0 }
    {
        if self.g.entries <= r.0 as usize {
            return false;
        }
        self.size(r).is_some()
    }

    // The pages of the book, 0 where the region is not open.
    fn pages_by(&self, version_3: bool, r: Region) -> Pages
        requires r_lt_entries { r.0 < self.now.g.entries }
        requires version { version_3 ≡ eqb (version_of self.now.g (front_of self.now)) version3 }
        ensures { result.0 ≡ pages_of self.now.g (front_of self.now) r.0 }
    {
        self.size_by(version_3, r).unwrap_or(Pages(0))
    }

    pub fn pages(&self, r: Region) -> Pages
        requires r_lt_entries { r.0 < self.now.g.entries }
        ensures { result.0 ≡ pages_of self.now.g (front_of self.now) r.0 }
    {
        self.pages_by(self.is_version_3(), r)
    }

    // The edition of the region's book, or of its next one where the region is not open. Version 2 has edition 0 only.
    pub fn edition(&self, r: Region) -> Edition
        requires r_lt_entries { r.0 < self.now.g.entries }
        ensures { result.0 ≡ edition_of self.now.g (front_of self.now) r.0 }
    {
        if !self.is_version_3() {
            return Edition(0);
        }
        Edition(u32::read(self.bytes, self.g.size_at(r) + 4))
    }

    // The blocks that the book needs, 0 where the region is not open. Many open books have no pages, here and there among the others: whether they
    // have is not asked, since a branch that the processor cannot foretell costs more than the division.
    pub fn need(&self, r: Region) -> u64
        ensures { result ≡ need_of self.now.g (front_of self.now) r.0 }
    {
        if self.g.entries <= r.0 as usize {
            return 0;
        }
        match self.size(r) {
            Some(n) => self.g.need(n),
            None => 0,
        }
    }

    // Whether the book needs so many blocks: they hold its pages, and one less would not. Nothing is divided.
    pub fn is_need_by(&self, version_3: bool, r: Region, blocks: u64) -> bool
        requires r_lt_entries { (r.0 < self.now.g.entries) × (blocks < 2 ^ 16) }
        requires version { version_3 ≡ eqb (version_of self.now.g (front_of self.now)) version3 }
        ensures { result ≡ eqb (need_of self.now.g (front_of self.now) r.0) blocks }
    {
        let room = blocks * self.g.pages as u64;
        let n = self.pages_by(version_3, r);
        if room < n.0 {
            return false;
        }
        room - n.0 < self.g.pages as u64
    }

    pub fn is_need(&self, r: Region, blocks: u64) -> bool
        requires r_lt_entries { (r.0 < self.now.g.entries) × (blocks < 2 ^ 16) }
        ensures { result ≡ eqb (need_of self.now.g (front_of self.now) r.0) blocks }
    {
        self.is_need_by(self.is_version_3(), r, blocks)
    }
}

// ---- one number written anew. Regions and positions have two bytes in the header and in a block's entry. What is written is lent by itself:
// a type that held it would have each of its functions say that it still holds the same bytes and the same geometry, beside what it wrote

pub fn set_taken(g: Geometry, image: &mut [u8], n: u16)
    requires { Readable g image.old }
    ensures { image.new ≡ fronted g (set_taken g n (front g image.old)) image.old }
{
    n.write(image, paper::TAKEN_AT);
}

pub fn set_counter(g: Geometry, image: &mut [u8], r: Region)
    requires readable { Readable g image.old }
    requires r_bound { r.0 < 2 ^ 16 }
    ensures { image.new ≡ fronted g (set_counter g r.0 (front g image.old)) image.old }
{
    (r.0 as u16).write(image, paper::COUNTER_AT);
}

pub fn set_entry(g: Geometry, image: &mut [u8], b: Block, r: Region, p: Position)
    requires readable { Readable g image.old }
    requires b_lt_blocks { (b.0 < g.blocks) × (r.0 < 2 ^ 16) × (p.0 < 2 ^ 16) }
    ensures { image.new ≡ fronted g (set_entry g b.0 r.0 p.0 (front g image.old)) image.old }
{
    let at = g.entry_at(b);
    (r.0 as u16).write(image, at);
    (p.0 as u16).write(image, at + 2);
}

// The edition stays. All ones would say "not open".
pub fn set_pages(g: Geometry, image: &mut [u8], r: Region, n: Pages)
    requires readable { Readable g image.old }
    requires r_lt_entries { (r.0 < g.entries) × (n.0 < 4294967295) }
    ensures { image.new ≡ fronted g (set_pages g r.0 n.0 (front g image.old)) image.old }
{
    let now = Image { g, bytes: image };
    if now.is_version_3() {
        (n.0 as u32).write(image, g.size_at(r));
    } else {
        n.0.write(image, g.size_at(r));
    }
}

// Both halves by one write: between them the book would be closed and its edition still the old one.
pub fn set_not_open(g: Geometry, image: &mut [u8], r: Region)
    requires readable { Readable g image.old }
    requires r_lt_entries { (r.0 < g.entries) × (edition_of g (front g image.old) r.0 < last_edition) }
    ensures { image.new ≡ fronted g (set_not_open g r.0 (front g image.old)) image.old }
{
    let now = Image { g, bytes: image };
    let entry = now.released_entry(r);
    entry.write(image, g.size_at(r));
}

// Whether the number names a version is all that is asked of it here.
fn is_version(v: u32) -> bool
    ensures { result ≡ (eqb v version2 || eqb v version3) }
{
    v == u32::from(Version::Two) || v == u32::from(Version::Three)
}

impl Image<'_> {
    ghost use Rattle.image.specs.Views.{front_of};

    // The whole entry of a region whose book is released: not open, and in version 3 the next edition.
    fn released_entry(&self, r: Region) -> u64
        requires r_lt_entries { (r.0 < self.now.g.entries) × (edition_of self.now.g (front_of self.now) r.0 < last_edition) }
        ensures { result ≡ released_entry self.now.g (front_of self.now) r.0 }
    {
        if !self.is_version_3() {
            return paper::ALL_ONES;
        }
        let next = self.edition(r).0 as u64 + 1;
        next * 4294967296 + paper::LOW_ONES as u64
    }

    // ---- the header checked

    // Marker, version and the last four bytes are right.
    fn stamped(&self) -> bool
        ensures { result ≡ stamped self.now.g (front_of self.now) }
    {
        u32::read(self.bytes, paper::MARKER_AT) == 0
            && is_version(u32::read(self.bytes, paper::VERSION_AT))
            && u32::read(self.bytes, paper::BLANK_AT) == 0
    }

    pub fn header_right(&self) -> bool
        ensures { result ≡ header_right self.now.g (front_of self.now) }
    {
        if !self.stamped() {
            return false;
        }
        if self.g.blocks < self.taken() as usize {
            return false;
        }
        let c = self.counter();
        if c.0 < paper::FIXED_REGIONS {
            return false;
        }
        c <= self.g.no_region()
    }

    // The bytes between the tables and the end of the reserve are zero.
    pub fn unused_blank(&self) -> bool
        ensures { result ≡ unused_blank self.now.g self.now.bytes.now }
    {
        numbers::all_zero(&self.bytes[self.g.front_bytes()..self.g.block_bytes()])
    }

    // ---- the rules a to e checked

    // A region that no book of a caller's has: open, and of edition 0.
    fn is_fixed(&self, r: Region) -> bool
        requires r_lt_entries { r.0 < self.now.g.entries }
        ensures { result ≡ fixed self.now.g (front_of self.now) r.0 }
    {
        self.is_open(r) && self.edition(r) == Edition(0)
    }

    fn low_fixed(&self) -> bool
        ensures { result ≡ all_below fixed_regions (fixed self.now.g (front_of self.now)) }
    {
        (0..paper::FIXED_REGIONS).all(|r| self.is_fixed(Region(r)))
    }

    // The whole entry of a region that was never given out: not open, and of edition 0.
    fn fresh_entry(&self) -> u64
        ensures { result ≡ all_ones (size_width (version_of self.now.g (front_of self.now))) }
    {
        if self.is_version_3() {
            return paper::LOW_ONES as u64;
        }
        paper::ALL_ONES
    }

    // A region that was never given out, by one look at its whole entry.
    fn is_fresh(&self, r: Region, entry: u64) -> bool
        requires r_lt_entries { r.0 < self.now.g.entries }
        requires entry_fresh { entry ≡ all_ones (size_width (version_of self.now.g (front_of self.now))) }
        ensures { result ≡ fresh self.now.g (front_of self.now) r.0 }
    {
        u64::read(self.bytes, self.g.size_at(r)) == entry
    }

    // Both sentences about the regions from C on. It is compiled by itself: among the other passes of a call its count would lie on the stack, and
    // each look would wait for it. For the same reason the image is taken out of its loan first.
    #[inline(never)]
    fn high_fresh(&self) -> bool
        ensures { result ≡ all_from (counter self.now.g (front_of self.now)) self.now.g.entries (fresh self.now.g (front_of self.now)) }
    {
        let image = *self;
        let entry = image.fresh_entry();
        let c = image.counter().0 as usize;
        (c..image.g.entries).all(|r| image.is_fresh(Region(r as u32), entry))
    }

    fn is_current(&self, r: Region) -> bool
        requires r_lt_entries { r.0 < self.now.g.entries }
        ensures { result ≡ current self.now.g (front_of self.now) r.0 }
    {
        self.edition(r) < paper::LAST_EDITION || !self.is_open(r)
    }

    // Version 2 has no edition to ask for, nor has a region that is not open. (That none is open from C on is what the check before has just shown,
    // here and in the index; a type for it would live for that one line.)
    fn all_current(&self) -> bool
        requires high { High self.now.g (front_of self.now) }
        ensures { result ≡ all_below self.now.g.entries (current self.now.g (front_of self.now)) }
    {
        if !self.is_version_3() {
            return true;
        }
        (0..self.given_out().0).all(|r| self.is_current(Region(r)))
    }

    pub fn rule_a(&self) -> bool
        ensures { result ≡ rule_a self.now.g (front_of self.now) }
    {
        if !self.low_fixed() {
            return false;
        }
        if !self.high_fresh() {
            return false;
        }
        self.all_current()
    }

    // Region 1's pages fill its blocks.
    pub fn reclaimed_whole(&self) -> bool
        ensures { result ≡ eqb (pages_of self.now.g (front_of self.now) reclaimed % self.now.g.pages) 0 }
    {
        self.pages(paper::RECLAIMED).0 % self.g.pages as u64 == 0
    }

    // The regions below C, or all of them where C is past the table.
    pub fn given_out(&self) -> Region
        ensures { result.0 ≡ given self.now.g (front_of self.now) }
    {
        let c = (self.counter().0 as usize).min(self.g.entries);
        Region(c as u32)
    }

    // Rule c and the first sentence of b, where no region from C on is open. What is left of N is counted down: the sum of the needs could wrap.
    fn books_in_order(&self) -> bool
        requires high { High self.now.g (front_of self.now) }
        ensures { result ≡ (all_below self.now.g.entries (fits self.now.g (front_of self.now)) && rule_c self.now.g (front_of self.now)) }
    {
        let most = self.g.most_book_pages();
        let mut left = self.taken() as u64;
        for r in 0..self.given_out().0 {
            if most < self.pages(Region(r)) {
                return false;
            }
            let n = self.need(Region(r));
            if left < n {
                return false;
            }
            left -= n;
        }
        left == 0
    }

    // Rules a, b and c: the regions below C are walked once for both b and c, and those from C on once for a.
    pub fn regions_in_order(&self) -> bool
        ensures { result ≡ (rule_a self.now.g (front_of self.now) && rule_b self.now.g (front_of self.now) && rule_c self.now.g (front_of self.now)) }
    {
        if !self.rule_a() {
            return false;
        }
        if !self.reclaimed_whole() {
            return false;
        }
        self.books_in_order()
    }

    // A position lies below the need where the blocks before it do not hold all the pages: nothing is divided. A region that is not open
    // has no pages.
    fn named(&self, b: Block) -> bool
        requires b_lt_blocks { b.0 < self.now.g.blocks }
        ensures { result ≡ named self.now.g (front_of self.now) b.0 }
    {
        let r = self.owner(b);
        if self.g.entries <= r.0 as usize {
            return false;
        }
        let before = self.stored_place(b) as u64 * self.g.pages as u64;
        before < self.pages(r).0
    }

    // Rule d but for its last sentence. Of the header it asks that N is at most B and no more, as index does: whoever knows that much may ask.
    pub fn all_named(&self) -> bool
        requires image_bound { taken self.now.g (front_of self.now) ≤ self.now.g.blocks }
        ensures { result ≡ all_below (taken self.now.g (front_of self.now)) (named self.now.g (front_of self.now)) }
    {
        (0..self.taken()).all(|b| self.named(Block(b)))
    }

    fn names_none(&self, b: Block) -> bool
        requires b_lt_blocks { b.0 < self.now.g.blocks }
        ensures { result ≡ names self.now.g (front_of self.now) (no_region self.now.g) 0 b.0 }
    {
        self.owner(b) == self.g.no_region() && self.place(b) == Position(0)
    }

    pub fn rule_e(&self) -> bool
        ensures { result ≡ rule_e self.now.g (front_of self.now) }
    {
        let n = self.taken() as usize;
        (n..self.g.blocks).all(|b| self.names_none(Block(b as u16)))
    }
}
