// The tables changed block by block: a block given to a book, a book's blocks given back, a region opened.
#![tactic(auto)]

ghost use Rattle.std.specs.Prelude.{◌≡◌, ℕ, ◌+◌, ◌≤◌, ◌<◌, IfSome};
ghost use Rattle.laws.specs.Folds.{steps};
ghost use Rattle.paper.specs.Image.{front, taken, owner, place, need_of};
ghost use Rattle.paper.specs.Geometry.{reclaimed, no_region};
ghost use Rattle.paper.specs.Calls.{openable, lowest_openable, next_region, opened, released, reclaiming, raised};
ghost use Rattle.image.specs.Views.{front_of};
ghost use Rattle.tables.specs.Grant.{stock_of, next_block, block_after, drawn, placed, Found, FoundAt, Grantable};
ghost use Rattle.tables.specs.Steps.{Releasable, region_or};
ghost use Rattle.rules.specs.Facts.{Readable, fronted};

use image::Image;
use index::Index;
use paper::{Block, Geometry, Pages, Position, Region};

// What a growth starts from: the blocks that the book holds, region 1's blocks, and N. While it is made the tables change and this does not. It goes
// with a turn or a position: what holds of the two has a name (Found, FoundAt, Grantable).
#[derive(Clone, Copy)]
pub struct Stock {
    pub held: usize,
    pub spare: usize,
    pub taken: u16,
}

pub fn take_stock(image: &Image<'_>, region: Region) -> Stock
    ensures { (result.held ≡ need_of image.now.g (front_of image.now) region.0) × (result.spare ≡ need_of image.now.g (front_of image.now) reclaimed) × (result.taken ≡ taken image.now.g (front_of image.now)) }
{
    Stock {
        held: image.need(region) as usize,
        spare: image.need(paper::RECLAIMED) as usize,
        taken: image.taken(),
    }
}

// The block that the grant after j others takes: region 1's as the lent index has them, the highest position first; then from N up, and not
// by the image's length.
fn next_block(index: &Index<'_>, s: Stock, j: usize) -> Block
    requires { Found index.now.g index.now.bytes.now s j }
    ensures { result.0 ≡ next_block index.now.g index.now.bytes.now s j }
{
    if s.spare <= j {
        return Block(s.taken + (j - s.spare) as u16);
    }
    let start = index.start(paper::RECLAIMED) as usize;
    index.slot(start + (s.spare - 1 - j))
}

// The block at position p of the book when it has grown: one that it holds, or one that it will be granted.
pub fn block_after(index: &Index<'_>, region: Region, s: Stock, p: Position) -> Block
    requires { FoundAt index.now.g index.now.bytes.now region.0 s p.0 }
    ensures { result.0 ≡ block_after index.now.g index.now.bytes.now region.0 s p.0 }
{
    if s.held <= p.0 {
        return next_block(index, s, p.0 - s.held);
    }
    let start = index.start(region) as usize;
    index.slot(start + p.0)
}

// ---- what is written from here on is lent by itself (image says why)

// Block b, which the grant after j others takes, leaves region 1 or is counted in N.
fn draw(g: Geometry, image: &mut [u8], s: Stock, j: usize, b: Block)
    requires readable { Readable g image.old }
    requires spare_le_blocks { (s.spare ≤ g.blocks) × (b.0 < g.blocks) }
    ensures { image.new ≡ fronted g (drawn g s j b.0 (front g image.old)) image.old }
{
    if s.spare <= j {
        image::set_taken(g, image, b.0 + 1);
        return;
    }
    let n = (s.spare - 1 - j) * g.pages;
    image::set_pages(g, image, paper::RECLAIMED, Pages(n as u64));
}

// The grant after j others. The book's page count stays: until it is written the needs sum to less than N, and recovery refuses.
fn grant(image: &mut [u8], index: &Index<'_>, region: Region, s: Stock, j: usize)
    requires readable { Readable index.now.g image.old }
    requires grantable { Grantable index.now.g index.now.bytes.now region.0 s j }
    ensures { image.new ≡ fronted index.now.g (placed index.now.g index.now.bytes.now region.0 s j (front index.now.g image.old)) image.old }
{
    let g = index.g;
    let b = next_block(index, s, j);
    draw(g, image, s, j, b);
    let place = Position(s.held + j);
    image::set_entry(g, image, b, region, place);
}

// So many blocks more for the region, whose page count stays.
pub fn grant_blocks(image: &mut [u8], index: &Index<'_>, region: Region, count: usize)
    requires readable { Readable index.now.g image.old }
    requires by_index { (j : ℕ) → j < count → Grantable index.now.g index.now.bytes.now region.0 (stock_of index.now.g (front index.now.g image.old) region.0) j }
    ensures { image.new ≡ fronted index.now.g (steps count (placed index.now.g index.now.bytes.now region.0 (stock_of index.now.g (front index.now.g image.old) region.0)) (front index.now.g image.old)) image.old }
{
    let before = Image {
        g: index.g,
        bytes: image,
    };
    let s = take_stock(&before, region);
    for j in 0..count {
        grant(image, index, region, s, j);
    }
}

// Block b's position in region 1: after the `spare` blocks that are there, in position order and not in block order.
fn spare_place(image: &Image<'_>, spare: u64, b: Block) -> Position
    requires b_lt_blocks { (b.0 < image.now.g.blocks) × (spare + place image.now.g (front_of image.now) b.0 < image.now.g.blocks) }
    ensures { result.0 ≡ spare + place image.now.g (front_of image.now) b.0 }
{
    Position(spare as usize + image.place(b).0)
}

// Block b to region 1, where it is the region's.
fn reclaim(g: Geometry, image: &mut [u8], region: Region, spare: u64, b: Block)
    requires readable { Readable g image.old }
    requires b_lt_blocks { b.0 < g.blocks }
    requires b_bound { owner g (front g image.old) b.0 ≡ region.0 → spare + place g (front g image.old) b.0 < g.blocks }
    ensures { image.new ≡ fronted g (reclaiming g (front g image.old) region.0 spare b.0 (front g image.old)) image.old }
{
    let now = Image { g, bytes: image };
    if now.owner(b) != region {
        return;
    }
    let p = spare_place(&now, spare, b);
    image::set_entry(g, image, b, paper::RECLAIMED, p);
}

// All blocks of the region to region 1.
fn reclaim_blocks(g: Geometry, image: &mut [u8], region: Region, spare: u64)
    requires readable { Readable g image.old }
    requires releasable { Releasable g (front g image.old) region.0 }
    requires spare_value { spare ≡ need_of g (front g image.old) reclaimed }
    ensures { image.new ≡ fronted g (steps (taken g (front g image.old)) (reclaiming g (front g image.old) region.0 spare) (front g image.old)) image.old }
{
    let before = Image { g, bytes: image };
    for b in 0..before.taken() {
        reclaim(g, image, region, spare, Block(b));
    }
}

// The book's blocks to region 1, in position order, and the region not open, with its next edition.
pub fn release_tables(g: Geometry, image: &mut [u8], region: Region)
    requires readable { Readable g image.old }
    requires releasable { Releasable g (front g image.old) region.0 }
    ensures { image.new ≡ fronted g (released g region.0 (front g image.old)) image.old }
{
    let before = Image { g, bytes: image };
    let spare = before.need(paper::RECLAIMED);
    let more = before.need(region);
    let n = (spare + more) * g.pages as u64;
    reclaim_blocks(g, image, region, spare);
    image::set_pages(g, image, paper::RECLAIMED, Pages(n));
    image::set_not_open(g, image, region);
}

// Not open, and never to be opened again once its last edition has come.
fn is_openable(image: &Image<'_>, r: Region) -> bool
    requires r_lt_entries { r.0 < image.now.g.entries }
    ensures { result ≡ openable image.now.g (front_of image.now) r.0 }
{
    !image.is_open(r) && image.edition(r) < paper::LAST_EDITION
}

// The lowest region from 16 to E-2 that can be opened. The paper says E-1 where there is none.
fn lowest_openable(image: &Image<'_>) -> Option<Region>
    ensures number { region_or (no_region image.now.g) result ≡ lowest_openable image.now.g (front_of image.now) }
    ensures below { IfSome result (λ r. r.0 < no_region image.now.g) }
{
    let end = image.g.no_region().0;
    let lowest = (paper::FIXED_REGIONS..end).find(|r| is_openable(image, Region(*r)));
    lowest.map(Region)
}

// The region that an open gives, if any is left. The paper says E-1 where there is none.
pub fn next_region(image: &Image<'_>) -> Option<Region>
    ensures number { region_or (no_region image.now.g) result ≡ next_region image.now.g (front_of image.now) }
    ensures below { IfSome result (λ r. r.0 < no_region image.now.g) }
{
    let c = image.counter();
    if c < image.g.no_region() {
        return Some(c);
    }
    lowest_openable(image)
}

// The counter, while it gives the regions.
fn raise_counter(g: Geometry, image: &mut [u8])
    requires { Readable g image.old }
    ensures { image.new ≡ fronted g (raised g (front g image.old)) image.old }
{
    let before = Image { g, bytes: image };
    let c = before.counter();
    if c < g.no_region() {
        image::set_counter(g, image, Region(c.0 + 1));
    }
}

// The region that an open gives, open and empty.
pub fn open_tables(g: Geometry, image: &mut [u8], region: Region)
    requires readable { Readable g image.old }
    requires region_value { (region.0 ≡ next_region g (front g image.old)) × (region.0 < g.entries) }
    ensures { image.new ≡ fronted g (opened g (front g image.old)) image.old }
{
    raise_counter(g, image);
    image::set_pages(g, image, region, Pages(0));
}
