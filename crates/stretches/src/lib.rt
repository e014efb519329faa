// The stretches of a book that n bytes from an offset on touch: found in the index, checked, and copied. The offset comes as a spot, turned
// once; a walk then goes on from block to block, divides nothing, and ends when no byte is left.
#![tactic(auto)]

ghost use Rattle.std.specs.Prelude.{◌≡◌, ◌+◌, ◌^◌, ◌≤◌, ◌<◌, length, replicate, MatchOption};
ghost use Rattle.std.specs.Iterator.{at_most};
ghost use Rattle.laws.specs.Bytes.{splice};
ghost use Rattle.paper.specs.Geometry.{Allowed, block_bytes, data_at};
ghost use Rattle.paper.specs.Image.{front, need_of};
ghost use Rattle.paper.specs.Index.{start_in, block_in};
ghost use Rattle.paper.specs.Calls.{loaded, stored};
ghost use Rattle.paper.specs.Refusals.{right_at, touched_right};
ghost use Rattle.rules.specs.Facts.{Entered, Reads};
ghost use Rattle.image.specs.Views.{front_of};
ghost use Rattle.stretches.specs.Stretch.{block_from, offset_of, in_block, IsStretch, IsStep};

use index::{Index, Lent};
use paper::{Block, Geometry, Position, Region, Spot};

// So many bytes from `at` on in the image, which is lent apart: a place and a length, and no part of it.
#[derive(Clone, Copy)]
pub struct Stretch {
    pub at: usize,
    pub bytes: usize,
}

// ---- a walk from block to block. A spot lies inside its block by the geometry at hand, which it does not hold, so each function asks for that

// Of so many bytes left, those that fall into the spot's block.
fn in_block(g: Geometry, spot: Spot, left: usize) -> usize
    requires { Allowed g × (spot.within < block_bytes g) }
    ensures { result ≡ in_block g spot left }
{
    left.min(g.block_bytes() - spot.within)
}

// Where the next block starts. A book has fewer than 2^40 bytes, so that nothing here wraps.
pub fn next_block(spot: Spot) -> Spot
    requires { spot.position.0 < 2 ^ 40 }
    ensures { (result.position.0 ≡ spot.position.0 + 1) × (result.within ≡ 0) }
{
    let position = Position(spot.position.0 + 1);
    Spot {
        position,
        within: 0,
    }
}

// A walk over so many bytes from a spot on, part by part: each part lies in one block. Where the next one starts, and how many bytes are left.
#[derive(Drop)]
pub struct Walk {
    pub g: Geometry,
    pub at: Spot,
    pub left: usize,
    pub ghost bounded: { Allowed g × (at.within < block_bytes g) × (at.position.0 + left < 2 ^ 40) },
}

// Of each part the spot where it starts, and how many bytes it has.
impl Iterator for Walk {
    type Item = (Spot, usize);

    ghost next_gives = { λ w r v. MatchOption r (w.left ≡ 0) (λ x. IsStep w.g w.at w.left x.0 x.1 v.at v.left × (v.g ≡ w.g)) };

    ghost remaining = { λ w. at_most w.left };

    fn next(&mut self) -> Option<(Spot, usize)> {
        if self.left == 0 {
            return None;
        }
        let spot = self.at;
        let bytes = in_block(self.g, spot, self.left);
        *self = Walk {
            g: self.g,
            at: next_block(spot),
            left: self.left - bytes,
        };
        Some((spot, bytes))
    }
}

// Where the spot's byte stands in the image.
fn byte_at(index: &Index<'_>, start: u16, spot: Spot) -> usize
    requires { (start + spot.position.0 < index.now.g.blocks) × (spot.within < block_bytes index.now.g) }
    ensures { result ≡ data_at index.now.g (block_from index.now.g index.now.bytes.now start spot.position.0) + spot.within }
{
    let b = index.slot(start as usize + spot.position.0);
    index.g.data_at(b) + spot.within
}

// The first stretch of a load of n bytes.
pub fn first_stretch(index: &Index<'_>, r: Region, spot: Spot, n: usize) -> Stretch
    requires { (r.0 < index.now.g.entries) × (start_in index.now.g index.now.bytes.now r.0 + spot.position.0 < index.now.g.blocks) × (spot.within < block_bytes index.now.g) }
    ensures { IsStretch index.now.g (block_in index.now.g index.now.bytes.now r.0 spot.position.0) spot n result }
{
    let at = byte_at(index, index.start(r), spot);
    let bytes = in_block(index.g, spot, n);
    Stretch { at, bytes }
}

// ---- the check

// Position p of region r, whose block numbers start at `start`.
#[tactic(auto, unfolding(paper::specs::Refusals::right_at))]
fn right_at(lent: &Lent<'_, '_>, r: Region, start: u16, p: Position) -> bool
    requires entered { Entered lent.now.image.g lent.now.image.bytes.now lent.now.index.bytes.now }
    requires start_value { (start ≡ start_in lent.now.image.g lent.now.index.bytes.now r.0) × (p.0 < 2 ^ 40) }
    ensures { result ≡ right_at lent.now.image.g (front_of lent.now.image) lent.now.index.bytes.now r.0 p.0 }
{
    let image = &lent.image;
    let s = start as usize + p.0;
    if image.g.blocks <= s {
        return false;
    }
    let b = lent.index.slot(s);
    b.0 < image.taken() && image.owner(b) == r && image.place(b) == p
}

// Each position that n bytes from the spot on touch has its block in the index.
pub fn touched_right(lent: &Lent<'_, '_>, r: Region, spot: Spot, n: usize) -> bool
    requires entered { Entered lent.now.image.g lent.now.image.bytes.now lent.now.index.bytes.now × (r.0 < lent.now.image.g.entries) }
    requires within_bound { (spot.within < block_bytes lent.now.image.g) × (offset_of lent.now.image.g spot + n < 2 ^ 40) }
    ensures { result ≡ touched_right lent.now.image.g (front_of lent.now.image) lent.now.index.bytes.now r.0 (offset_of lent.now.image.g spot) n }
{
    let start = lent.index.start(r);
    let mut walk = Walk {
        g: lent.image.g,
        at: spot,
        left: n,
    };
    walk.all(|(at, _)| right_at(lent, r, start, at.position))
}

// ---- stretch by stretch. What is written is lent by itself (image says why). What is done is counted beside the walk: the rest of a lent slice, taken apart at each turn, reads no plainer

// The book's bytes from the spot on, as many as the buffer holds.
pub fn copy_out(lent: &Lent<'_, '_>, r: Region, spot: Spot, buffer: &mut [u8])
    requires { Reads lent.now.image.g lent.now.image.bytes.now lent.now.index.bytes.now r.0 (offset_of lent.now.image.g spot) (length buffer.old) × (spot.within < block_bytes lent.now.image.g) }
    ensures { buffer.new ≡ loaded lent.now.image.g (block_in lent.now.image.g lent.now.index.bytes.now r.0) (offset_of lent.now.image.g spot) (length buffer.old) lent.now.image.bytes.now }
{
    let image = lent.image.bytes;
    let start = lent.index.start(r);
    let walk = Walk {
        g: lent.index.g,
        at: spot,
        left: buffer.len(),
    };
    let mut done = 0;
    for (at, bytes) in walk {
        let from = byte_at(&lent.index, start, at);
        numbers::copy(&image[from..from + bytes], &mut buffer[done..done + bytes]);
        done += bytes;
    }
}

// The bytes into the book from the spot on.
pub fn copy_in(image: &mut [u8], index: &Index<'_>, r: Region, spot: Spot, bytes: &[u8])
    requires { Reads index.now.g image.old index.now.bytes.now r.0 (offset_of index.now.g spot) (length bytes.now) × (spot.within < block_bytes index.now.g) }
    ensures { image.new ≡ stored index.now.g (block_in index.now.g index.now.bytes.now r.0) (need_of index.now.g (front index.now.g image.old) r.0) (offset_of index.now.g spot) bytes.now image.old }
{
    let start = index.start(r);
    let walk = Walk {
        g: index.g,
        at: spot,
        left: bytes.len(),
    };
    let mut done = 0;
    for (at, n) in walk {
        let to = byte_at(index, start, at);
        numbers::copy_part(bytes, done, image, to, n);
        done += n;
    }
}

// Zeros into the book: n bytes from the spot on.
pub fn zero_in(image: &mut [u8], index: &Index<'_>, r: Region, spot: Spot, n: usize)
    requires { Reads index.now.g image.old index.now.bytes.now r.0 (offset_of index.now.g spot) n × (spot.within < block_bytes index.now.g) }
    ensures { image.new ≡ stored index.now.g (block_in index.now.g index.now.bytes.now r.0) (need_of index.now.g (front index.now.g image.old) r.0) (offset_of index.now.g spot) (replicate n 0) image.old }
{
    let start = index.start(r);
    let walk = Walk {
        g: index.g,
        at: spot,
        left: n,
    };
    for (at, bytes) in walk {
        let from = byte_at(index, start, at);
        numbers::zero_part(image, from, from + bytes);
    }
}

// Zeros into block b, whether a table tells of it or not: of so many bytes left those that fall into it from the spot on. Answers how many.
pub fn zero_at(g: Geometry, image: &mut [u8], b: Block, spot: Spot, left: usize) -> usize
    requires { Allowed g × (spot.within < block_bytes g) × (data_at g b.0 + block_bytes g ≤ length image.old) }
    ensures { (result ≡ in_block g spot left) × (image.new ≡ splice (data_at g b.0 + spot.within) (replicate (in_block g spot left) 0) image.old) }
{
    let from = g.data_at(b) + spot.within;
    let n = in_block(g, spot, left);
    numbers::zero_part(image, from, from + n);
    n
}
