// The index: what a lent one says, its writing, and its check against the tables.
#![tactic(auto)]

ghost use Rattle.std.specs.Prelude.{◌≡◌, ◌+◌, ◌*◌, ◌/◌, ◌≤◌, ◌<◌, eqb, length};
ghost use Rattle.laws.specs.Bytes.{put};
ghost use Rattle.laws.specs.Folds.{all_below, all_from};
ghost use Rattle.paper.specs.Geometry.{version3, slot_at};
ghost use Rattle.paper.specs.Image.{version_of, taken};
ghost use Rattle.paper.specs.Index.{index_of, start_of, start_in, slot_in};
ghost use Rattle.paper.specs.WellFormed.{alone};
ghost use Rattle.rules.specs.Facts.{Rules, Indexed, slot_for};
ghost use Rattle.rules.specs.Given.{High};
ghost use Rattle.image.specs.Views.{front_of};
ghost use Rattle.index.specs.Slotted.{Tabled};
ghost use Rattle.index.specs.Witnessed.{Starts, Spare, Witness, Summed, start_right, starts_right, step_right, block_right, spare_right, witnessed};
ghost use Rattle.index.specs.Repeats.{regions_at_once, digit, unseen, marked, apart, slot_by, in_window, StartsFrom, Framed, All, Run};

use image::Image;
use numbers::Number;
use paper::{Block, Geometry, Region};

// An index of an allowed geometry, of its length: refusals 1 and 2 do not apply.
#[derive(Clone, Copy)]
pub struct Index<'a> {
    pub g: Geometry,
    pub bytes: &'a [u8],
    pub ghost indexed: { Indexed g bytes.now },
}

// An image and the index that is lent with it: refusals 1 to 3 do not apply.
#[derive(Clone, Copy)]
pub struct Lent<'a, 'b> {
    pub image: Image<'a>,
    pub index: Index<'b>,
    pub ghost same: { index.g ≡ image.g },
}

// Tables in which each block below N has a slot, and two may have the same one: rule c holds, and d but for its last sentence.
#[derive(Clone, Copy)]
pub struct Tables<'a> {
    pub image: Image<'a>,
    pub ghost tabled: { Tabled image.g image.bytes.now },
}

// ---- what an index says. Regions, blocks and slots are asked for within their bounds, as in image

impl Index<'_> {
    pub fn start(&self, r: Region) -> u16
        requires r_le_entries { r.0 ≤ self.now.g.entries }
        ensures { result ≡ start_in self.now.g self.now.bytes.now r.0 }
    {
        u16::read(self.bytes, self.g.start_at(r))
    }

    // NO_BLOCK in an unused slot, as the format has it: slots are compared with numbers, and an Option would be taken apart for each.
    pub fn slot(&self, s: usize) -> Block
        requires s_lt_blocks { s < self.now.g.blocks }
        ensures { result.0 ≡ slot_in self.now.g self.now.bytes.now s }
    {
        Block(u16::read(self.bytes, self.g.slot_at(s)))
    }
}

// ---- its writing. What is written is lent by itself (image says why)

impl Tables<'_> {
    // From C on no region has blocks, so that each starts where they end.
    fn write_starts(&self, index: &mut [u8])
        requires indexed { Indexed self.now.image.g index.old }
        requires high { High self.now.image.g (front_of self.now.image) }
        ensures { Starts self.now.image.g (front_of self.now.image) index.new }
    {
        let g = self.image.g;
        let end = self.image.given_out();
        let mut start: u64 = 0;
        for r in 0..end.0 {
            (start as u16).write(index, g.start_at(Region(r)));
            start += self.image.need(Region(r));
        }
        numbers::fill_u16(
            index,
            g.start_at(end),
            g.entries + 1 - end.0 as usize,
            start as u16,
        );
    }

    // Block b into its slot, where the index has its starts.
    fn put_block(&self, index: &mut [u8], b: Block)
        requires indexed { Indexed self.now.image.g index.old }
        requires starts { Starts self.now.image.g (front_of self.now.image) index.old }
        requires b_bound { b.0 < taken self.now.image.g (front_of self.now.image) }
        ensures { index.new ≡ put 2 (slot_at self.now.image.g (slot_for self.now.image.g (front_of self.now.image) b.0)) b.0 index.old }
    {
        let g = self.image.g;
        let before = Index { g, bytes: index };
        let start = before.start(self.image.owner(b)) as usize;
        let place = self.image.place(b).0;
        b.0.write(index, g.slot_at(start + place));
    }

    fn put_blocks(&self, index: &mut [u8])
        requires indexed { Indexed self.now.image.g index.old }
        requires rules { Rules self.now.image.g (front_of self.now.image) }
        requires starts { Starts self.now.image.g (front_of self.now.image) index.old }
        requires spare { Spare self.now.image.g (front_of self.now.image) index.old }
        ensures { Witness self.now.image.g (front_of self.now.image) index.new }
    {
        for b in 0..self.image.taken() {
            self.put_block(index, Block(b));
        }
    }
}

// The whole index, whatever it held: the starts; no block in any slot; then each block in its own.
pub fn write_index(image: &Image<'_>, index: &mut [u8])
    requires indexed { Indexed image.now.g index.old }
    requires image_bound { taken image.now.g (front_of image.now) ≤ image.now.g.blocks }
    requires rules { Rules image.now.g (front_of image.now) }
    ensures { index.new ≡ index_of image.now.g (front_of image.now) }
{
    let g = image.g;
    let tables = Tables { image: *image };
    tables.write_starts(index);
    numbers::fill_u16(index, g.slot_at(0), g.blocks, paper::NO_BLOCK.0);
    tables.put_blocks(index);
}

// ---- its check against the tables

impl Index<'_> {
    // The starts from that of region `end` on are all n.
    fn ends_right(&self, end: Region, n: u16) -> bool
        requires end_le_entries { end.0 ≤ self.now.g.entries }
        ensures { result ≡ all_from end.0 (self.now.g.entries + 1) (λ r. eqb (start_in self.now.g self.now.bytes.now r) n) }
    {
        (end.0 as usize..self.g.entries + 1).all(|r| self.start(Region(r as u32)) == n)
    }
}

impl Lent<'_, '_> {
    // Start r + 1 is as far from start r as region r needs.
    fn step_right(&self, version_3: bool, r: Region) -> bool
        requires r_lt_entries { r.0 < self.now.image.g.entries }
        requires version { version_3 ≡ eqb (version_of self.now.image.g (front_of self.now.image)) version3 }
        ensures { result ≡ step_right self.now.image.g (front_of self.now.image) self.now.index.bytes.now r.0 }
    {
        let start = self.index.start(r) as u64;
        let next = self.index.start(Region(r.0 + 1)) as u64;
        start <= next && self.image.is_need_by(version_3, r, next - start)
    }

    // The starts up to that of region `end`.
    fn steps_right(&self, end: Region) -> bool
        requires end_le_entries { end.0 ≤ self.now.image.g.entries }
        ensures { result ≡ all_below (end.0 + 1) (start_right self.now.image.g (front_of self.now.image) self.now.index.bytes.now) }
    {
        let version_3 = self.image.is_version_3();
        self.index.start(Region(0)) == 0
            && (0..end.0).all(|r| self.step_right(version_3, Region(r)))
    }

    // Every start is right, and the last is N. From C on no region has blocks, so that each starts where they end.
    fn starts_right(&self) -> bool
        requires high { High self.now.image.g (front_of self.now.image) }
        ensures { result ≡ starts_right self.now.image.g (front_of self.now.image) self.now.index.bytes.now }
    {
        let end = self.image.given_out();
        self.steps_right(end) && self.index.ends_right(end, self.image.taken())
    }

    // The starts tell what a region needs.
    fn block_right(&self, b: Block) -> bool
        requires summed { Summed self.now.image.g (front_of self.now.image) self.now.index.bytes.now }
        requires b_bound { b.0 < taken self.now.image.g (front_of self.now.image) }
        ensures { result ≡ block_right self.now.image.g (front_of self.now.image) self.now.index.bytes.now b.0 }
    {
        let r = self.image.owner(b);
        if self.image.g.entries <= r.0 as usize {
            return false;
        }
        let s = self.index.start(r) as usize + self.image.stored_place(b) as usize;
        s < self.index.start(Region(r.0 + 1)) as usize && self.index.slot(s) == b
    }

    fn blocks_right(&self) -> bool
        requires summed { Summed self.now.image.g (front_of self.now.image) self.now.index.bytes.now }
        ensures { result ≡ all_below (taken self.now.image.g (front_of self.now.image)) (block_right self.now.image.g (front_of self.now.image) self.now.index.bytes.now) }
    {
        (0..self.image.taken()).all(|b| self.block_right(Block(b)))
    }

    fn spare_right(&self) -> bool
        requires image_bound { taken self.now.image.g (front_of self.now.image) ≤ self.now.image.g.blocks }
        ensures { result ≡ all_from (taken self.now.image.g (front_of self.now.image)) self.now.image.g.blocks (spare_right self.now.image.g (front_of self.now.image) self.now.index.bytes.now) }
    {
        let n = self.image.taken() as usize;
        (n..self.image.g.blocks).all(|s| self.index.slot(s) == paper::NO_BLOCK)
    }

    // Whether the index says of each region what it needs, and of each block below N where it stands, so that no two name the same pair.
    pub fn witnessed(&self) -> bool
        requires high { High self.now.image.g (front_of self.now.image) × (taken self.now.image.g (front_of self.now.image) ≤ self.now.image.g.blocks) }
        ensures { result ≡ witnessed self.now.image.g (front_of self.now.image) self.now.index.bytes.now }
    {
        self.starts_right() && self.blocks_right() && self.spare_right()
    }
}

// ---- whether two blocks name the same pair, from the tables alone

// The regions whose starts are at hand in one pass, and the slots that have a bit in it: 16 KiB together, since a small controller runs
// this too.
const REGIONS_AT_ONCE: usize = 6144;

const SLOTS_AT_ONCE: usize = 32768;

const MARK_BYTES: usize = SLOTS_AT_ONCE / 8;

// Regions from `first` up to `last`, and of their slots those from `from` up to `to`: two ranges, of whose ends contracts speak by name.
#[derive(Clone, Copy)]
struct Window {
    first: Region,
    last: Region,
    from: usize,
    to: usize,
}

// What a pass works with: the starts of the window's regions, and a bit for each of its slots.
#[derive(Drop)]
struct Work {
    starts: [u16; REGIONS_AT_ONCE],
    seen: [u8; MARK_BYTES],
}

// 1 where two numbers are of one run of so many, and 0 elsewhere: a digit, since a branch that the processor cannot foretell costs
// more than a look for nothing.
fn same_run(size: usize, a: usize, b: usize) -> u8
    requires { 0 < size }
    ensures { result ≡ digit (eqb (a / size) (b / size)) }
{
    u8::from(a / size == b / size)
}

// Sets bit s where `one` is 1; false where it was set already.
fn mark(seen: &mut [u8], s: usize, one: u8) -> bool
    requires { (s < 8 * length seen.old) × (one ≤ 1) }
    ensures value { result ≡ unseen s one seen.old }
    ensures seen_after { seen.new ≡ marked s one seen.old }
{
    let bit = one << (s % 8);
    let before = seen[s / 8];
    seen[s / 8] = before | bit;
    before & bit == 0
}

impl Tables<'_> {
    // The starts of the regions from `first` up to `last`, of which `start` is the first; answers the start after them. Each is written by its
    // number: of what an `iter_mut` under `zip` has lent a proof knows nothing afterwards.
    fn read_starts(&self, first: Region, last: Region, start: usize, starts: &mut [u16]) -> usize
        requires first_le_last { (first.0 ≤ last.0) × (last.0 ≤ self.now.image.g.entries) × (last.0 ≤ first.0 + length starts.old) }
        requires start_value { start ≡ start_of self.now.image.g (front_of self.now.image) first.0 }
        ensures { (result ≡ start_of self.now.image.g (front_of self.now.image) last.0) × StartsFrom self.now.image.g (front_of self.now.image) first.0 last.0 starts.new }
    {
        let mut sum = start;
        for r in first.0..last.0 {
            let nth = (r - first.0) as usize;
            starts[nth] = sum as u16;
            sum += self.image.need(Region(r)) as usize;
        }
        sum
    }

    // Block b's slot, where its region's start is among those at hand; some number elsewhere.
    fn slot_by(&self, starts: &[u16], b: Block) -> usize
        requires b_bound { b.0 < taken self.now.image.g (front_of self.now.image) }
        requires starts_len { length starts.now ≡ regions_at_once }
        ensures { result ≡ slot_by self.now.image.g (front_of self.now.image) starts.now b.0 }
    {
        let nth = self.image.owner(b).0 as usize % REGIONS_AT_ONCE;
        starts[nth] as usize + self.image.place(b).0
    }

    // 1 for a block of the window's, whose slot is s then; 0 for any other.
    fn in_window(&self, w: Window, s: usize, b: Block) -> u8
        requires { b.0 < self.now.image.g.blocks }
        ensures { result ≡ digit (in_window self.now.image.g (front_of self.now.image) w s b.0) }
    {
        let r = self.image.owner(b).0 as usize;
        same_run(REGIONS_AT_ONCE, r, w.first.0 as usize) & same_run(SLOTS_AT_ONCE, s, w.from)
    }

    // One pass over the blocks for a window that `seen` has bits for. Not by `all`: its law (laws/proofs/Ranges)
    // is of tests that leave all as it was, and each block changes what the next is held against.
    fn window_apart(&self, w: Window, work: &mut Work) -> bool
        requires framed { Framed self.now.image.g (front_of self.now.image) w work.old.starts }
        requires run { Run self.now.image.g (front_of self.now.image) w }
        ensures value { result ≡ apart self.now.image.g (front_of self.now.image) w.from w.to }
        ensures kept { work.new.starts ≡ work.old.starts }
    {
        numbers::zero(&mut work.seen);
        for b in 0..self.image.taken() {
            let s = self.slot_by(&work.starts, Block(b));
            let one = self.in_window(w, s, Block(b));
            if !mark(&mut work.seen, s % SLOTS_AT_ONCE, one) {
                return false;
            }
        }
        true
    }

    // All slots of the window's regions, run by run. It steps by hand: a range over the runs would have one pass too many where no slot is left.
    fn windows_apart(&self, w: Window, work: &mut Work) -> bool
        requires framed { Framed self.now.image.g (front_of self.now.image) w work.old.starts }
        requires all { All self.now.image.g (front_of self.now.image) w }
        ensures { result ≡ apart self.now.image.g (front_of self.now.image) w.from w.to }
    {
        let mut from = w.from;
        while from < w.to {
            let to = w.to.min((from / SLOTS_AT_ONCE + 1) * SLOTS_AT_ONCE);
            let part = Window { from, to, ..w };
            if !self.window_apart(part, work) {
                return false;
            }
            from = to;
        }
        true
    }

    // All regions, by as many as `starts` has room for, until no slot is left. A pass for regions that hold no block is left out.
    // It steps by hand: a range over the regions would read those too that come after the last slot.
    fn all_apart(&self, work: &mut Work) -> bool
        ensures { result ≡ apart self.now.image.g (front_of self.now.image) 0 (taken self.now.image.g (front_of self.now.image)) }
    {
        let n = self.image.taken() as usize;
        let mut r = 0;
        let mut from = 0;
        while from < n {
            let end = r + REGIONS_AT_ONCE.min(self.image.g.entries - r);
            let first = Region(r as u32);
            let last = Region(end as u32);
            let to = self.read_starts(first, last, from, &mut work.starts);
            let w = Window {
                first,
                last,
                from,
                to,
            };
            if !self.windows_apart(w, work) {
                return false;
            }
            r = end;
            from = to;
        }
        true
    }

    // Whether no two blocks name the same pair, in at most E / 6,144 + N / 32,768 + 1 passes over the blocks.
    pub fn alone_all(&self) -> bool
        ensures { result ≡ all_below (taken self.now.image.g (front_of self.now.image)) (alone self.now.image.g (front_of self.now.image)) }
    {
        let mut work = Work {
            starts: [0; REGIONS_AT_ONCE],
            seen: [0; MARK_BYTES],
        };
        self.all_apart(&mut work)
    }
}
