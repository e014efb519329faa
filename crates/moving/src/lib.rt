// The call that moves an older memory over: its bytes, which ran from byte 0, become region 0 of an image.
#![tactic(auto)]

ghost use Rattle.std.specs.Prelude.{◌≡◌, [], ◌≤◌, length};
ghost use Rattle.paper.specs.Geometry.{need, capacity};
ghost use Rattle.paper.specs.Move.{moved_data, move_refusal, move_outcome};
ghost use Rattle.paper.specs.Answers.{no_in, answered, plain};
ghost use Rattle.paper.specs.Outcomes.{lent, gives};
ghost use Rattle.rules.specs.Facts.{Readable};

use image::Image;
use paper::{Block, Geometry, Pages, Refusal, Version};

// 1, 2, 3, 13.
fn movable(g: Geometry, image: &[u8], index: &[u8], pages: Pages) -> Result<(), Refusal>
    ensures { no_in result ≡ move_refusal g pages.0 image.now index.now }
{
    desk::lent(g, image, index)?;
    let room = g.capacity(image.len()) as u64;
    if room < g.need(pages) {
        return Err(Refusal::TooFewBlocks);
    }
    Ok(())
}

// The whole first block, to the end: past the last block of the old memory. (What is written is lent by itself: image says why.)
fn move_block(g: Geometry, image: &mut [u8], pages: Pages)
    requires { Readable g image.old × (need g pages.0 ≤ capacity g (length image.old)) }
    ensures { image.new ≡ moved_data g pages.0 image.old }
{
    let k = g.need(pages);
    if k == 0 {
        return;
    }
    let last = Block((k - 1) as u16);
    numbers::copy_within(image, 0, g.data_at(last), g.block_bytes());
}

// The first block is copied before its place becomes the reserve: cut short in between, the old memory is still whole.
pub fn move_over(
    g: Geometry,
    image: &mut [u8],
    index: &mut [u8],
    pages: Pages,
) -> Result<(), Refusal>
    ensures { gives (answered plain result) [] (lent image.new index.new) ≡ move_outcome g pages.0 (lent image.old index.old) }
{
    movable(g, image, index, pages)?;
    move_block(g, image, pages);
    laying::write_reserve(g, Version::Two, image, pages);
    index::write_index(&Image { g, bytes: image }, index);
    Ok(())
}
