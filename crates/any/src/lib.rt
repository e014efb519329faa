// The calls over any four numbers for a geometry, for tests and measurements alone: those of host, each exported under its own name with its
// own promise. No call asks that the four be allowed, and each answers one number, as C has it.
#![tactic(auto)]

ghost use Rattle.std.specs.Prelude.{◌≡◌, []};
ghost use Rattle.paper.specs.declared.Version.TheVariants.{Two, Three};
ghost use Rattle.paper.specs.Calls.{lay, «open», grow, load, store, size, release, recover};
ghost use Rattle.paper.specs.Move.{move_outcome};
ghost use Rattle.paper.specs.Outcomes.{lent, outcome};
ghost use Rattle.host.specs.Host.{sees, host_sees};
ghost use Rattle.any.specs.Any.{given};

use host::book_of;
use paper::{Geometry, Offset, Pages, Version};

// Page bytes, pages in a block, blocks, region entries.
fn given(page: u64, pages: u64, blocks: u64, entries: u64) -> Geometry
    ensures { result ≡ given page pages blocks entries }
{
    Geometry {
        page: page as usize,
        pages: pages as usize,
        blocks: blocks as usize,
        entries: entries as usize,
    }
}

#[unsafe(no_mangle)]
pub extern "C" fn any_lay(
    page: u64,
    pages: u64,
    blocks: u64,
    entries: u64,
    image: &mut [u8],
    index: &mut [u8],
) -> u64
    ensures { sees result [] (lent image.new index.new) ≡ host_sees (outcome (given page pages blocks entries) (lay Three) (lent image.old index.old)) }
{
    host::lay(
        given(page, pages, blocks, entries),
        Version::Three,
        image,
        index,
    )
}

#[unsafe(no_mangle)]
pub extern "C" fn any_lay_version_2(
    page: u64,
    pages: u64,
    blocks: u64,
    entries: u64,
    image: &mut [u8],
    index: &mut [u8],
) -> u64
    ensures { sees result [] (lent image.new index.new) ≡ host_sees (outcome (given page pages blocks entries) (lay Two) (lent image.old index.old)) }
{
    host::lay(
        given(page, pages, blocks, entries),
        Version::Two,
        image,
        index,
    )
}

#[unsafe(no_mangle)]
pub extern "C" fn any_move(
    page: u64,
    pages: u64,
    blocks: u64,
    entries: u64,
    image: &mut [u8],
    index: &mut [u8],
    old: u64,
) -> u64
    ensures { sees result [] (lent image.new index.new) ≡ host_sees (move_outcome (given page pages blocks entries) old (lent image.old index.old)) }
{
    host::move_over(
        given(page, pages, blocks, entries),
        image,
        index,
        Pages(old),
    )
}

#[unsafe(no_mangle)]
pub extern "C" fn any_open(
    page: u64,
    pages: u64,
    blocks: u64,
    entries: u64,
    image: &mut [u8],
    index: &mut [u8],
) -> u64
    ensures { sees result [] (lent image.new index.new) ≡ host_sees (outcome (given page pages blocks entries) «open» (lent image.old index.old)) }
{
    host::open(given(page, pages, blocks, entries), image, index)
}

#[unsafe(no_mangle)]
pub extern "C" fn any_grow(
    page: u64,
    pages: u64,
    blocks: u64,
    entries: u64,
    image: &mut [u8],
    index: &mut [u8],
    region: u32,
    edition: u32,
    more: u64,
) -> u64
    ensures { sees result [] (lent image.new index.new) ≡ host_sees (outcome (given page pages blocks entries) (grow region edition more) (lent image.old index.old)) }
{
    host::grow(
        given(page, pages, blocks, entries),
        image,
        index,
        book_of(region, edition),
        Pages(more),
    )
}

#[unsafe(no_mangle)]
pub extern "C" fn any_load(
    page: u64,
    pages: u64,
    blocks: u64,
    entries: u64,
    image: &[u8],
    index: &[u8],
    region: u32,
    edition: u32,
    offset: u64,
    buffer: &mut [u8],
) -> u64
    ensures { sees result buffer.new (lent image.now index.now) ≡ host_sees (outcome (given page pages blocks entries) (load region edition offset buffer.old) (lent image.now index.now)) }
{
    host::load(
        given(page, pages, blocks, entries),
        image,
        index,
        book_of(region, edition),
        Offset(offset),
        buffer,
    )
}

#[unsafe(no_mangle)]
pub extern "C" fn any_store(
    page: u64,
    pages: u64,
    blocks: u64,
    entries: u64,
    image: &mut [u8],
    index: &[u8],
    region: u32,
    edition: u32,
    offset: u64,
    bytes: &[u8],
) -> u64
    ensures { sees result [] (lent image.new index.now) ≡ host_sees (outcome (given page pages blocks entries) (store region edition offset bytes.now) (lent image.old index.now)) }
{
    host::store(
        given(page, pages, blocks, entries),
        image,
        index,
        book_of(region, edition),
        Offset(offset),
        bytes,
    )
}

#[unsafe(no_mangle)]
pub extern "C" fn any_size(
    page: u64,
    pages: u64,
    blocks: u64,
    entries: u64,
    image: &[u8],
    region: u32,
    edition: u32,
) -> u64
    ensures { sees result [] (lent image.now []) ≡ host_sees (outcome (given page pages blocks entries) (size region edition) (lent image.now [])) }
{
    host::size(
        given(page, pages, blocks, entries),
        image,
        book_of(region, edition),
    )
}

#[unsafe(no_mangle)]
pub extern "C" fn any_release(
    page: u64,
    pages: u64,
    blocks: u64,
    entries: u64,
    image: &mut [u8],
    index: &mut [u8],
    region: u32,
    edition: u32,
) -> u64
    ensures { sees result [] (lent image.new index.new) ≡ host_sees (outcome (given page pages blocks entries) (release region edition) (lent image.old index.old)) }
{
    host::release(
        given(page, pages, blocks, entries),
        image,
        index,
        book_of(region, edition),
    )
}

#[unsafe(no_mangle)]
pub extern "C" fn any_recover(
    page: u64,
    pages: u64,
    blocks: u64,
    entries: u64,
    image: &[u8],
    index: &mut [u8],
) -> u64
    ensures { sees result [] (lent image.now index.new) ≡ host_sees (outcome (given page pages blocks entries) recover (lent image.now index.old)) }
{
    host::recover(given(page, pages, blocks, entries), image, index)
}
