// What a host in C or Rust links: the calls of host, each exported under its own name with its own promise, over numbers and byte slices only: each
// answers one number, as C has it.
#![tactic(auto)]

ghost use Rattle.std.specs.Prelude.{◌≡◌, []};
ghost use Rattle.paper.specs.declared.Version.TheVariants.{Two, Three};
ghost use Rattle.paper.specs.Calls.{lay, «open», grow, load, store, size, release, recover};
ghost use Rattle.paper.specs.Move.{move_outcome};
ghost use Rattle.paper.specs.Outcomes.{lent, outcome};
ghost use Rattle.host.specs.Host.{geometry_of, sees, host_sees};

use host::{book_of, geometry_of};
use paper::{Offset, Pages, Version};

#[unsafe(no_mangle)]
pub extern "C" fn book_lay(geometry: u32, image: &mut [u8], index: &mut [u8]) -> u64
    ensures { sees result [] (lent image.new index.new) ≡ host_sees (outcome (geometry_of geometry) (lay Three) (lent image.old index.old)) }
{
    host::lay(geometry_of(geometry), Version::Three, image, index)
}

#[unsafe(no_mangle)]
pub extern "C" fn book_lay_version_2(geometry: u32, image: &mut [u8], index: &mut [u8]) -> u64
    ensures { sees result [] (lent image.new index.new) ≡ host_sees (outcome (geometry_of geometry) (lay Two) (lent image.old index.old)) }
{
    host::lay(geometry_of(geometry), Version::Two, image, index)
}

#[unsafe(no_mangle)]
pub extern "C" fn book_move(geometry: u32, image: &mut [u8], index: &mut [u8], pages: u64) -> u64
    ensures { sees result [] (lent image.new index.new) ≡ host_sees (move_outcome (geometry_of geometry) pages (lent image.old index.old)) }
{
    host::move_over(geometry_of(geometry), image, index, Pages(pages))
}

#[unsafe(no_mangle)]
pub extern "C" fn book_open(geometry: u32, image: &mut [u8], index: &mut [u8]) -> u64
    ensures { sees result [] (lent image.new index.new) ≡ host_sees (outcome (geometry_of geometry) «open» (lent image.old index.old)) }
{
    host::open(geometry_of(geometry), image, index)
}

#[unsafe(no_mangle)]
pub extern "C" fn book_grow(
    geometry: u32,
    image: &mut [u8],
    index: &mut [u8],
    region: u32,
    edition: u32,
    pages: u64,
) -> u64
    ensures { sees result [] (lent image.new index.new) ≡ host_sees (outcome (geometry_of geometry) (grow region edition pages) (lent image.old index.old)) }
{
    host::grow(
        geometry_of(geometry),
        image,
        index,
        book_of(region, edition),
        Pages(pages),
    )
}

#[unsafe(no_mangle)]
pub extern "C" fn book_load(
    geometry: u32,
    image: &[u8],
    index: &[u8],
    region: u32,
    edition: u32,
    offset: u64,
    buffer: &mut [u8],
) -> u64
    ensures { sees result buffer.new (lent image.now index.now) ≡ host_sees (outcome (geometry_of geometry) (load region edition offset buffer.old) (lent image.now index.now)) }
{
    host::load(
        geometry_of(geometry),
        image,
        index,
        book_of(region, edition),
        Offset(offset),
        buffer,
    )
}

#[unsafe(no_mangle)]
pub extern "C" fn book_store(
    geometry: u32,
    image: &mut [u8],
    index: &[u8],
    region: u32,
    edition: u32,
    offset: u64,
    bytes: &[u8],
) -> u64
    ensures { sees result [] (lent image.new index.now) ≡ host_sees (outcome (geometry_of geometry) (store region edition offset bytes.now) (lent image.old index.now)) }
{
    host::store(
        geometry_of(geometry),
        image,
        index,
        book_of(region, edition),
        Offset(offset),
        bytes,
    )
}

#[unsafe(no_mangle)]
pub extern "C" fn book_size(geometry: u32, image: &[u8], region: u32, edition: u32) -> u64
    ensures { sees result [] (lent image.now []) ≡ host_sees (outcome (geometry_of geometry) (size region edition) (lent image.now [])) }
{
    host::size(geometry_of(geometry), image, book_of(region, edition))
}

#[unsafe(no_mangle)]
pub extern "C" fn book_release(
    geometry: u32,
    image: &mut [u8],
    index: &mut [u8],
    region: u32,
    edition: u32,
) -> u64
    ensures { sees result [] (lent image.new index.new) ≡ host_sees (outcome (geometry_of geometry) (release region edition) (lent image.old index.old)) }
{
    host::release(
        geometry_of(geometry),
        image,
        index,
        book_of(region, edition),
    )
}

#[unsafe(no_mangle)]
pub extern "C" fn book_recover(geometry: u32, image: &[u8], index: &mut [u8]) -> u64
    ensures { sees result [] (lent image.now index.new) ≡ host_sees (outcome (geometry_of geometry) recover (lent image.now index.old)) }
{
    host::recover(geometry_of(geometry), image, index)
}
