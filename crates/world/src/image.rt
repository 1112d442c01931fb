//! The load state of a driver: it has nothing of before, its memory is all 0 but for its load image, each block of the image is granted, and
//! its `init` begins.
ghost use Rattle.std.specs.Prelude.{◌≡◌, ℕ, ◌+◌, ◌*◌, ◌/◌, ◌<◌, ◌≤◌, IsTrue, None, length, slice_index_or, slice_set};
ghost use Rattle.byte_memory.specs.Tested.{is_inside};
ghost use Rattle.driver_host.specs.Hosting.{cleared};
ghost use Rattle.driver_machine.specs.Machines.{owner_in};
ghost use Rattle.safe_code.specs.DerivedUnit.{IsDerivedUnit};
ghost use Rattle.world.specs.Asking.{HasMemory};
ghost use Rattle.world.specs.Going.{Changes};
ghost use Rattle.world.specs.Images as spec;
ghost use Rattle.world.specs.Images.{Filled, TellsDriver, TellsSome, FillsHost, IsKnown, LoadsHost, with_block, with_image};
ghost use Rattle.world.specs.Standing.{units_of};
ghost use Rattle.world.specs.Stepped.{IsSomewhere};
ghost use Rattle.world_core.specs.Loading as loading;
ghost use Rattle.world_core.specs.Script.{by_plan};

use crate::drivers::Drivers;
use crate::live::Live;
use byte_memory::Tested;
use checked_tree::ImageBlock;
use driver_host::Host;
use sd_base::{Layout, Update};
use update_tracker::{Reply, Tracked};

/// The bytes of one of `count` elements of so many bytes; 0 where there is no element.
fn element_size(size: u32, count: u32) -> u32
    ensures { result ≡ size / count }
{
    if count == 0 {
        return 0;
    }
    size / count
}

/// A block of a load image as it is granted: its elements, each of so many bytes.
fn image_layout(block: &ImageBlock) -> Layout
    ensures { result ≡ spec.image_layout block.now }
{
    Layout {
        elem: block.elem,
        size: element_size(block.size, block.count),
        nullterm: block.nullterm,
    }
}

/// Copies bytes into a granted range of the memory.
fn copy_in(memory: &mut Tested, at: u32, bytes: &[u8])
    requires inside { IsTrue (is_inside memory.old at (length bytes.now)) }
    requires within { at + length bytes.now ≤ length memory.old.bytes }
    requires arena { length memory.old.bytes ≤ 1048576 }
    ensures { memory.new ≡ record memory.old { bytes = spec.copied memory.old.bytes at bytes.now } }
{
    let mut place = at;
    for byte in bytes {
        memory.store(place, 1, u32::from(*byte));
        place += 1;
    }
}

/// Grants so many bytes from `base` on, and copies in as many of these as there is room for.
fn place_bytes(memory: &mut Tested, base: u32, size: u32, bytes: &[u8])
    requires room { length memory.old.granted < 4096 }
    requires within { base + size ≤ length memory.old.bytes }
    requires arena { length memory.old.bytes ≤ 1048576 }
    ensures { memory.new ≡ spec.placed_in memory.old base size bytes.now }
{
    memory.grant(base, size);
    let count = bytes.len().min(size as usize);
    copy_in(memory, base, &bytes[..count]);
}

/// Puts a block of a driver's load image in its place: it is granted, and its bytes are copied in.
fn place_block(kernel: &mut Tracked, memory: &mut Tested, owner: u8, block: &ImageBlock)
    requires driver { 0 < owner }
    requires few { owner ≤ 4 }
    requires known { TellsSome kernel.old memory.old owner }
    ensures { (share : ℕ) (f : Filled) → TellsDriver kernel.old memory.old share owner f
        → TellsDriver kernel.new memory.new share owner (with_block share owner block.now f) }
{
    let layout = image_layout(block);
    if layout.size == 0 {
        return;
    }
    match kernel.update(
        owner,
        Update::Grant {
            layout,
            n: i64::from(block.count),
            image: true,
        },
    ) {
        Ok(Reply::Base(base)) => place_bytes(
            memory,
            base,
            layout.size * block.count,
            block.bytes.as_slice(),
        ),
        Ok(Reply::Done) => {}
        Err(_refusal) => {}
    }
}

/// Puts each block of a driver's load image in its place.
fn place_image(kernel: &mut Tracked, memory: &mut Tested, owner: u8, image: &[ImageBlock])
    requires driver { 0 < owner }
    requires few { owner ≤ 4 }
    requires known { TellsSome kernel.old memory.old owner }
    ensures { (share : ℕ) (f : Filled) → TellsDriver kernel.old memory.old share owner f
        → TellsDriver kernel.new memory.new share owner (with_image share owner image.now f) }
{
    for block in image {
        place_block(kernel, memory, owner, block);
    }
}

/// The same in the memory at a place.
fn place_at(
    kernel: &mut Tracked,
    memories: &mut [Tested],
    place: usize,
    owner: u8,
    image: &[ImageBlock],
)
    requires place { place < length memories.old }
    requires driver { 0 < owner }
    requires few { owner ≤ 4 }
    requires known { TellsSome kernel.old (slice_index_or memories.old place cleared) owner }
    ensures others { memories.new ≡ slice_set memories.old place (slice_index_or memories.new place cleared) }
    ensures told { (share : ℕ) (f : Filled) → TellsDriver kernel.old (slice_index_or memories.old place cleared) share owner f
        → TellsDriver kernel.new (slice_index_or memories.new place cleared) share owner (with_image share owner image.now f) }
{
    let memory = &mut memories[place];
    place_image(kernel, memory, owner, image);
}

/// Puts the load image of a driver in its place.
fn fill(host: &mut Host, owner: u8, image: &[ImageBlock])
    requires known { HasMemory host.old owner }
    ensures { FillsHost host.old owner image.now host.new }
{
    let place = usize::from(owner) - 1;
    place_at(
        &mut host.kernel,
        host.memories.as_mut_slice(),
        place,
        owner,
        image,
    );
}

/// The load state of a driver; where there is no such driver, what it has in the tables is taken back, and no more.
fn load_state(host: &mut Host, drivers: &Drivers, driver: u8)
    requires known { IsKnown (units_of drivers.now.list.items) host.old }
    ensures { LoadsHost (units_of drivers.now.list.items) host.old driver host.new }
{
    if driver == 0 || driver > 4 {
        return;
    }
    host.take_back(driver);
    match drivers.get(driver) {
        None => {}
        Some(found) => fill(host, driver, found.unit().image.as_slice()),
    }
}

impl Live {
    /// A driver's load state, and its `init` begins.
    pub fn begin_load(&mut self, drivers: &Drivers, driver: u8, task: u8)
        requires good { IsSomewhere (units_of drivers.now.list.items) self.old }
        requires task { task ≤ 8 }
        requires idle { owner_in self.old.machine task ≡ None }
        ensures { Changes (units_of drivers.now.list.items) self.old self.new (by_plan (λ plan. loading.loads plan driver task)) }
    {
        load_state(&mut self.ground.host, drivers, driver);
        self.begin_init(drivers, driver, task);
    }
}
