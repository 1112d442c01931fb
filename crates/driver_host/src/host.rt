//! What drivers run upon: the kernel's tables, the memory of each driver, and the devices.
ghost use Rattle.std.specs.Prelude.{◌≡◌, ◌<◌, ◌≤◌, [], false, true, length, replicate, slice_get, IfOk};
ghost use Rattle.std.specs.List.{list_any};
ghost use Rattle.claim_table.specs.ClaimRows.{is_share};
ghost use Rattle.sd_base.specs.Allowed.{is_proper};
ghost use Rattle.sd_base.specs.History.{net_of, Without, live_of, clock_of, mask_key, is_of};
ghost use Rattle.claim_table.specs.ClaimPart.{holders_of};
ghost use Rattle.timer_table.specs.Order.{next_of, timers_of};
ghost use Rattle.share_table.specs.Locks.{takes_lock};
ghost use Rattle.share_table.specs.Masks.{is_mask};
ghost use Rattle.share_table.specs.Table.{queue_of};
ghost use Rattle.update_tracker.specs.Entries.{AreItemsOf};
ghost use Rattle.update_tracker.specs.Tracking.{Stands, OfEachHistory};
ghost use Rattle.driver_host.specs.Granting.{grants_block, IsTimely};
ghost use Rattle.driver_host.specs.Hosting.{cleared, cleared_at, IsHost, Moves, Updates, TakesBack, Reads};
ghost use Rattle.world_core.specs.WorldState.{empty_arena};
ghost use Rattle.device_model.specs.Scripted.{nothing_scripted};
ghost use Rattle.world_core.specs.Inputs.{answered};

use byte_memory::Tested;
use claim_table::Holder;
use device_model::Devices;
use kernel_tables::Kernel;
use sd_base::limits::ARENA_BYTES;
use sd_base::{Memory, Refusal, Steps, Update, Who};
use share_table::Work;
use std::alloc::Global;
use std::marker::Brand;
use std::sync::ledger::{Blank, Ledger};
use timer_table::Fired;
use update_tracker::{Tracked, Undo};

/// The kernel's tables, each driver's memory, `d1` first, and the devices.
#[derive(Drop)]
pub struct Host {
    pub kernel: Tracked,
    pub memories: Vec<Tested>,
    pub devices: Devices,
}

/// Takes back all that a driver has in the tables, with a counter of its own.
fn take_back_tables<L: Ledger>(kernel: &mut Tracked, owner: u8, blank: Blank)
    requires driver { 0 < owner }
    requires owner { owner ≤ 4 }
    requires name { blank.name ≡ L.name }
    requires parts { blank.parts ≡ L.parts }
    requires some { 0 < L.parts }
    ensures without { OfEachHistory kernel.old (λ h. Stands kernel.new (Without h owner)) }
    ensures undone { OfEachHistory kernel.old (λ h. AreItemsOf kernel.new.undone (net_of h owner)) }
    ensures share { kernel.new.kernel.claims.share ≡ kernel.old.kernel.claims.share }
{
    let mut steps: Steps<L> = Steps::start(blank);
    kernel.take_back(owner, &mut steps);
}

/// Takes back all that a driver has in the tables.
fn take_back(kernel: &mut Tracked, owner: u8)
    requires driver { 0 < owner }
    requires owner { owner ≤ 4 }
    ensures without { OfEachHistory kernel.old (λ h. Stands kernel.new (Without h owner)) }
    ensures undone { OfEachHistory kernel.old (λ h. AreItemsOf kernel.new.undone (net_of h owner)) }
    ensures share { kernel.new.kernel.claims.share ≡ kernel.old.kernel.claims.share }
{
    let blank = Blank::new(1);
    take_back_tables::<Brand>(kernel, owner, blank);
}

/// Clears the memory at a place, if there is such a place.
fn clear_at(memories: &mut [Tested], place: usize)
    ensures { memories.new ≡ cleared_at memories.old place }
{
    if place < memories.len() {
        let memory = &mut memories[place];
        memory.clear();
    }
}

/// So many memories, all 0, with nothing granted.
fn empty_memories(alloc: Global, drivers: usize) -> Result<Vec<Tested>, Memory>
    ensures { IfOk result (λ memories. memories.items ≡ replicate drivers cleared) }
{
    let mut memories = Vec::new(alloc);
    for _driver in 0..drivers {
        let memory = Tested::new(alloc, ARENA_BYTES)?;
        memories.push(memory)?;
    }
    Ok(memories)
}

impl Host {
    /// What so many drivers run upon before the first of them is loaded, where each line may have as many holders as the share, 1 or 4,
    /// and the devices have room for so many answers. All memory that is ever taken is taken here; the only refusal is want of it.
    pub fn new(alloc: Global, share: u8, drivers: usize, answers: u32) -> Result<Host, Memory>
        requires { is_share share ≡ true }
        ensures { IfOk result (λ host. IsHost share host [] (replicate drivers empty_arena) (nothing_scripted answers)) }
    {
        let tables = Kernel::with_share(alloc, share)?;
        let kernel = Tracked::new(alloc, tables)?;
        let memories = empty_memories(alloc, drivers)?;
        let devices = Devices::new(alloc, answers)?;
        Ok(Host {
            kernel,
            memories,
            devices,
        })
    }

    /// Makes an update of an owner that grants no block, and sets the clock to 2,000,000,000 at most, or refuses it as its rule says; what is
    /// refused changes nothing.
    pub fn update(&mut self, owner: u8, update: Update) -> Option<Refusal>
        requires proper { is_proper owner update ≡ true }
        requires no_block { grants_block update ≡ false }
        requires timely { IsTimely update }
        ensures { Updates self.old owner update result self.new }
    {
        match self.kernel.update(owner, update) {
            Ok(_reply) => None,
            Err(refusal) => Some(refusal),
        }
    }

    /// Takes a driver back: all that it has in the tables, from the newest, and its memory, which is all 0 then.
    pub fn take_back(&mut self, owner: u8)
        requires driver { 0 < owner }
        requires owner { owner ≤ 4 }
        ensures { TakesBack self.old owner self.new }
    {
        take_back(&mut self.kernel, owner);
        clear_at(self.memories.as_mut_slice(), usize::from(owner) - 1);
    }

    /// Gives a port these answers behind those that it has; there is room for them.
    pub fn answer(&mut self, port: u16, values: &[i32])
        requires { length values.now ≤ self.old.devices.room }
        ensures { Moves self.old self.new (λ share h. h) (λ memories. memories) (answered port values.now) }
    {
        for value in values {
            match self.devices.answer(port, *value) {
                Ok(()) => {}
                Err(_full) => {}
            }
        }
    }

    /// What was taken back last, from the newest.
    pub fn undone(&self) -> &[Undo]
        ensures { result.now ≡ self.now.kernel.undone }
    {
        self.kernel.undone()
    }

    /// The kernel's tables.
    pub fn tables(&self) -> &Kernel
        ensures { result.now ≡ self.now.kernel.kernel }
    {
        self.kernel.kernel()
    }

    /// Whether any activity holds interrupts off.
    pub fn is_masked(&self) -> bool
        ensures { Reads self.now (λ h. result ≡ list_any is_mask (live_of h)) }
    {
        let tables = self.kernel.kernel();
        tables.shares.masked()
    }

    /// Whether an activity holds any lock.
    pub fn holds_lock(&self, who: Who) -> bool
        ensures { Reads self.now (λ h. result ≡ list_any (takes_lock who) (live_of h)) }
    {
        let tables = self.kernel.kernel();
        tables.shares.holds_lock(who)
    }

    /// Whether an activity holds its mask.
    pub fn holds_mask(&self, who: Who) -> bool
        requires owner { who.owner ≤ 4 }
        requires task { who.task ≤ 8 }
        ensures { Reads self.now (λ h. result ≡ list_any (is_of who.owner (mask_key who.task)) (live_of h)) }
    {
        let tables = self.kernel.kernel();
        tables.shares.holds_mask(who)
    }

    /// The item at the front of the work queue, if there is one.
    pub fn front(&self) -> Option<Work>
        ensures { Reads self.now (λ h. result ≡ slice_get (queue_of h) 0) }
    {
        let tables = self.kernel.kernel();
        tables.shares.front()
    }

    /// The holder of a line with this place in the order of the requests, counted from 0, if there is one.
    pub fn holder(&self, line: i32, place: u32) -> Option<Holder>
        ensures { Reads self.now (λ h. result ≡ slice_get (holders_of h line) place) }
    {
        let tables = self.kernel.kernel();
        tables.claims.holder(line, place)
    }

    /// The timer that is to fire next of those that are due by this moment, if there is one.
    pub fn next_due(&self, moment: u32) -> Option<Fired>
        ensures { Reads self.now (λ h. result ≡ next_of moment (timers_of (live_of h))) }
    {
        let tables = self.kernel.kernel();
        tables.timers.next_due(moment)
    }

    /// The clock.
    pub fn clock(&self) -> u32
        ensures { Reads self.now (λ h. result ≡ clock_of h) }
    {
        let tables = self.kernel.kernel();
        tables.now
    }
}
