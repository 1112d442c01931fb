//! The log of an owner's live updates, in storage that is taken when it is made.
ghost use Rattle.std.specs.Prelude.{◌≡◌, IfOk};
ghost use Rattle.std.specs.List.{position};
ghost use Rattle.update_tracker.specs.NetRows.{no_rows, same_undo, has_item, is_work, is_work_note, base_in, with_block, with_note, without_note, without_oldest_work, noted};
ghost use Rattle.update_tracker.specs.NetPart.{is_newest_note, Pops};
ghost use Rattle.update_tracker.specs.Places.{FindsLastPlace, HasRoom};

use crate::undo::{Note, Reply, Undo};
use sd_base::limits::{
    BLOCKS, DEVICES, DOMAINS, HOLDS, LINES, LOCKS, PARAMETERS, PORT_RANGES, TASKS, TIMERS,
    WORK_ITEMS,
};
use sd_base::{Memory, Update};
use std::alloc::Global;
use std::marker::Model;

/// The grants and releases that one owner can have live: 4,096 blocks, each given back.
pub const BLOCK_ROOM: usize = 2 * BLOCKS;
/// The other updates that one owner can have live: 64 lines, 32 ranges of ports, 32 devices, 32 parameters, 64 timers,
/// 64 locks, 8 holds on each of 64 domains, 64 items of work and 9 masks.
pub const NOTE_ROOM: usize = LINES as usize
    + PORT_RANGES
    + DEVICES
    + PARAMETERS
    + TIMERS
    + LOCKS as usize
    + HOLDS * DOMAINS as usize
    + WORK_ITEMS
    + TASKS as usize
    + 1;

/// The live updates of one owner in the order of their making: grants and releases, which nothing ends, by themselves,
/// and all others, each with how many of these are older.
#[derive(Drop)]
pub struct NetLog {
    blocks: Vec<Undo>,
    notes: Vec<Note>,
}

impl Model for NetLog {
    ghost use Rattle.std.specs.Prelude.{◌≤◌, vec_capacity};
    ghost use Rattle.update_tracker.specs.NetRows.{NetRows};

    ghost Value = { NetRows };

    ghost view = { λ a. record { blocks = a.blocks.items; notes = a.notes.items } };

    ghost invariant = { λ a. (8192 ≤ vec_capacity a.blocks) × (873 ≤ vec_capacity a.notes) };
}

/// Whether both are the same.
fn same(a: Undo, b: Undo) -> bool
    ensures { result ≡ same_undo a b }
{
    a == b
}

/// Whether it is an item of the work queue.
fn is_work(item: Undo) -> bool
    ensures { result ≡ is_work item }
{
    matches!(item, Undo::Work(_, _))
}

/// The place of the newest note of an item, if there is one.
fn newest_place(notes: &[Note], item: Undo) -> Option<usize>
    ensures { FindsLastPlace (has_item item) notes.now result }
{
    let mut end = notes.len();
    while end > 0 {
        end -= 1;
        if same(notes[end].item, item) {
            return Some(end);
        }
    }
    None
}

/// The place of the oldest item of work, if there is one.
fn oldest_work(notes: &[Note]) -> Option<usize>
    ensures { result ≡ position is_work_note notes.now }
{
    notes.iter().position(|note| is_work(note.item))
}

/// The base that a reply carries.
fn base_in(reply: Reply) -> u32
    ensures { result ≡ base_in reply }
{
    match reply {
        Reply::Done => 0,
        Reply::Base(base) => base,
    }
}

/// Whether the newest note was made after so many grants and releases.
fn is_newest_note(notes: &[Note], blocks: usize) -> bool
    ensures { result ≡ is_newest_note notes.now blocks }
{
    let Some(note) = notes.last() else {
        return false;
    };
    note.after as usize >= blocks
}

impl NetLog {
    /// Nothing is live. There is room for all that an owner can have live.
    pub fn new(alloc: Global) -> Result<NetLog, Memory>
        ensures { IfOk result (λ log. log ≡ no_rows) }
    {
        let blocks = Vec::with_capacity(alloc, BLOCK_ROOM)?;
        let notes = Vec::with_capacity(alloc, NOTE_ROOM)?;
        Ok(NetLog { blocks, notes })
    }

    /// Puts a grant or a release behind all that is there.
    fn block(&mut self, item: Undo)
        requires { HasRoom (with_block item self.old) }
        ensures { self.new ≡ with_block item self.old }
    {
        self.blocks.push_reserved(item);
    }

    /// Puts another update behind all that is there.
    fn begin(&mut self, item: Undo)
        requires { HasRoom (with_note item self.old) }
        ensures { self.new ≡ with_note item self.old }
    {
        let after = self.blocks.len() as u32;
        self.notes.push_reserved(Note { item, after });
    }

    /// Takes the newest note of an item away.
    fn end(&mut self, item: Undo)
        ensures { self.new ≡ without_note item self.old }
    {
        if let Some(place) = newest_place(self.notes.as_slice(), item) {
            let _ = self.notes.remove(place);
        }
    }

    /// Puts an update in the stead of the one of the same item, if there is one.
    fn replace(&mut self, item: Undo)
        requires { HasRoom (with_note item (without_note item self.old)) }
        ensures { self.new ≡ with_note item (without_note item self.old) }
    {
        self.end(item);
        self.begin(item);
    }

    /// Takes the oldest item of work away.
    fn end_oldest_work(&mut self)
        ensures { self.new ≡ without_oldest_work self.old }
    {
        if let Some(place) = oldest_work(self.notes.as_slice()) {
            let _ = self.notes.remove(place);
        }
    }

    /// Notes an update that was accepted with this reply.
    pub fn note(&mut self, update: Update, reply: Reply)
        requires { HasRoom (noted update reply self.old) }
        ensures { self.new ≡ noted update reply self.old }
    {
        match update {
            Update::Grant { .. } => {
                let base = base_in(reply);
                self.block(Undo::Block(base))
            }
            Update::Free { base } => self.block(Undo::Free(base)),
            Update::Line { line, .. } => self.begin(Undo::Line(line)),
            Update::FreeLine { line } => self.end(Undo::Line(line)),
            Update::Ports { base, n } => self.begin(Undo::Ports(base, n)),
            Update::DropPorts { base, n } => self.end(Undo::Ports(base, n)),
            Update::Device { id } => self.begin(Undo::Device(id)),
            Update::DelDevice { id } => self.end(Undo::Device(id)),
            Update::Param { key, .. } => self.replace(Undo::Param(key)),
            Update::ClearParam { key } => self.end(Undo::Param(key)),
            Update::Timer { id, .. } => self.replace(Undo::Timer(id)),
            Update::DelTimer { id } => self.end(Undo::Timer(id)),
            Update::Fired { id } => self.end(Undo::Timer(id)),
            Update::Lock { lock, .. } => self.begin(Undo::Lock(lock)),
            Update::Unlock { lock, .. } => self.end(Undo::Lock(lock)),
            Update::Hold { domain } => self.begin(Undo::Hold(domain)),
            Update::DropHold { domain } => self.end(Undo::Hold(domain)),
            Update::Work { handler, arg } => self.begin(Undo::Work(handler, arg)),
            Update::Taken => self.end_oldest_work(),
            Update::Mask { task } => self.begin(Undo::Mask(task)),
            Update::Unmask { task } => self.end(Undo::Mask(task)),
            Update::Clock { .. } => {}
        }
    }

    /// Takes out what was noted last of all, if there is anything.
    pub fn pop(&mut self) -> Option<Undo>
        ensures { Pops self.old result self.new }
    {
        if is_newest_note(self.notes.as_slice(), self.blocks.len()) {
            let Some(note) = self.notes.pop() else {
                return None;
            };
            return Some(note.item);
        }
        self.blocks.pop()
    }
}
