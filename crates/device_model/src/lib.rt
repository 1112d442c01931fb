//! Scripted devices: what each port answers when it is read, as a scenario lays down beforehand.
#![tactic(auto)]

ghost use Rattle.std.specs.Prelude.{◌≡◌, ◌≢◌, ℕ, ◌+◌, [], ◌∷◌, ◌++◌, drop, ◌↔◌, IfOk, OnOk, OnErr, IsErr};
ghost use Rattle.device_model.specs.Scripted.{answers_of, oldest_or_zero, nothing_scripted, with_answer, without_oldest};

mod links;

use links::{Given, Queue, put_behind, take_at};
use std::alloc::{AllocError, Global};
use std::collections::HashMap;
use std::marker::Model;

/// There is no room for another answer.
#[derive(Clone, Copy, Debug, PartialEq, Eq)]
pub struct Full;

/// The devices behind all ports: for each port a list of answers that wait, and the room for more.
///
/// Its memory is taken when it is made, and goes by the number of answers and not by that of ports.
#[derive(Drop)]
pub struct Devices {
    /// By port, where it was ever given an answer.
    queues: HashMap<u16, Queue>,
    /// All answers, in the order in which they were given.
    answers: Vec<Given>,
    /// How many more answers fit.
    room: u32,
}

impl Model for Devices {
    ghost use Rattle.std.specs.Prelude.{ℕ, ◌+◌, ◌^◌, ◌<◌, ◌≤◌, length, nat_eq, vec_capacity};
    ghost use Rattle.std.specs.HashMap.{get, spare};
    ghost use Rattle.device_model.specs.Scripted.{Scripted};
    ghost use Rattle.device_model.specs.Links.{waiting_of, IsLinked};

    ghost Value = { Scripted };

    ghost view = { λ d. record { waiting = waiting_of d.answers.items; room = d.room } };

    ghost invariant = { λ d. IsLinked (get nat_eq d.queues) d.answers.items
        × (d.room ≤ spare d.queues)
        × (length d.answers.items + d.room ≤ vec_capacity d.answers)
        × (length d.answers.items + d.room < 2 ^ 32) };
}

impl Devices {
    /// Devices with room for this many answers, and no answer yet. The only refusal is want of memory.
    pub fn new(alloc: Global, answers: u32) -> Result<Devices, AllocError>
        ensures { IfOk result (λ devices. devices ≡ nothing_scripted answers) }
    {
        let queues = HashMap::with_capacity(alloc, answers as usize)?;
        let given = Vec::with_capacity(alloc, answers as usize)?;
        Ok(Devices {
            queues,
            answers: given,
            room: answers,
        })
    }

    /// Gives `port` an answer behind those that it has.
    ///
    /// Refused `Full` exactly where there is no room, and then nothing changes. Takes no memory.
    pub fn answer(&mut self, port: u16, v: i32) -> Result<(), Full>
        ensures full { IsErr result ↔ (self.old.room ≡ 0) }
        ensures refused { OnErr result (self.new ≡ self.old) }
        ensures given { OnOk result (self.new ≡ with_answer port v self.old) }
        ensures gains { OnOk result (answers_of self.new port ≡ answers_of self.old port ++ v ∷ []) }
        ensures others { (q : ℕ) → q ≢ port → answers_of self.new q ≡ answers_of self.old q }
        ensures room { OnOk result (self.new.room + 1 ≡ self.old.room) }
    {
        if self.room == 0 {
            return Err(Full);
        }
        let place = self.answers.len() as u32;
        let given = Given {
            port,
            value: Some(v),
            next: None,
        };
        self.answers.push_reserved(given);
        let queue = put_behind(&mut self.answers, self.queues.get(&port).copied(), place);
        let inserted: Result<_, _> = self.queues.insert(port, queue);
        let _ = inserted.unwrap();
        self.room -= 1;
        Ok(())
    }

    /// Reads `port`: takes its oldest answer, or gives 0 and changes nothing where it has none. Takes no memory.
    pub fn port_in(&mut self, port: u16) -> i32
        ensures value { result ≡ oldest_or_zero (answers_of self.old port) }
        ensures taken { self.new ≡ without_oldest port self.old }
        ensures loses { answers_of self.new port ≡ drop 1 (answers_of self.old port) }
        ensures others { (q : ℕ) → q ≢ port → answers_of self.new q ≡ answers_of self.old q }
        ensures room { self.new.room ≡ self.old.room }
    {
        let Some(queue) = self.queues.get_mut(&port) else {
            return 0;
        };
        let Some(place) = queue.oldest else {
            return 0;
        };
        let answer = take_at(&mut self.answers, place);
        queue.oldest = answer.next;
        answer.value.unwrap_or(0)
    }

    /// Writes to `port`. A scripted device keeps nothing of it.
    pub fn port_out(&mut self, _port: u16, _v: i32)
        ensures { self.new ≡ self.old }
    {}
}
