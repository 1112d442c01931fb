//! The answers of all ports in one list, and a queue of places in it for each port.

ghost use Rattle.std.specs.Prelude.{◌≡◌, ◌<◌, IfSome, slice_index_or, vec_len, vec_capacity};
ghost use Rattle.device_model.specs.Links.{no_answer, linked, queue_after, without_value};

/// An answer that was given to a port.
#[derive(Clone, Copy)]
pub struct Given {
    pub port: u16,
    /// Nothing once it is taken.
    pub value: Option<i32>,
    /// The place of the next answer of the same port.
    pub next: Option<u32>,
}

/// The answers of one port, by their places in the list of all.
#[derive(Clone, Copy)]
pub struct Queue {
    /// The oldest answer that waits.
    pub oldest: Option<u32>,
    /// The newest answer, taken or not.
    pub newest: u32,
}

/// Puts the answer at `place` behind the newest of its port, and gives the port's queue after it.
pub fn put_behind(answers: &mut Vec<Given>, queue: Option<Queue>, place: u32) -> Queue
    requires { IfSome queue (λ q. q.newest < vec_len answers.old) }
    ensures capacity { vec_capacity answers.new ≡ vec_capacity answers.old }
    ensures links { answers.new.items ≡ linked answers.old.items queue place }
    ensures queue { result ≡ queue_after queue place }
{
    match queue {
        None => Queue {
            oldest: Some(place),
            newest: place,
        },
        Some(queue) => {
            answers[queue.newest as usize].next = Some(place);
            Queue {
                oldest: queue.oldest.or(Some(place)),
                newest: place,
            }
        }
    }
}

/// Takes the value of the answer at `place`, and gives the answer as it was.
pub fn take_at(answers: &mut Vec<Given>, place: u32) -> Given
    requires { place < vec_len answers.old }
    ensures capacity { vec_capacity answers.new ≡ vec_capacity answers.old }
    ensures taken { answers.new.items ≡ without_value answers.old.items place }
    ensures given { result ≡ slice_index_or answers.old.items place no_answer }
{
    let given = answers[place as usize];
    answers[place as usize].value = None;
    given
}
