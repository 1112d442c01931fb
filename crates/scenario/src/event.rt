//! The events of a run, as the lines of a scenario name them.

use sd_base::Name;

/// What one line of a scenario makes happen.
#[derive(Clone, Copy, Debug, PartialEq, Eq)]
pub enum Event {
    /// `load dK T`: the driver is loaded, and its `init` starts on the task. After a failure it is started anew so many times at most,
    /// to 100; `load dK T restarts N` names the number, which is 0 where none is named.
    Load {
        driver: u8,
        task: u8,
        restarts: u8,
    },
    /// `restart dK T`: a failed driver is loaded anew.
    Restart {
        driver: u8,
        task: u8,
    },
    /// `unload dK`: the driver leaves, and what it holds is undone.
    Unload {
        driver: u8,
    },
    /// `call dK T NAME V*`: a function of the driver starts on the task. The first `n` of `args` are its arguments, and the others are 0.
    Call {
        driver: u8,
        task: u8,
        name: Name,
        args: [i32; 8],
        n: u8,
    },
    /// `run T N`: the task takes at most `n` steps.
    Run {
        task: u8,
        n: u32,
    },
    /// `finish T`: the task runs to its end.
    Finish {
        task: u8,
    },
    /// `irq L`: the interrupt line is raised.
    Irq {
        line: u8,
    },
    /// `tick N`: the clock goes on by `n`.
    Tick {
        n: u32,
    },
    /// `work N`: at most `n` queued work items run.
    Work {
        n: u32,
    },
    /// `answer P V+`: the port is given `n` of the scenario's answers, from number `first` on.
    Answer {
        port: u16,
        first: u32,
        n: u32,
    },
    /// `kernel ..`: the kernel itself changes its tables.
    Kernel(KernelEvent),
    /// `show`: the tables are printed.
    Show,
}

/// What the kernel itself does.
#[derive(Clone, Copy, Debug, PartialEq, Eq)]
pub enum KernelEvent {
    /// `kernel line V`: asks for an interrupt line.
    Line(i32),
    /// `kernel free_line V`: gives a line back.
    FreeLine(i32),
    /// `kernel param V V`: sets a parameter to a value.
    Param(i32, i32),
    /// `kernel clear_param V`: clears a parameter.
    ClearParam(i32),
    /// `kernel hold V`: holds a power domain.
    Hold(i32),
    /// `kernel drop_hold V`: drops a hold.
    DropHold(i32),
    /// `kernel lock V`: takes a lock.
    Lock(i32),
    /// `kernel unlock V`: gives a lock back.
    Unlock(i32),
}
