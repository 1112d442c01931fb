//! Updates as rows of a text.
use sd_base::Layout;
use update_tracker::Update;

/// The word at this place of a row, counted from 0.
pub(crate) fn word_at(row: &str, place: usize) -> &str {
    row.split(' ').nth(place).unwrap_or("")
}

/// The number at this place of a row; 0 where none stands there.
fn number_at(row: &str, place: usize) -> i64 {
    word_at(row, place).parse::<i64>().unwrap_or(0)
}

/// The same in 32 bits.
pub(crate) fn signed_at(row: &str, place: usize) -> i32 {
    i32::try_from(number_at(row, place)).unwrap_or(0)
}

/// The same without a sign.
pub(crate) fn natural_at(row: &str, place: usize) -> u32 {
    u32::try_from(number_at(row, place)).unwrap_or(0)
}

/// The same in 8 bits: an owner, or a task.
pub(crate) fn actor_at(row: &str, place: usize) -> u8 {
    u8::try_from(number_at(row, place)).unwrap_or(0)
}

/// A grant.
fn grant(row: &str) -> Update {
    Update::Grant {
        layout: Layout {
            elem: natural_at(row, 2),
            size: natural_at(row, 3),
            nullterm: false,
        },
        n: number_at(row, 4),
        image: number_at(row, 5) == 1,
    }
}

/// A timer.
fn timer(row: &str) -> Update {
    Update::Timer {
        id: signed_at(row, 2),
        due: natural_at(row, 3),
        handler: natural_at(row, 4),
        arg: signed_at(row, 5),
    }
}

/// The update of this row: of what activities share, and of time.
fn share(row: &str, word: &str) -> Update {
    let number = signed_at(row, 2);
    match word {
        "lock" => Update::Lock {
            lock: number,
            task: actor_at(row, 3),
        },
        "unlock" => Update::Unlock {
            lock: number,
            task: actor_at(row, 3),
        },
        "mask" => Update::Mask {
            task: actor_at(row, 2),
        },
        "unmask" => Update::Unmask {
            task: actor_at(row, 2),
        },
        "hold" => Update::Hold { domain: number },
        "drop_hold" => Update::DropHold { domain: number },
        "work" => Update::Work {
            handler: natural_at(row, 2),
            arg: signed_at(row, 3),
        },
        "timer" => timer(row),
        "fired" => Update::Fired { id: number },
        "del_timer" => Update::DelTimer { id: number },
        "clock" => Update::Clock {
            now: natural_at(row, 2),
        },
        _ => Update::Taken,
    }
}

/// The update of this row.
pub(crate) fn update_of(row: &str) -> Update {
    let number = signed_at(row, 2);
    match word_at(row, 1) {
        "grant" => grant(row),
        "free" => Update::Free {
            base: natural_at(row, 2),
        },
        "line" => Update::Line {
            line: number,
            handler: natural_at(row, 3),
        },
        "free_line" => Update::FreeLine { line: number },
        "ports" => Update::Ports {
            base: number,
            n: signed_at(row, 3),
        },
        "drop_ports" => Update::DropPorts {
            base: number,
            n: signed_at(row, 3),
        },
        "device" => Update::Device { id: number },
        "del_device" => Update::DelDevice { id: number },
        "param" => Update::Param {
            key: number,
            value: signed_at(row, 3),
        },
        "clear_param" => Update::ClearParam { key: number },
        word => share(row, word),
    }
}
