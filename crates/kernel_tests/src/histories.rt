//! Histories of which one driver is taken back, written as in `tables`, and what is undone then, from the newest.

/// A ring driver is loaded, gets its buffer, ports, line and timer, and its timer fires once and is set again.
pub(crate) const RING: &str = "\
1 grant 2 12 1 1
1 grant 0 1 4 0
1 ports 768 8
1 line 4 1
1 timer 1 10 0 0
0 param 3 9
0 clock 10
1 fired 1
1 timer 1 20 0 1
";

/// What it has then, from the newest.
pub(crate) const RING_UNDONE: &str = "[Timer(1), Line(4), Ports(768, 8), Block(32), Block(16)]";

/// One live update of each kind by owner 2, with the others' between them, some of the same things, and three that it ended itself.
pub(crate) const EACH_KIND: &str = "\
2 grant 0 1 5 1
1 grant 0 1 20 1
2 hold 7
2 grant 0 1 3 0
1 hold 7
2 line 9 4
2 free 32
1 line 8 4
2 device 40
2 ports 64 8
3 ports 72 8
2 del_device 40
3 device 40
2 device 41
0 param 5 1
2 param 5 2
3 param 5 3
2 work 6 1
3 work 7 2
2 work 6 3
2 taken
1 timer 3 8 2 0
2 timer 3 9 2 0
2 lock 30 2
3 lock 31 1
2 mask 0
2 mask 5
2 unmask 0
3 mask 5
0 clock 4
1 free_line 8
";

/// What owner 2 has then, from the newest.
pub(crate) const EACH_KIND_UNDONE: &str =
    "[Mask(5), Lock(30), Timer(3), Work(6, 3), Param(5), Device(41), Ports(64, 8), Free(32), Line(9), Block(32), Hold(7), Block(16)]";

/// Four owners hold one line.
pub(crate) const SHARED: &str = "\
0 line 5 0
1 line 5 0
2 line 5 0
3 line 5 0
";

/// What the third holder of the line has.
pub(crate) const SHARED_UNDONE: &str = "[Line(5)]";

/// The line of which the third holder was taken back goes to a fourth one again, behind the others, and to no fifth.
pub(crate) const SHARED_AGAIN: &str = "\
4 line 5 0 => Ok(Done)
2 line 5 0 => Err(Busy)
holder 5 0 => Some(Holder { owner: 0, handler: 0 })
holder 5 1 => Some(Holder { owner: 1, handler: 0 })
holder 5 2 => Some(Holder { owner: 3, handler: 0 })
holder 5 3 => Some(Holder { owner: 4, handler: 0 })
";
