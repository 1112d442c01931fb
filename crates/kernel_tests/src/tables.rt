//! Updates and what they come to, by the written rules. A row is the number of an owner, the name of an update and its numbers, and behind
//! ` => ` what it is answered. Of a grant the numbers are the element's number and size, how many, and whether it is of the load image.

/// Each kind of update with its answers: lines, ports, devices and parameters; timers, the clock, locks, masks, holds and work; blocks, and
/// what fits an arena to its last byte; and last what no owner of its kind asks for.
pub(crate) const ANSWERS: &str = "\
1 line 5 0 => Ok(Done)
2 line 5 0 => Err(Busy)
2 line 64 0 => Err(Bad)
2 free_line 5 => Err(Bad)
1 free_line 5 => Ok(Done)
2 line 5 0 => Ok(Done)
1 ports 16 4 => Ok(Done)
2 ports 18 1 => Err(Busy)
2 ports 20 65516 => Ok(Done)
1 ports 0 0 => Err(Bad)
1 ports -1 1 => Err(Bad)
1 ports 65535 2 => Err(Bad)
1 drop_ports 16 3 => Err(Bad)
1 drop_ports 16 4 => Ok(Done)
1 drop_ports 16 4 => Err(Bad)
1 device 1023 => Ok(Done)
2 device 1023 => Err(Busy)
2 device 1024 => Err(Bad)
2 del_device 1023 => Err(Bad)
1 del_device 1023 => Ok(Done)
1 param 7 1 => Ok(Done)
0 param 7 3 => Ok(Done)
1 param 256 0 => Err(Bad)
0 clear_param 7 => Ok(Done)
0 clear_param 7 => Err(Bad)
1 timer 3 10 1 3 => Ok(Done)
1 timer 3 20 1 3 => Ok(Done)
1 timer 256 20 1 3 => Err(Bad)
2 fired 3 => Err(Bad)
0 clock 20 => Ok(Done)
1 fired 3 => Ok(Done)
1 del_timer 3 => Err(Bad)
0 clock 19 => Err(Bad)
0 clock 20 => Ok(Done)
1 lock 3 1 => Ok(Done)
1 lock 3 1 => Err(HeldBy(Who { owner: 1, task: 1 }))
2 lock 3 2 => Err(HeldBy(Who { owner: 1, task: 1 }))
1 unlock 3 2 => Err(Unheld)
1 unlock 3 1 => Ok(Done)
0 lock 3 0 => Ok(Done)
2 lock 64 1 => Err(Bad)
2 unlock -1 1 => Err(Bad)
1 mask 0 => Ok(Done)
1 mask 0 => Err(Busy)
1 unmask 1 => Err(Unheld)
1 unmask 0 => Ok(Done)
1 hold 64 => Err(Bad)
1 hold 63 => Ok(Done)
2 drop_hold 63 => Err(Bad)
1 drop_hold 63 => Ok(Done)
1 work 1 1 => Ok(Done)
2 work 2 2 => Ok(Done)
2 taken => Err(Bad)
1 taken => Ok(Done)
1 taken => Err(Bad)
2 taken => Ok(Done)
2 taken => Err(Bad)
1 grant 2 12 1 1 => Ok(Base(16))
1 grant 0 1 40 0 => Ok(Base(32))
2 grant 0 1 5 0 => Ok(Base(16))
1 free 16 => Err(NotBlock)
1 free 32 => Ok(Done)
1 free 32 => Err(Freed)
1 free 33 => Err(NotBlock)
2 free 32 => Err(NotBlock)
1 grant 0 1 0 0 => Err(NoRoom)
1 grant 0 1 1 0 => Ok(Base(80))
2 grant 0 1 1048545 0 => Err(NoRoom)
2 grant 0 1 1048544 0 => Ok(Base(32))
2 grant 0 1 1 0 => Err(NoRoom)
5 device 0 => improper
0 device 0 => improper
0 lock 0 1 => improper
0 taken => improper
1 clock 1 => improper
1 mask 9 => improper
1 grant 0 0 1 0 => improper
";

/// One history of three drivers and the kernel. A row `row K` tells which row the tables show at that place: all of them at six points,
/// behind lines, ports and devices; parameters; timers and the clock; locks and masks; holds and work; and blocks.
pub(crate) const SHOWN: &str = "\
2 line 7 3 => Ok(Done)
1 line 7 4 => Err(Busy)
0 line 2 0 => Ok(Done)
1 ports 96 8 => Ok(Done)
3 ports 100 1 => Err(Busy)
3 ports 16 2 => Ok(Done)
2 device 1000 => Ok(Done)
1 del_device 1000 => Err(Bad)
2 free_line 7 => Ok(Done)
1 line 7 4 => Ok(Done)
3 drop_ports 16 2 => Ok(Done)
1 drop_ports 96 8 => Ok(Done)
row 0 => Some(Line { line: 2, owner: 0, handler: 0 })
row 1 => Some(Line { line: 7, owner: 1, handler: 4 })
row 2 => Some(Device { id: 1000, owner: 2 })
row 3 => Some(Clock { now: 0 })
row 4 => None
1 param 9 -7 => Ok(Done)
2 param 9 50 => Ok(Done)
1 param 9 8 => Ok(Done)
1 clear_param 9 => Ok(Done)
3 param 1 0 => Ok(Done)
2 del_device 1000 => Ok(Done)
2 clear_param 9 => Ok(Done)
row 0 => Some(Line { line: 2, owner: 0, handler: 0 })
row 1 => Some(Line { line: 7, owner: 1, handler: 4 })
row 2 => Some(Param { key: 1, value: 0, owner: 3 })
row 3 => Some(Clock { now: 0 })
row 4 => None
2 timer 3 20 6 -1 => Ok(Done)
1 timer 200 5 2 0 => Ok(Done)
2 timer 3 30 6 1 => Ok(Done)
0 clock 5 => Ok(Done)
1 fired 200 => Ok(Done)
0 clock 4 => Err(Bad)
row 0 => Some(Line { line: 2, owner: 0, handler: 0 })
row 1 => Some(Line { line: 7, owner: 1, handler: 4 })
row 2 => Some(Param { key: 1, value: 0, owner: 3 })
row 3 => Some(Timer { owner: 2, id: 3, due: 30, handler: 6, arg: 1 })
row 4 => Some(Clock { now: 5 })
row 5 => None
2 lock 63 4 => Ok(Done)
1 lock 63 1 => Err(HeldBy(Who { owner: 2, task: 4 }))
0 lock 0 0 => Ok(Done)
1 mask 8 => Ok(Done)
2 mask 0 => Ok(Done)
1 mask 8 => Err(Busy)
2 unlock 63 4 => Ok(Done)
1 unmask 8 => Ok(Done)
row 0 => Some(Line { line: 2, owner: 0, handler: 0 })
row 1 => Some(Line { line: 7, owner: 1, handler: 4 })
row 2 => Some(Param { key: 1, value: 0, owner: 3 })
row 3 => Some(Timer { owner: 2, id: 3, due: 30, handler: 6, arg: 1 })
row 4 => Some(Lock { lock: 0, who: Who { owner: 0, task: 0 } })
row 5 => Some(Mask { who: Who { owner: 2, task: 0 } })
row 6 => Some(Clock { now: 5 })
row 7 => None
1 hold 4 => Ok(Done)
2 hold 4 => Ok(Done)
3 hold 6 => Ok(Done)
3 drop_hold 6 => Ok(Done)
2 work 1 10 => Ok(Done)
1 work 2 20 => Ok(Done)
1 taken => Err(Bad)
2 taken => Ok(Done)
1 drop_hold 4 => Ok(Done)
3 drop_hold 4 => Err(Bad)
row 0 => Some(Line { line: 2, owner: 0, handler: 0 })
row 1 => Some(Line { line: 7, owner: 1, handler: 4 })
row 2 => Some(Param { key: 1, value: 0, owner: 3 })
row 3 => Some(Timer { owner: 2, id: 3, due: 30, handler: 6, arg: 1 })
row 4 => Some(Lock { lock: 0, who: Who { owner: 0, task: 0 } })
row 5 => Some(Mask { who: Who { owner: 2, task: 0 } })
row 6 => Some(Hold { domain: 4, n: 1 })
row 7 => Some(Work { owner: 1, handler: 2, arg: 20 })
row 8 => Some(Clock { now: 5 })
row 9 => None
2 grant 0 1 5 1 => Ok(Base(16))
1 grant 0 1 5 1 => Ok(Base(16))
1 grant 1 4 3 0 => Ok(Base(32))
3 grant 2 12 1 1 => Ok(Base(16))
1 free 32 => Ok(Done)
1 grant 1 4 1 0 => Ok(Base(48))
1 free 16 => Err(NotBlock)
2 free 32 => Err(NotBlock)
row 0 => Some(Block { owner: 1, base: 16, size: 5, state: Image })
row 1 => Some(Block { owner: 1, base: 32, size: 12, state: Freed })
row 2 => Some(Block { owner: 1, base: 48, size: 4, state: Live })
row 3 => Some(Block { owner: 2, base: 16, size: 5, state: Image })
row 4 => Some(Block { owner: 3, base: 16, size: 12, state: Image })
row 5 => Some(Line { line: 2, owner: 0, handler: 0 })
row 6 => Some(Line { line: 7, owner: 1, handler: 4 })
row 7 => Some(Param { key: 1, value: 0, owner: 3 })
row 8 => Some(Timer { owner: 2, id: 3, due: 30, handler: 6, arg: 1 })
row 9 => Some(Lock { lock: 0, who: Who { owner: 0, task: 0 } })
row 10 => Some(Mask { who: Who { owner: 2, task: 0 } })
row 11 => Some(Hold { domain: 4, n: 1 })
row 12 => Some(Work { owner: 1, handler: 2, arg: 20 })
row 13 => Some(Clock { now: 5 })
row 14 => None
";

/// Updates of three owners, before what only reads is asked.
pub(crate) const READ: &str = "\
1 grant 0 1 5 0
1 line 9 4
2 line 9 6
1 ports 64 8
1 param 5 2
2 param 5 -3
2 timer 0 7 8 -2
1 timer 9 7 8 -2
1 timer 3 7 8 -2
3 timer 1 90 8 -2
1 lock 3 2
2 mask 0
1 hold 63
0 hold 63
1 work 6 1
2 work 7 2
";

/// One more of each kind that an owner can have many of.
pub(crate) const ONE_MORE: &str = "\
3 grant 0 1 1 0 => Err(NoRoom)
3 line 0 0 => Err(Busy)
3 ports 0 1 => Err(Full)
3 device 0 => Err(Full)
3 param 32 0 => Err(Full)
3 timer 64 5 0 0 => Err(Full)
3 hold 0 => Err(Full)
3 work 0 0 => Err(Full)
3 mask 0 => Err(Busy)
";
