//! Calls and the answers that they must have.

/// Transactions that are written in turn, given up and cut.
pub const CALLS: &str = "\
    # Two transactions that are written in turn, and batches that are refused.\n\
    calls simple: read 19; read 20; step 4; abort 4; collect => blank; range; unknown; unknown; nothing\n\
    calls simple: write 1 0=1 1=2; write 2 2=3 3=4; step 2; step 1; step 2; read 0; read 2; step 1; read 0 \
    => open; open; wrote 1 2; wrote 1 2; done; blank; page 3; done; page 1\n\
    calls simple: write 1 5=1 6=2; write 2 5=2; write 1 7=0; write 2 7=1 7=2; write 2; write 2 20=1 7=1 7=2; \
    write 2 0=1 1=1 2=1 3=1 4=1 7=1 => open; overlap 5 1; tag; repeated 7; empty; range 20; full 5\n\
    calls simple: write 1 0=1 1=2 2=3; step 1; step 1; stats; abort 1; read 0; abort 1; write 1 3=4 => open; \
    wrote 1 3; wrote 2 3; stats written 0 open 1 pending 3 programs 2 erases 0 garbage 0; gone; blank; unknown; open\n\
    # A transaction that was given up, whose page is written again, under each protocol. Under Back Pointer Cyclic \
    Commit also a record that is kept for the one that was given up.\n\
    calls simple: write 1 0=1 1=2; step 1; abort 1; write 2 0=3; finish 2; stats; found => open; wrote 1 2; gone; \
    open; done; stats written 1 open 0 pending 0 programs 2 erases 1 garbage 0; records 16:0.2\n\
    calls back_pointer: write 1 0=1 1=2; step 1; abort 1; write 2 0=3; finish 2; stats; found => open; wrote 1 2; \
    gone; open; done; stats written 1 open 0 pending 0 programs 2 erases 0 garbage 1; records 0:0.1 16:0.2\n\
    calls back_pointer: write 1 0=170 1=187; step 1; abort 1; write 2 1=204; finish 2; write 3 1=221; finish 3; \
    write 4 2=1; finish 4; write 5 3=2; finish 5; write 6 2=3; finish 6; write 7 4=4; finish 7; write 8 2=5; \
    finish 8; stats; collect; stats; cut 1 none; write 9 5=6; finish 9; read 0; read 1; found => open; wrote 1 2; \
    gone; open; done; open; done; open; done; open; done; open; done; open; done; open; done; \
    stats written 4 open 0 pending 0 programs 8 erases 0 garbage 3; collected; \
    stats written 4 open 0 pending 0 programs 10 erases 1 garbage 1; open; cut; blank; page 221; \
    records 0:0.1 1:1.3 2:3.1 3:4.1 28:1.2 29:2.3\n\
    # Power cuts: at the last program of a transaction and before it, and in a collection at a copy, at a copy after \
    the spare was erased, and at the erase of the block.\n\
    calls simple: write 1 0=10 1=11 2=12; cut 3 all; finish 1; read 0; read 2 => open; cut; page 10; page 12\n\
    calls simple: write 1 0=10 1=11 2=12; cut 3 bad; finish 1; read 0; read 2 => open; cut; blank; blank\n\
    calls simple: write 1 0=10 1=11 2=12; cut 3 none; finish 1; read 0; read 2 => open; cut; blank; blank\n\
    calls simple: write 1 0=10 1=11 2=12; cut 2 all; finish 1; read 0; read 2; step 1 \
    => open; cut; blank; blank; unknown\n\
    calls small: write 1 0=1; finish 1; write 2 1=2; finish 2; write 3 0=3; finish 3; write 4 0=4; finish 4; \
    cut 1 bad; write 5 1=5; finish 5; cut 2 bad; write 5 1=5; finish 5; cut 3 bad; write 5 1=5; finish 5; \
    write 5 1=5; finish 5; read 0; read 1; stats => open; done; open; done; open; done; open; done; open; cut; open; \
    cut; open; cut; open; done; page 4; page 5; stats written 2 open 0 pending 0 programs 7 erases 4 garbage 2";
