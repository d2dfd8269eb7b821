//! Faults, and what is found out of them.

/// Calls that meet a fault, and those behind it.
pub const DOUBTS: &str = "\
    # Faults at the last program of a transaction, which then turns out to be there or not.\n\
    calls simple: write 1 0=7; fault 1 all; finish 1; read 0; badread 1; abort 1; abort 1; read 0; stats \
    => open; fault; blank; fault; late; page 7; stats written 1 open 0 pending 0 programs 0 erases 0 garbage 0\n\
    calls simple: write 1 0=7; fault 1 all; finish 1; step 1; step 1; read 0; stats \
    => open; fault; done; unknown; page 7; stats written 1 open 0 pending 0 programs 0 erases 0 garbage 0\n\
    calls simple: write 1 0=8; fault 1 bad; finish 1; finish 1; read 0; stats \
    => open; fault; done; page 8; stats written 1 open 0 pending 0 programs 1 erases 0 garbage 1\n\
    calls simple: write 1 0=8; fault 1 bad; finish 1; abort 1; read 0; stats \
    => open; fault; gone; blank; stats written 0 open 0 pending 0 programs 0 erases 0 garbage 1\n\
    calls simple: write 1 0=8; fault 1 none; finish 1; finish 1; read 0; stats \
    => open; fault; done; page 8; stats written 1 open 0 pending 0 programs 1 erases 0 garbage 0\n\
    calls simple: write 1 0=8; fault 1 none; finish 1; abort 1; read 0; stats \
    => open; fault; gone; blank; stats written 0 open 0 pending 0 programs 0 erases 0 garbage 0\n\
    # The page before the last one turns out to be written, and takes no program more. The step of another transaction \
    takes in the one in doubt, before it is cut. A collection takes it in, so that it is done without a program more, \
    or too late to give up.\n\
    calls simple: write 1 0=8 1=9; fault 1 all; step 1; read 0; step 1; stats; finish 1; read 0; read 1; \
    stats => open; fault; blank; wrote 1 2; stats written 0 open 1 pending 2 programs 0 erases 0 garbage 0; done; \
    page 8; page 9; stats written 2 open 0 pending 0 programs 1 erases 0 garbage 0\n\
    calls simple: write 1 0=7; fault 1 all; finish 1; write 2 1=9; cut 1 none; finish 2; read 0; read 1 \
    => open; fault; open; cut; page 7; blank\n\
    calls back_pointer: write 1 0=7; fault 1 all; finish 1; write 2 1=9; read 0; collect; read 0; step 1; step 2; \
    stats => open; fault; open; blank; nothing; page 7; done; done; stats written 2 open 0 pending 0 programs 1 erases \
    0 garbage 0\n\
    # A page whose two versions stand in one block, beside one that stands in another: the collection takes the first \
    block, copies the newer version and erases the block. It meets a fault at the copy or at the erase, and pages are \
    read while it is not known what that left, and after the next collection.\n\
    calls simple: write 1 0=1; step 1; write 2 1=2; step 2; write 3 0=3; step 3; fault 1 none; collect; read 0; \
    read 1; collect; read 0; read 1 \
    => open; done; open; done; open; done; fault; page 3; page 2; collected; page 3; page 2\n\
    calls simple: write 1 0=1; step 1; write 2 1=2; step 2; write 3 0=3; step 3; fault 1 all; collect; read 0; \
    read 1; collect; read 0; read 1 \
    => open; done; open; done; open; done; fault; page 3; page 2; collected; page 3; page 2\n\
    calls simple: write 1 0=1; step 1; write 2 1=2; step 2; write 3 0=3; step 3; fault 1 bad; collect; read 0; \
    read 1; collect; read 0; read 1 \
    => open; done; open; done; open; done; fault; page 3; page 2; collected; page 3; page 2\n\
    calls simple: write 1 0=1; step 1; write 2 1=2; step 2; write 3 0=3; step 3; fault 2 none; collect; read 0; \
    read 1; collect; read 0; read 1 \
    => open; done; open; done; open; done; fault; page 3; page 2; collected; page 3; page 2\n\
    calls simple: write 1 0=1; step 1; write 2 1=2; step 2; write 3 0=3; step 3; fault 2 all; collect; read 0; \
    read 1; collect; read 0; read 1 \
    => open; done; open; done; open; done; fault; page 3; page 2; nothing; page 3; page 2\n\
    calls simple: write 1 0=1; step 1; write 2 1=2; step 2; write 3 0=3; step 3; fault 2 bad; collect; read 0; \
    read 1; collect; read 0; read 1 \
    => open; done; open; done; open; done; fault; page 3; page 2; nothing; page 3; page 2\n\
    calls back_pointer: write 1 0=1; step 1; write 2 1=2; step 2; write 3 0=3; step 3; fault 1 none; collect; read 0; \
    read 1; collect; read 0; read 1 \
    => open; done; open; done; open; done; fault; page 3; page 2; collected; page 3; page 2\n\
    calls back_pointer: write 1 0=1; step 1; write 2 1=2; step 2; write 3 0=3; step 3; fault 1 all; collect; read 0; \
    read 1; collect; read 0; read 1 \
    => open; done; open; done; open; done; fault; page 3; page 2; collected; page 3; page 2\n\
    calls back_pointer: write 1 0=1; step 1; write 2 1=2; step 2; write 3 0=3; step 3; fault 1 bad; collect; read 0; \
    read 1; collect; read 0; read 1 \
    => open; done; open; done; open; done; fault; page 3; page 2; collected; page 3; page 2\n\
    calls back_pointer: write 1 0=1; step 1; write 2 1=2; step 2; write 3 0=3; step 3; fault 2 none; collect; read 0; \
    read 1; collect; read 0; read 1 \
    => open; done; open; done; open; done; fault; page 3; page 2; collected; page 3; page 2\n\
    calls back_pointer: write 1 0=1; step 1; write 2 1=2; step 2; write 3 0=3; step 3; fault 2 all; collect; read 0; \
    read 1; collect; read 0; read 1 \
    => open; done; open; done; open; done; fault; page 3; page 2; nothing; page 3; page 2\n\
    calls back_pointer: write 1 0=1; step 1; write 2 1=2; step 2; write 3 0=3; step 3; fault 2 bad; collect; read 0; \
    read 1; collect; read 0; read 1 \
    => open; done; open; done; open; done; fault; page 3; page 2; nothing; page 3; page 2";
