//! Several open transactions that go on at once, and what is left where that is broken.

/// Calls that have all open transactions go on together.
pub const BATCHES: &str = "\
    # Two dies, and a third transaction that has to wait; a stepped one goes on with the others.\n\
    calls simple: write 1 0=1; write 2 1=2 2=3; stepall; read 0; read 1; stepall; read 1; stepall \
    => open; open; moved 2 finished 1; page 1; blank; moved 1 finished 1; page 2; moved 0 finished 0\n\
    calls back_pointer: write 1 0=1; write 2 1=2 2=3; write 3 3=4; stepall; stats; stepall; stats; read 0; read 2; \
    read 3 => open; open; open; moved 2 finished 1; stats written 1 open 2 pending 3 programs 2 erases 0 garbage 0; \
    moved 2 finished 2; stats written 4 open 0 pending 0 programs 4 erases 0 garbage 0; page 1; page 3; page 4\n\
    calls simple: write 1 0=1; stepall; write 2 0=2; write 3 1=3; stepall; read 0; read 1 \
    => open; moved 1 finished 1; open; open; moved 2 finished 2; page 2; page 3\n\
    calls simple: write 1 0=1 1=2; write 2 2=3; fault 1 all; step 1; stepall; stats; stepall; read 0; read 1; \
    read 2 => open; open; fault; moved 1 finished 0; stats written 0 open 2 pending 3 programs 0 erases 0 garbage 0; \
    moved 2 finished 2; page 1; page 2; page 3\n\
    # A fire is cut or broken: each of its programs by itself. A failed read drops the device too.\n\
    calls simple: write 1 0=1; write 2 1=2; cut 1 bad; stepall; read 0; read 1 => open; open; cut; blank; page 2\n\
    calls simple: write 1 0=1; write 2 1=2; fault 1 bad; stepall; read 0; read 1; step 1 \
    => open; open; dropped; blank; page 2; unknown\n\
    calls back_pointer: write 1 0=1; write 2 1=2; fault 1 none; stepall; read 0; read 1; stats \
    => open; open; dropped; blank; blank; stats written 0 open 0 pending 0 programs 0 erases 0 garbage 0\n\
    calls back_pointer: write 1 0=1; write 2 1=2; fault 1 all; stepall; read 0; read 1; stats \
    => open; open; dropped; page 1; page 2; stats written 2 open 0 pending 0 programs 0 erases 0 garbage 6\n\
    calls simple: write 1 0=1; fault 1 all; step 1; stepall; read 0 => open; fault; moved 1 finished 1; page 1\n\
    calls simple: write 1 0=1; fault 1 all; step 1; badread 1; stepall; read 0 => open; fault; dropped; page 1";
