//! A device that is full, and one that is mounted again.

/// Calls of a full device, and of one that is mounted again.
pub const FULL: &str = "\
    # Each page is written, and then one page again and again, where only collections make room.\n\
    calls both: write 9 0=255; finish 9; write 9 1=255; finish 9; write 9 2=255; finish 9; write 9 3=255; finish 9; \
    write 9 4=255; finish 9; write 9 5=255; finish 9; write 9 6=255; finish 9; write 9 7=255; finish 9; \
    write 9 8=255; finish 9; write 9 9=255; finish 9; write 9 10=255; finish 9; write 9 11=255; finish 9; \
    write 9 12=255; finish 9; write 9 13=255; finish 9; write 9 14=255; finish 9; write 9 15=255; finish 9; \
    write 9 16=255; finish 9; write 9 17=255; finish 9; write 9 18=255; finish 9; write 9 19=255; finish 9; \
    write 9 0=1; finish 9; write 9 0=2; finish 9; write 9 0=3; finish 9; write 9 0=4; finish 9; write 9 0=5; \
    finish 9; write 9 0=6; finish 9; write 9 0=7; finish 9; write 9 0=8; finish 9; write 9 0=9; finish 9; \
    write 9 0=10; finish 9; write 9 0=11; finish 9; write 9 0=12; finish 9; write 9 0=13; finish 9; write 9 0=14; \
    finish 9; write 9 0=15; finish 9; write 9 0=16; finish 9; write 9 0=17; finish 9; write 9 0=18; finish 9; \
    write 9 0=19; finish 9; write 9 0=20; finish 9; write 9 0=21; finish 9; write 9 0=22; finish 9; write 9 0=23; \
    finish 9; write 9 0=24; finish 9; write 9 0=25; finish 9; write 9 0=26; finish 9; write 9 0=27; finish 9; \
    write 9 0=28; finish 9; read 0; read 19; stats => open; done; open; done; open; done; open; done; open; done; \
    open; done; open; done; open; done; open; done; open; done; open; done; open; done; open; done; open; done; open; \
    done; open; done; open; done; open; done; open; done; open; done; open; done; open; done; open; done; open; done; \
    open; done; open; done; open; done; open; done; open; done; open; done; open; done; open; done; open; done; open; \
    done; open; done; open; done; open; done; open; done; open; done; open; done; open; done; open; done; open; done; \
    open; done; open; done; open; done; open; done; open; done; page 28; page 255; \
    stats written 20 open 0 pending 0 programs 55 erases 7 garbage 7\n\
    # A mount that meets a fault gives the flash back, which is mounted then.\n\
    calls simple: write 9 3=5; finish 9; badread 2; mount; read 3; stats \
    => open; done; fault; page 5; stats written 1 open 0 pending 0 programs 1 erases 0 garbage 3";
