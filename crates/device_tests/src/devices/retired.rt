//! Blocks of a device that are retired, and retirements that are cut or broken.

/// Calls that retire blocks.
pub const RETIRED: &str = "\
    # As many blocks are retired as the flash allows, and a block that does not exist is refused first.\n\
    calls simple 1: write 1 0=65; finish 1; retire 8; retire 0; read 0; retire 1; retire 8; stats => open; done; \
    range; retired; page 65; worn 1; range; stats written 1 open 0 pending 0 programs 2 erases 0 garbage 0\n\
    # A block with one record is retired, and the second operation is the retirement. It is cut, and done again once \
    power is on.\n\
    calls simple 1: write 1 0=65; finish 1; cut 2 none; retire 0; read 0; retire 0 \
    => open; done; cut; page 65; retired\n\
    calls simple 1: write 1 0=65; finish 1; cut 2 bad; retire 0; read 0; retire 0 => open; done; cut; page 65; worn 1\n\
    calls simple 1: write 1 0=65; finish 1; cut 2 all; retire 0; read 0; retire 0 => open; done; cut; page 65; worn 1\n\
    # After a fault the same device goes on: it finds out whether the block was replaced.\n\
    calls simple 2: write 1 0=7; finish 1; fault 2 none; retire 0; read 0; retire 0; read 0; write 1 0=8; finish 1; \
    read 0 => open; done; fault; page 7; retired; page 7; open; done; page 8\n\
    calls simple 2: write 1 0=7; finish 1; fault 2 bad; retire 0; read 0; retire 0; read 0; write 1 0=8; finish 1; \
    read 0 => open; done; fault; page 7; retired; page 7; open; done; page 8\n\
    # A block all of whose slots are needed fills the spare, and writing goes on beside it.\n\
    calls small 3: write 1 0=1; finish 1; write 1 1=2; finish 1; retire 0; retire 0; read 0; read 1; write 1 1=3; \
    finish 1; write 1 1=4; finish 1; write 1 1=5; finish 1; read 0; read 1 \
    => open; done; open; done; retired; retired; page 1; page 2; open; done; open; done; open; done; page 1; page 5";
