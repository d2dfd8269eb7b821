//! What tables hold, and which blocks must go and have the most garbage.

/// Tables by their names: what is changed in them, and what they hold then.
pub const TABLES: &str = "\
    # A record of page 0 with a copy in each of the blocks 0 to 2, a damaged slot, and an aborted record. Block 0 is the \
    spare. The home is outside the spare, and outside block 1 the copy in the spare is the lowest. The aborted record \
    goes by its own mention and by its link's.\n\
    tables doubled => spare 0; \
    page 0 1 1 4; off 0 1 1; page 1 0 3 -; off 1 1 -; page 2 0 7 -; off 2 1 -; page 3 0 0 -; off 3 1 -; \
    needed 12: 4; \
    garbage 0 0 0; garbage 1 1 2; garbage 2 2 3; garbage 3 0 3; \
    must_go 1 4 2; must_go 1 3 -; must_go 2 8 2; must_go 2 7 -; must_go 0 9 -\n\
    # While it is pinned the aborted record is needed. A copy of it raises no mention, and is garbage like the slot that \
    is damaged.\n\
    tables doubled => spare 0; \
    pin 1 2; pin 1 3; needed 12: 4 6; unpin 1; needed 12: 4; \
    slot 6 holds 1.3 2.7 0; copy 6 9; damage 10; slot 9 holds 1.3 2.7 0; slot 10 damaged; \
    page 1 0 3 -; off 1 1 -; page 2 0 7 -; off 2 1 -; \
    garbage 2 2 3; garbage 3 2 3\n\
    # Changes one after another, and after each of each block its blank slots, the block with the most garbage if all \
    blocks are shut, how much that is, the block with the most as they are, how much all have, and the blocks that hold \
    a record which must go before versions 4 and 3 of page 1. While page 1 is pinned at version 3, its aborted record is \
    needed. Where block 3 is the spare, page 0 is read in block 0, no more in block 1.\n\
    tables doubled => \
    spare 0; blanks 2 1 1 3; most 2; among 0 3; now 2 5; going 1 4: 2; going 1 3:; \
    pin 1 3; blanks 2 1 1 3; most 3; among 0 3; now 1 4; going 1 4: 2; going 1 3:; \
    slot 6 holds 1.3 2.7 0; copy 6 9; blanks 2 1 1 2; most 3; among 0 3; now 1 5; going 1 4: 2 3; going 1 3:; \
    damage 10; blanks 2 1 1 1; most 3; among 0 3; now 1 6; going 1 4: 2 3; going 1 3:; \
    spare 3; blanks 2 1 1 1; most 1; among 0 3; now 1 5; going 1 4: 2 3; going 1 3:; \
    pin 1 0; blanks 2 1 1 1; most 1; among 0 3; now 1 6; going 1 4: 2 3; going 1 3:; \
    spare 1; blanks 2 1 1 1; most 2; among 0 3; now 2 5; going 1 4: 2 3; going 1 3:; \
    slot 6 holds 1.3 2.7 0; copy 6 8; blanks 2 1 0 1; most 2; among 0 3; now 2 5; going 1 4: 2 3; going 1 3:\n\
    # A first record of a blank flash, and one that discards its page: it is needed, and its page is read nowhere.\n\
    tables first => page 0 0 0 -; off 0 1 -; page 2 5 5 9; off 2 1 9; needed 12: 9; garbage 2 0 3; garbage 3 0 2\n\
    tables discard => page 0 0 0 -; off 0 1 -; page 2 5 5 -; off 2 1 9; needed 12: 9; garbage 2 0 3; garbage 3 0 2\n\
    # The superseded record is needed while the aborted one stands.\n\
    tables held => spare 7; \
    page 0 0 1 -; off 0 1 -; page 1 3 3 1; off 1 1 1; page 2 3 3 19; off 2 1 19; \
    needed 32: 1 2 3 16 19; \
    garbage 0 1 1; garbage 4 2 2; garbage 5 0 4; garbage 7 0 0; \
    must_go 1 9 -; going 1 9:\n\
    # Seventeen blocks, all blank: one of them is alone in the second sixteen.\n\
    tables seventeen => \
    spare 0; most 1; among 0 2; among 1 2; now - 0; \
    spare 16; most 0; among 0 2; among 1 0; now - 0; \
    spare 3; most 0; among 0 2; among 1 2; now - 0";
