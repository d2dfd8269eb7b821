//! Two desks of the files of the system: what they answer, how a save asks for leave, and saves of a file that another
//! desk holds, or that was written since it was loaded.
use super::steps::are_done;
use desk_io::{LockFile, RealDesk, RealFolder};
use std::rt::Files;

/// The steps of two desks. A name of the most bytes has 127 letters of two bytes.
pub const DESKS: &str = "\
    # A file is saved that is not there, and then saved again, and nothing is left beside it. A desk meets a fault at \
    a folder in place of a file, in a folder that is not there, and on a device that is full. A file without an end is \
    too long.\n\
    desks folder folder_of_the_desk_test; desk missing folder_of_the_desk_test/file; \
    desk save folder_of_the_desk_test/file some-bytes; desk load folder_of_the_desk_test/file some-bytes; \
    desk save folder_of_the_desk_test/file others; desk load folder_of_the_desk_test/file others; \
    desk long folder_of_the_desk_test/file others; absent folder_of_the_desk_test/file.saving; \
    desk broken folder_of_the_desk_test; desk unsaved folder_of_the_desk_test some-bytes; \
    desk unsaved folder_of_the_desk_test/none/file a; desk unsaved /dev/full some-bytes; desk endless /dev/zero; \
    desk say; removed folder_of_the_desk_test\n\
    # Files are saved twice under a long name; one that is read only by those alone who may write it, as the superuser \
    may; one in a folder that may not be written, in place; and none where all 99 names of new files are taken.\n\
    desks folder leave; \
    desk keep leave/éééééééééééééééééééééééééééééééééééééééééééééééééééééééééééééééé\
    ééééééééééééééééééééééééééééééééééééééééééééééééééééééééééééééé the-old-bytes; \
    desk keep leave/éééééééééééééééééééééééééééééééééééééééééééééééééééééééééééééééé\
    ééééééééééééééééééééééééééééééééééééééééééééééééééééééééééééééé new; \
    write leave/f the-old-bytes; chmod leave/f 444; superuser save leave/f new; superuser load leave/f new; \
    user unsaved leave/f new; user load leave/f the-old-bytes; mode leave/f 444; \
    chmod leave/f 644; chmod leave 555; desk save leave/f new; chmod leave 755; desk load leave/f new; \
    left leave/f; write leave/f.saving left; desk unsaved leave/f the-old-bytes; desk load leave/f new; \
    desk load leave/f.saving99 left; removed leave\n\
    # One of two desks saves a file twice that both have loaded, and the other one then may not. It saves the new file \
    once it has loaded it, while the first one is there.\n\
    desks folder holding; write holding/f the-old-bytes; desk load holding/f the-old-bytes; \
    other load holding/f the-old-bytes; desk save holding/f the-bytes-of-another-program; desk save holding/f new; \
    other unsaved holding/f the-old-bytes; other load holding/f new; other save holding/f the-old-bytes\n\
    # A file with two names is saved in place, and so is held by the first desk until it ends, whatever the second one \
    has loaded.\n\
    desks write holding/f the-old-bytes; twin holding/f holding/other; desk load holding/f the-old-bytes; \
    other load holding/f the-old-bytes; desk save holding/f the-bytes-of-another-program; desk save holding/f new; \
    other unsaved holding/f the-old-bytes; other load holding/f new; other unsaved holding/f the-old-bytes; end; \
    other save holding/f the-old-bytes\n\
    # A file stays that another program has written since it was loaded.\n\
    desks desk load holding/f the-old-bytes; write holding/f the-bytes-of-another-program; \
    desk unsaved holding/f new; has holding/f the-bytes-of-another-program\n\
    # So does one that another desk has saved, which then ended, also where a second file was loaded after it.\n\
    desks write holding/g the-old-bytes; other load holding/f the-bytes-of-another-program; \
    other load holding/g the-old-bytes; desk save holding/f new; end; other unsaved holding/f the-old-bytes; \
    has holding/f new; removed holding";

/// Whether the steps of a text are done by a folder and two desks over a system.
pub fn are_done_over<R: Files + AllocGlobal>(rt: &HostRuntime, system: &R, text: &str) -> bool
where
    R::File: LockFile,
{
    let mut folder = RealFolder { rt: system };
    let mut first = Some(RealDesk::new(rt, RealFolder { rt: system }));
    let mut second = Some(RealDesk::new(rt, RealFolder { rt: system }));
    let are_done = are_done(rt, &mut folder, &mut first, &mut second, text);
    drop(first);
    drop(second);
    are_done
}
