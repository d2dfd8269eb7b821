ghost use Rattle.std.specs.Prelude.{◌≡◌, ℕ, List, Option, IfOk};
ghost use Rattle.std.specs.Path.{path_buf_bytes};

use std::fs::Permissions;
use std::io;
use std::path::PathBuf;

/// What the system tells of a file, or of what else stands at a name.
#[derive(Drop)]
pub struct Found {
    /// Whether it is a plain file.
    pub is_file: bool,
    /// Whether it is a symbolic link.
    pub is_link: bool,
    /// How many names it has.
    pub names: u64,
    /// The device that it stands on.
    pub device: u64,
    /// Its number on that device.
    pub inode: u64,
    /// The user whose it is.
    pub user: u32,
    /// The group whose it is.
    pub group: u32,
    /// Who may do what with it.
    pub permissions: Permissions,
    /// How many bytes it has.
    pub size: u64,
    /// When it was last written, in seconds since 1970.
    pub seconds: i64,
    /// How many billionths of a second later.
    pub billionths: i64,
}

/// Who holds the lock of a file.
#[derive(Clone, Copy, PartialEq, Eq)]
pub enum Lock {
    /// The open file for which it was asked.
    Held,
    /// Another program, or another opening of the file.
    Elsewhere,
}

/// The calls of a file system that a load or a save makes, each of them one call of the system. What a
/// loss of power leaves after each is `Leaves` of the states that the folder tells.
pub trait Folder {
    ghost use Rattle.durable_folder.specs.Histories.{History, Giving, Leading, Named, Seen, Setting, Turns, end_at, file_at};
    ghost use Rattle.durable_folder.specs.Sights.{Sees, SeesLock};
    ghost use Rattle.durable_folder.specs.Calls.{Handle, Finds, FindsOpen, FindsFolder, Resolves, Opens, OpensFolder, OpensOrCreates, Creates, Reads, Locks, Writes, ResizesFile, SyncsFile, Seeks, Renames, Removes, Links, SyncsFolder, Stays};
    ghost use Rattle.durable_folder.specs.Counting.{answer_to, answer_to_find, answer_to_create, answer_to_rename, answer_to_give, answer_to_link, answer_to_lock, answer_to_open_folder, answer_to_sync_folder};

    /// A file that was opened.
    type File: Drop;

    /// A folder that was opened, to be synced.
    type Place: Drop;

    /// The states through which the folder went, if it tells them.
    ghost told: { Self → Option History };

    /// Which file was opened, and where the next bytes go.
    ghost handle: { Self.File → Handle };

    /// Which folder was opened.
    ghost place: { Self.Place → List ℕ };

    /// What stands at a name. A link is not followed.
    fn find(&mut self, name: &str) -> io::Result<Found>
        ensures { Turns (Finds name.now result) (answer_to_find result) (told self.old) (told self.new) };

    /// What is known of an open file.
    fn find_open(&mut self, file: &Self::File) -> io::Result<Found>
        ensures finds { Turns (FindsOpen (handle file.now) result) (answer_to result) (told self.old) (told self.new) }
        ensures sees { Sees (λ _. Seen (handle file.now).file) result (told self.old) (told self.new) };

    /// What is known of an open folder.
    fn find_folder(&mut self, folder: &Self::Place) -> io::Result<Found>
        ensures { Turns (FindsFolder (place folder.now) result) (answer_to result) (told self.old) (told self.new) };

    /// Where a link leads in the end.
    fn resolve(&mut self, name: &str) -> io::Result<PathBuf>
        ensures { Turns (Resolves path_buf_bytes name.now result) (answer_to_give (Leading (end_at name.now (told self.old))) result) (told self.old) (told self.new) };

    /// Opens a file for writing that is there. It is not truncated, and links are followed.
    fn open(&mut self, name: &str) -> io::Result<Self::File>
        ensures start { IfOk result (λ file. (handle file).offset ≡ 0) }
        ensures opens { Turns (Opens handle name.now result) (answer_to result) (told self.old) (told self.new) }
        ensures sees { Sees (λ file. Named (handle file).file) result (told self.old) (told self.new) };

    /// Opens a file for reading. Links are followed.
    fn open_to_read(&mut self, name: &str) -> io::Result<Self::File>
        ensures start { IfOk result (λ file. (handle file).offset ≡ 0) }
        ensures opens { Turns (Opens handle name.now result) (answer_to_find result) (told self.old) (told self.new) };

    /// Reads the bytes of a file from where the next ones come, or as many of them as this.
    fn read(&mut self, file: &mut Self::File, most: usize) -> io::Result<Vec<u8>>
        ensures { Turns (Reads (handle file.old) most result) (answer_to result) (told self.old) (told self.new) };

    /// Takes the lock of a file, which is held while the file is open, and does not wait for it.
    fn try_lock(&mut self, file: &mut Self::File) -> io::Result<Lock>
        ensures locks { Turns (Locks (handle file.old) (handle file.new) result) (answer_to_lock result) (told self.old) (told self.new) }
        ensures sees { SeesLock (handle file.old) result (told self.old) (told self.new) };

    /// Opens a file for writing, or makes it. It is not truncated, and links are followed.
    fn open_or_create(&mut self, name: &str) -> io::Result<Self::File>
        ensures start { IfOk result (λ file. (handle file).offset ≡ 0) }
        ensures opens { Turns (OpensOrCreates handle name.now result) (answer_to result) (told self.old) (told self.new) };

    /// Makes a file of this mode for writing, where there is nothing of its name.
    fn create_new(&mut self, name: &str, mode: u32) -> io::Result<Self::File>
        ensures { Turns (Creates handle name.now result) (answer_to_create name.now result) (told self.old) (told self.new) };

    /// Opens a folder.
    fn open_folder(&mut self, folder: &str) -> io::Result<Self::Place>
        ensures { Turns (OpensFolder place folder.now result) (answer_to_open_folder folder.now result) (told self.old) (told self.new) };

    /// Gives the file of this name to a user and a group.
    fn set_owner(&mut self, name: &str, user: u32, group: u32) -> io::Result<()>
        ensures { Turns Stays (answer_to_give (Giving (file_at name.now (told self.old)) user group) result) (told self.old) (told self.new) };

    /// Says who may do what with a file.
    fn set_permissions(&mut self, file: &Self::File, permissions: Permissions) -> io::Result<()>
        ensures { Turns Stays (answer_to_give (Setting (handle file.now).file) result) (told self.old) (told self.new) };

    /// Writes bytes where the next ones go.
    fn write(&mut self, file: &mut Self::File, bytes: &[u8]) -> io::Result<()>
        ensures same { (handle file.new).file ≡ (handle file.old).file }
        ensures writes { Turns (Writes (handle file.old) bytes.now result) (answer_to result) (told self.old) (told self.new) };

    /// Has the next bytes go to an offset from the start.
    fn seek(&mut self, file: &mut Self::File, offset: u64) -> io::Result<()>
        ensures same { (handle file.new).file ≡ (handle file.old).file }
        ensures seeks { Turns (Seeks (handle file.new) offset result) (answer_to result) (told self.old) (told self.new) };

    /// Gives a file a length in bytes.
    fn set_length(&mut self, file: &Self::File, length: u64) -> io::Result<()>
        ensures { Turns (ResizesFile (handle file.now).file length result) (answer_to result) (told self.old) (told self.new) };

    /// Waits until the bytes of a file are in the system's store.
    fn sync(&mut self, file: &Self::File) -> io::Result<()>
        ensures { Turns (SyncsFile (handle file.now).file result) (answer_to result) (told self.old) (told self.new) };

    /// Puts a file at another name, in the place of what is there.
    fn rename(&mut self, from: &str, to: &str) -> io::Result<()>
        ensures { Turns (Renames from.now to.now result) (answer_to_rename from.now to.now result) (told self.old) (told self.new) };

    /// Gives a file a second name, where nothing is of that name.
    fn link(&mut self, from: &str, to: &str) -> io::Result<()>
        ensures { Turns (Links from.now to.now result) (answer_to_link to.now result) (told self.old) (told self.new) };

    /// Waits until the names of a folder are in the system's store.
    fn sync_folder(&mut self, folder: &Self::Place) -> io::Result<()>
        ensures { Turns (SyncsFolder (place folder.now) result) (answer_to_sync_folder (place folder.now) result) (told self.old) (told self.new) };

    /// Removes a name.
    fn remove(&mut self, name: &str) -> io::Result<()>
        ensures { Turns (Removes name.now result) (answer_to result) (told self.old) (told self.new) };
}
