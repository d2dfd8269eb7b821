//! What holds of all texts. The functions do nothing: each is there for what it ensures.
ghost use Rattle.std.specs.Prelude.{◌≡◌, ◌≤◌, ℕ, List, length, flat_map};
ghost use Rattle.std.specs.List.{AllByRecursion};
ghost use Rattle.host_protocol.specs.Files.{IsFile, IsFirstBad};
ghost use Rattle.host_protocol.specs.Replies.{text_of, IsLine, HasPage, max_reply_bytes};
ghost use Rattle.host_protocol.specs.declared.command.Command.{Command};
ghost use Rattle.host_protocol.specs.declared.reply.Reply.{Reply};

/// The law that a reader of commands rests on: bytes are a file of one list of commands at most, and
/// one line of them at most is the first bad one.
pub fn files_tell_commands()
    ensures commands { (size : ℕ) (bytes : List ℕ) (xs ys : List Command) →
        IsFile size bytes xs → IsFile size bytes ys → xs ≡ ys }
    ensures line { (size : ℕ) (bytes : List ℕ) (m n : ℕ) →
        IsFirstBad size bytes m → IsFirstBad size bytes n → m ≡ n }
{}

/// The law that a reader of replies rests on: bytes are the lines of one list of replies at most, where none
/// is a report. A report's text is free, and may be that of other replies.
pub fn lines_tell_replies()
    ensures { (xs ys : List Reply) → AllByRecursion IsLine xs → AllByRecursion IsLine ys
        → flat_map text_of xs ≡ flat_map text_of ys → xs ≡ ys }
{}

/// The line of a reply, with its line feed, is short, where it is no report and a page is not longer than
/// the pages of a device.
pub fn lines_are_short()
    ensures { (what : Reply) → IsLine what → HasPage what →
        length (text_of what) ≤ max_reply_bytes }
{}
