ghost use Rattle.durable_folder.specs.Histories.{Rests};
ghost use Rattle.desk_io.specs.Disk.{FindsBoth};
ghost use Rattle.desk_tasks.specs.TwoFiles.{LoadsBoth};

use desk_io::Desk;
use program_base::{ImageStop, load_file};

/// The bytes of an image file, and of the file of text that is loaded after it.
pub fn load_both<'a, D: Desk>(
    image: &'a str,
    text: &'a str,
    desk: &mut D,
) -> Result<(Vec<u8>, Vec<u8>), ImageStop<'a>>
    ensures loads { LoadsBoth (FindsBoth (D.state desk.old) (D.disk desk.old))
        (D.state desk.old) (D.state desk.new) image.now text.now result }
    ensures disk { Rests (D.disk desk.old) (D.disk desk.new) }
{
    let bytes = load_file(image, desk)?;
    let lines = load_file(text, desk)?;
    Ok((bytes, lines))
}
