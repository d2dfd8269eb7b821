ghost use Rattle.std.specs.Prelude.{◌≡◌, Ok, IfOk, IfErr};
ghost use Rattle.tx_types.specs.Config.{checked, shape_of};
ghost use Rattle.mem_flash.specs.MemFlashState.{loaded};
ghost use Rattle.durable_folder.specs.Histories.{Rests};
ghost use Rattle.desk_io.specs.Disk.{FindsBoth};
ghost use Rattle.program_base.specs.Loading.{Fetches, ImageStops, ReadsImage, RefusesImage};

use crate::refusal::ImageRefusal;
use crate::stop::ImageStop;
use desk_io::{Desk, LoadError};
use image_file::{ImageError, take_image};
use mem_flash::MemFlash;
use std::alloc::Global;
use tx_types::Config;

/// The bytes of a file.
pub fn load_file<'a, D: Desk>(name: &'a str, desk: &mut D) -> Result<Vec<u8>, ImageStop<'a>>
    ensures fetches { Fetches (FindsBoth (D.state desk.old) (D.disk desk.old))
        (D.state desk.old) (D.state desk.new) name.now result }
    ensures disk { Rests (D.disk desk.old) (D.disk desk.new) }
{
    desk.load(name).map_err(|error| match error {
        LoadError::Missing => ImageStop::Refused(ImageRefusal::Missing(name)),
        LoadError::TooLong => ImageStop::Refused(ImageRefusal::TooLong(name)),
        LoadError::Failed => ImageStop::Fault,
        LoadError::Memory => ImageStop::Memory,
    })
}

/// The configuration and the flash of an image file.
pub fn open_image(alloc: Global, bytes: Vec<u8>) -> Result<(Config, MemFlash), ImageStop<'static>>
    ensures read { IfOk result (λ d. ReadsImage bytes.items (Ok (d.0, d.1.image, d.1.extras))) }
    ensures check { IfOk result (λ d. checked d.0 ≡ Ok (shape_of d.0)) }
    ensures ready { IfOk result (λ d. d.1 ≡ loaded (shape_of d.0) d.1.image d.1.extras) }
    ensures err { IfErr result (ImageStops (RefusesImage bytes.items)) }
{
    match take_image(alloc, bytes) {
        Ok(device) => Ok(device),
        Err(ImageError::Memory) => Err(ImageStop::Memory),
        Err(rule) => Err(ImageStop::Refused(ImageRefusal::BadImage(rule))),
    }
}
