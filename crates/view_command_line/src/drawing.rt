ghost use Rattle.std.specs.Prelude.{◌≡◌, ◌++◌, Ok, IfOk, IfErr, OnOk, length};
ghost use Rattle.tx_types.specs.Config.{checked, shape_of, slots_of};
ghost use Rattle.mem_flash.specs.MemFlashState.{loaded};
ghost use Rattle.program_base.specs.Loading.{ImageStops};
ghost use Rattle.view_command_line.specs.Ending.{Drawing, Gives, Opens, Refused, picture_in};

use crate::opening::{Opening, notes, open};
use crate::words::Form;
use flash_picture::{Marks, draw, draw_overview, draw_selected, draw_svg};
use judged_records::Note;
use mem_flash::MemFlash;
use program_base::{ImageRefusal, ImageStop, open_image};
use std::alloc::Global;
use tx_types::{Config, Memory};

/// A flash of more slots is drawn as an overview.
const MOST_DRAWN: usize = 512;

/// The picture of an image file, from its bytes on. One that is not sound is drawn only where that is asked for.
pub fn draw_image(
    alloc: Global,
    bytes: Vec<u8>,
    form: Form,
    unsound: bool,
) -> Result<Vec<u8>, ImageStop<'static>>
    ensures text { IfOk result (λ text. Gives (Drawing form unsound bytes.items) text.items) }
    ensures err { IfErr result
        (ImageStops (λ why. Drawing form unsound bytes.items (Refused why))) }
{
    let (config, mut flash) = open_image(alloc, bytes)?;
    let picture = draw_flash(alloc, config, &mut flash, form, unsound);
    drop(flash);
    picture
}

/// The picture of the device of a flash.
fn draw_flash(
    alloc: Global,
    config: Config,
    flash: &mut MemFlash,
    form: Form,
    unsound: bool,
) -> Result<Vec<u8>, ImageStop<'static>>
    requires check { checked config ≡ Ok (shape_of config) }
    requires ready { flash.old ≡ loaded (shape_of config) flash.old.image flash.old.extras }
    ensures text { IfOk result (λ text.
        Gives (Opens form unsound config flash.old.image) text.items) }
    ensures err { IfErr result
        (ImageStops (λ why. Opens form unsound config flash.old.image (Refused why))) }
{
    let notes = notes(alloc, config.protocol, flash)?;
    match open(alloc, config, flash)? {
        Opening::Sound(block) => {
            let marks = Marks {
                spare: Some(block),
                breach: None,
            };
            text(alloc, config, &notes, marks, form)
        }
        Opening::Unsound(breach) => {
            if unsound {
                let marks = Marks {
                    spare: None,
                    breach: Some(breach),
                };
                text(alloc, config, &notes, marks, form)
            } else {
                Err(ImageStop::Refused(ImageRefusal::Unsound(breach)))
            }
        }
    }
}

/// The picture of a device whose slots are noted so.
fn text(
    alloc: Global,
    config: Config,
    notes: &[Note],
    marks: Marks,
    form: Form,
) -> Result<Vec<u8>, ImageStop<'static>>
    requires check { checked config ≡ Ok (shape_of config) }
    requires whole { length notes.now ≡ slots_of (shape_of config) }
    ensures text { IfOk result (λ text. text.items ≡ picture_in form config notes.now marks) }
    ensures err { IfErr result (λ e. e ≡ ImageStop.Memory) }
{
    let mut text = Vec::new(alloc);
    match form {
        Form::Text => draw_text(alloc, config, notes, marks, &mut text)?,
        Form::Svg => draw_in_svg(alloc, config, notes, marks, &mut text)?,
        Form::Selected(selection) => {
            draw_selected(alloc, config, notes, marks, selection, &mut text)?
        }
    }
    Ok(text)
}

/// Appends the picture of a device as text, or its overview where it has many slots.
fn draw_text(
    alloc: Global,
    config: Config,
    notes: &[Note],
    marks: Marks,
    text: &mut Vec<u8>,
) -> Result<(), Memory>
    requires check { checked config ≡ Ok (shape_of config) }
    requires whole { length notes.now ≡ slots_of (shape_of config) }
    ensures { OnOk result (text.new.items
        ≡ text.old.items ++ picture_in Form.Text config notes.now marks) }
{
    if notes.len() > MOST_DRAWN {
        draw_overview(alloc, config, notes, marks, false, text)
    } else {
        draw(alloc, config, notes, marks, text)
    }
}

/// Appends the same in SVG.
fn draw_in_svg(
    alloc: Global,
    config: Config,
    notes: &[Note],
    marks: Marks,
    text: &mut Vec<u8>,
) -> Result<(), Memory>
    requires check { checked config ≡ Ok (shape_of config) }
    requires whole { length notes.now ≡ slots_of (shape_of config) }
    ensures { OnOk result (text.new.items
        ≡ text.old.items ++ picture_in Form.Svg config notes.now marks) }
{
    if notes.len() > MOST_DRAWN {
        draw_overview(alloc, config, notes, marks, true, text)
    } else {
        draw_svg(alloc, config, notes, marks, text)
    }
}
