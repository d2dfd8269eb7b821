ghost use Rattle.std.specs.Prelude.{◌≡◌};
ghost use Rattle.std.specs.Option.{option_map};
ghost use Rattle.view_command_line.specs.Request.{behind_one, behind_three, behind_two, form_of_two, form_of_word, in_form, named, request_by, request_of};

use flash_picture::Selection;
use host_protocol::number;

/// How a picture is said.
#[derive(Clone, Copy, PartialEq, Eq)]
pub enum Form {
    /// As lines of text.
    Text,
    /// In SVG.
    Svg,
    /// As lines for the slots of a selection alone.
    Selected(Selection),
}

/// What the program is asked for: a picture of an image file.
#[derive(Clone, Copy)]
pub struct View<'a> {
    /// The name of the file.
    pub image: &'a str,
    /// How the picture is said.
    pub form: Form,
    /// Whether an image that is not sound is drawn all the same.
    pub unsound: bool,
}

/// What the words ask for, if they are in the table.
pub fn parse_words(words: &[String]) -> Option<View<'_>>
    ensures { option_map request_of result ≡ request_by words.now }
{
    match words {
        [image] => of_file(Form::Text, false, image),
        [option, image] => by_one(option, image),
        [first, second, image] => by_two(first, second, image),
        [first, second, third, image] => by_three(first, second, third, image),
        _ => None,
    }
}

/// What a name asks for behind this option.
fn by_one<'a>(option: &str, word: &'a str) -> Option<View<'a>>
    ensures { option_map request_of result ≡ behind_one option.now word.now }
{
    match option {
        "--unsound" => of_file(Form::Text, true, word),
        _ => in_form(form_of_word(option), false, word),
    }
}

/// What a name asks for behind these two words.
fn by_two<'a>(first: &str, second: &str, word: &'a str) -> Option<View<'a>>
    ensures { option_map request_of result ≡ behind_two first.now second.now word.now }
{
    match (first, second) {
        ("--unsound", _) => in_form(form_of_word(second), true, word),
        (_, "--unsound") => in_form(form_of_word(first), true, word),
        _ => in_form(form_of_two(first, second), false, word),
    }
}

/// What a name asks for behind these three words.
fn by_three<'a>(first: &str, second: &str, third: &str, word: &'a str) -> Option<View<'a>>
    ensures { option_map request_of result ≡ behind_three first.now second.now third.now word.now }
{
    match (first, third) {
        ("--unsound", _) => in_form(form_of_two(second, third), true, word),
        (_, "--unsound") => in_form(form_of_two(first, second), true, word),
        _ => None,
    }
}

/// The form that an option of one word asks for.
fn form_of_word(option: &str) -> Option<Form>
    ensures { result ≡ form_of_word option.now }
{
    match option {
        "--svg" => Some(Form::Svg),
        "--loose" => Some(Form::Selected(Selection::Loose)),
        _ => None,
    }
}

/// The form that an option asks for with the number behind it.
fn form_of_two(option: &str, word: &str) -> Option<Form>
    ensures { result ≡ form_of_two option.now word.now }
{
    match option {
        "--block" => Some(Form::Selected(Selection::Block(number(word.as_bytes())?))),
        "--page" => Some(Form::Selected(Selection::Page(number(word.as_bytes())?))),
        _ => None,
    }
}

/// The picture in a form, if there is one, of the file of this name.
fn in_form(form: Option<Form>, unsound: bool, word: &str) -> Option<View<'_>>
    ensures { option_map request_of result ≡ in_form form unsound word.now }
{
    match form {
        Some(form) => of_file(form, unsound, word),
        None => None,
    }
}

/// The picture of the file of this name, which has at least one byte.
fn of_file(form: Form, unsound: bool, word: &str) -> Option<View<'_>>
    ensures { option_map request_of result ≡ named form unsound word.now }
{
    if word.is_empty() {
        None
    } else {
        Some(View {
            image: word,
            form,
            unsound,
        })
    }
}
