// Argument 0 of a message.

ghost use Rattle.std.specs.Prelude.{◌≡◌, Some, option_map};
ghost use Rattle.message_value.specs.ShownArguments.{shown_arg};
ghost use Rattle.message_view.specs.Message.{Message};
ghost use Rattle.message_view.specs.Valid.{Valid};
ghost use Rattle.match_rule.specs.Arguments.{text_in};
ghost use Rattle.match_rule.specs.FixedTexts.{arg0_of, string_in};

use message_view::{Arg, View};

/// The text of an argument, where it is a string.
fn string_of<'a>(arg: Arg<'a>) -> Option<&'a str>
    ensures { option_map (λ text. text.now) result ≡ string_in (text_in (Some (shown_arg arg.entry))) }
{
    match arg.text {
        Some(text) => { if arg.code == b's' { Some(text) } else { None } }
        None => None,
    }
}

/// Argument 0 of a message, where it is a string, as the key `arg0` compares it.
pub fn arg0_of<'a>(view: &View<'a>) -> Option<&'a str>
    ensures { (m : Message) → Valid view.now m → option_map (λ text. text.now) result ≡ arg0_of m }
{
    let mut args = view.args();
    match args.next() {
        None => None,
        Some(arg) => string_of(arg),
    }
}
