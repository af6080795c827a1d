//! The style of the records that a command writes.
ghost use Rattle.std.specs.Prelude.{◌≡◌};
ghost use Rattle.answer_print.specs.StyleView.{style_view};
ghost use Rattle.cmd_words.specs.ArgumentMeaning.{words_view};
ghost use Rattle.verdict.specs.Output.{style_of};
ghost use Rattle.command_input.specs.Tasks.{words_of};

use answer_print::Style;
use cmd_words::Words;

/// The style that the words ask for, without the name of a cursor.
pub(crate) fn style_in(words: &Words) -> Style<'static>
    ensures { style_view result ≡ style_of (words_of (words_view words.now)) }
{
    Style {
        ranks: words.ranks,
        rows: words.rows,
        cursor: None,
    }
}
