// The mark of an element in a line's form: it may hang on the element's value.
ghost use Rattle.std.specs.Prelude.{ℕ, ◌≡◌, get_or};
ghost use Rattle.crmf.specs.meaning.Notation.{mark_of};
ghost use Rattle.crmf.specs.steps.grammar.Packed.{packed, mark_code};
ghost use Rattle.crmf.specs.steps.explain.Walk.{line};

use crate::grammar::{codes, table, value};

// The code of the mark that an element with the content has in the form of the line that the word packs: the edition that alone allows it and
// the difference; 0 if both editions allow it.
// No Option: the code is what the line packs, and each caller asks of it by one division; a struct would be made to be taken apart at once.
pub(crate) fn mark_of(word: usize, content: &[u8]) -> usize
    ensures { (k : ℕ) → word ≡ get_or packed k 0 → result ≡ mark_code (mark_of (line k).marking content.now) }
{
    let code = table::marking_of(word);
    if code < codes::UNLESS_TWO {
        return code;
    }
    if value::is_two(content) {
        return 0;
    }
    code - codes::UNLESS_TWO
}
