// Judges an element's value, after its inside.
ghost use Rattle.std.specs.Prelude.{ℕ, ◌≡◌, get_or};
ghost use Rattle.crmf.specs.steps.grammar.Packed.{packed};
ghost use Rattle.crmf.specs.steps.explain.Walk.{line, judged};

use crate::grammar::{codes, details, table, value};

// Judges a content by the line that the word packs. Answers the line to go on with, or request A9's detail of the rule that is broken.
pub(crate) fn judge_value(word: usize, content: &[u8]) -> Result<usize, usize>
    ensures { (k : ℕ) → word ≡ get_or packed k 0 → result ≡ judged (line k).judge (line k).next content.now }
{
    let code = table::judge_of(word);
    let next = table::next_of(word);
    if code < codes::SELECTORS {
        if value::keeps(code, content) {
            return Ok(next);
        }
        return Err(value::rule_detail(code, content));
    }
    let Some(way) = value::selected(code, content) else {
        return Err(details::VALUE_BROKEN);
    };
    Ok(table::next_of(table::word(next + way)))
}
