ghost use Rattle.std.specs.Prelude.{◌≡◌, ℕ, not, List, [], ◌∷◌, ◌++◌, length, take, ◌==◌};
ghost use Rattle.replay.specs.Replayed.{chip_after_line, text_after_line};

use crate::replay::replay_line;
use card::store_card::StoreCard;
use tape::text::Text;

// One more byte of a line, of which the first 137 are kept.
pub(crate) fn keep_byte(line: &mut Text, byte: u8)
    ensures { (whole : List ℕ) → line.old ≡ take 137 whole → line.new ≡ take 137 (whole ++ (byte ∷ [])) }
{
    line.keep(byte);
}

// Makes the call of a line, of which the first 137 bytes are kept.
pub(crate) fn replay_kept<C: StoreCard>(card: &mut C, line: &Text) -> Text
    ensures chip { (whole : List ℕ) → line.now ≡ take 137 whole → C.chip card.new ≡ chip_after_line (C.chip card.old) whole }
    ensures text { (whole : List ℕ) → line.now ≡ take 137 whole → result ≡ text_after_line (C.chip card.old) whole }
{
    replay_line(card, line.as_bytes())
}

// Did something come since the last 0Ah?
pub(crate) fn is_begun(line: &Text) -> bool
    ensures { (whole : List ℕ) → line.now ≡ take 137 whole → result ≡ not (length whole == 0) }
{
    !line.as_bytes().is_empty()
}
