ghost use Rattle.std.specs.Prelude.{◌≡◌};
ghost use Rattle.grammar.specs.Grammar.{Exact};
ghost use Rattle.replay.specs.Reading.{Reading, at_start, after_byte, text_after_byte, text_at_end, after_end};
ghost use Rattle.replay.specs.Shown.{Shows};

use crate::lines::{is_begun, keep_byte, replay_kept};
use crate::reader::Reader;
use card::store_card::StoreCard;
use grammar::grammar_is_exact;
use tape::text::Text;

impl<C: StoreCard> Reader<C> {
    // At the start of a tape. Exactly the lines of the grammar will be records.
    pub fn new(card: C) -> Reader<C>
        ensures start { Shows C.chip result (at_start (C.chip card)) }
        ensures grammar { Exact }
    {
        let _exact = grammar_is_exact();
        Reader {
            card,
            line: Text::new(),
        }
    }

    // The next byte of a tape. A byte 0Ah ends a line, and gets the text of its answer.
    pub fn read(&mut self, byte: u8) -> Option<Text>
        ensures after { (s : Reading) → Shows C.chip self.old s → Shows C.chip self.new (after_byte s byte) }
        ensures text { (s : Reading) → Shows C.chip self.old s → result ≡ text_after_byte s byte }
    {
        if byte != b'\n' {
            keep_byte(&mut self.line, byte);
            return None;
        }
        let text = replay_kept(&mut self.card, &self.line);
        self.line = Text::new();
        Some(text)
    }

    // The end of the tape: a last line without 0Ah gets its answer too.
    pub fn finish(&mut self) -> Option<Text>
        ensures text { (s : Reading) → Shows C.chip self.old s → result ≡ text_at_end s }
        ensures after { (s : Reading) → Shows C.chip self.old s → Shows C.chip self.new (after_end s) }
    {
        if is_begun(&self.line) {
            return self.read(b'\n');
        }
        None
    }
}
