ghost use Rattle.std.specs.Prelude.{◌≡◌, ◌+◌, ◌≤◌, ◌++◌, length, take, decimal};
ghost use Rattle.tape.specs.Answers.{unknown_text, counts_text, area_text, transaction_text};

use crate::record::LONGEST_AREA;
use crate::text::Text;

impl Text {
    // The answer to a line that is no record.
    pub fn unknown() -> Text
        ensures { result ≡ unknown_text }
    {
        let mut text = Text::new();
        text.push(b"??");
        text
    }

    // The answer to a step or a power cycle.
    pub fn number(number: u8) -> Text
        ensures { result ≡ decimal number }
    {
        let mut text = Text::new();
        text.push_number(number);
        text
    }

    // The answer to a transaction, with the first 64 bytes of its area.
    #[tactic(auto, using(std::proofs::lemmas::List::take_min))]
    pub fn transaction(outcome: u8, driven: u8, area: &[u8]) -> Text
        ensures { result ≡ transaction_text outcome driven (take 64 area.now) }
    {
        let mut text = Text::counts(outcome, driven);
        text.push_area(&area[..LONGEST_AREA.min(area.len())]);
        text
    }

    // Outcome and driven count.
    fn counts(outcome: u8, driven: u8) -> Text
        ensures text { result ≡ counts_text outcome driven }
        ensures bound { length result ≤ 7 }
    {
        let mut text = Text::new();
        text.push_number(outcome);
        text.push(b" ");
        text.push_number(driven);
        text
    }

    // A number in decimal, without leading zeros.
    fn push_number(&mut self, number: u8)
        requires { length self.old + 3 ≤ 137 }
        ensures text { self.new ≡ self.old ++ decimal number }
        ensures bound { length self.new ≤ length self.old + 3 }
    {
        self.push_digits(number);
    }

    // Its digits, by hand: a crate that made them would be one more to trust.
    fn push_digits(&mut self, number: u8)
        requires { length self.old + length (decimal number) ≤ 137 }
        ensures { self.new ≡ self.old ++ decimal number }
    {
        if number < 10 {
            self.push_byte(b'0' + number);
            return;
        }
        self.push_digits(number / 10);
        self.push_byte(b'0' + number % 10);
    }

    // The area after a blank, or nothing if it is empty.
    fn push_area(&mut self, area: &[u8])
        requires { (length self.old ≤ 7) × (length area.now ≤ 64) }
        ensures { self.new ≡ self.old ++ area_text area.now }
    {
        if area.is_empty() {
            return;
        }
        self.push(b" ");
        self.push_hex(area);
    }
}
