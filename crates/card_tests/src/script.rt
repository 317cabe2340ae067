use card::store_card::StoreCard;
use rules::refusal::outcome_number;

// One call of a script, with the number that it answers: data, since a table holds no closures.
#[derive(Clone, Copy)]
pub(crate) enum Line<'a> {
    // a transaction with /WP high, and one with /WP low
    High(&'a [u8], u8),
    Low(&'a [u8], u8),
    // a transaction with an area of one byte, and what stands in it then
    Shows(&'a [u8], u8),
    Step(u8),
    Power,
}

// Whether the card answers this line.
fn answers<C: StoreCard>(card: &mut C, line: Line<'_>) -> bool {
    match line {
        Line::High(sent, number) => outcome_number(card.transact(sent, false, &mut [])) == number,
        Line::Low(sent, number) => outcome_number(card.transact(sent, true, &mut [])) == number,
        Line::Shows(sent, byte) => {
            let mut area = [0];
            card.transact(sent, false, &mut area).is_ok() && area[0] == byte
        }
        Line::Step(left) => card.step() == left,
        Line::Power => card.power_cycle() == 0,
    }
}

// How many lines the card answers before the first that it does not.
pub(crate) fn right_lines<C: StoreCard>(card: &mut C, lines: &[Line<'_>]) -> usize {
    lines
        .iter()
        .take_while(|line| answers(card, **line))
        .count()
}
