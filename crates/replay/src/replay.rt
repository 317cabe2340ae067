ghost use Rattle.std.specs.Prelude.{◌≡◌, ◌≤◌, length};
ghost use Rattle.rules.specs.Calls.{transact as transacted};
ghost use Rattle.tape.specs.Views.{asked, asked_of, Fits, FitsOf};
ghost use Rattle.replay.specs.Replayed.{reply_text, chip_after_request, text_after_request, chip_after_line, text_after_line};

use card::store_card::StoreCard;
use rules::refusal::outcome_number;
use tape::hex::decode;
use tape::parse::parse;
use tape::record::{LONGEST_AREA, MOST_SENT, Record, Transaction};
use tape::text::Text;

// Makes a transaction, and answers its text.
fn send<C: StoreCard>(card: &mut C, sent: &[u8], low: bool, area: &mut [u8]) -> Text
    requires { length area.old ≤ 64 }
    ensures chip { C.chip card.new ≡ (transacted (C.chip card.old) sent.now low (length area.old)).chip }
    ensures text { result ≡ reply_text (transacted (C.chip card.old) sent.now low (length area.old)) }
{
    let answer = card.transact(sent, low, area);
    let driven = answer.unwrap_or(0) as u8;
    Text::transaction(outcome_number(answer), driven, area)
}

// Makes the transaction of a record.
fn transact<C: StoreCard>(card: &mut C, asked: Transaction<'_>) -> Text
    requires { FitsOf asked }
    ensures chip { C.chip card.new ≡ chip_after_request (C.chip card.old) (asked_of asked.entry) }
    ensures text { result ≡ text_after_request (C.chip card.old) (asked_of asked.entry) }
{
    let mut sent = [0; MOST_SENT];
    let mut area = [0; LONGEST_AREA];
    let count = decode(asked.digits, &mut sent);
    send(
        card,
        &sent[..count],
        asked.low,
        &mut area[..asked.area_length],
    )
}

// Makes the call of a record, and answers its text.
fn perform<C: StoreCard>(card: &mut C, record: Record<'_>) -> Text
    requires { Fits «record» }
    ensures chip { C.chip card.new ≡ chip_after_request (C.chip card.old) (asked «record».entry) }
    ensures text { result ≡ text_after_request (C.chip card.old) (asked «record».entry) }
{
    match record {
        Record::Transaction(asked) => transact(card, asked),
        Record::Step => Text::number(card.step()),
        Record::Power => Text::number(card.power_cycle()),
    }
}

// Makes the call of a line, and answers its text. A line that is no record leaves the card as it is.
pub fn replay_line<C: StoreCard>(card: &mut C, line: &[u8]) -> Text
    ensures chip { C.chip card.new ≡ chip_after_line (C.chip card.old) line.now }
    ensures text { result ≡ text_after_line (C.chip card.old) line.now }
{
    match parse(line) {
        Some(record) => perform(card, record),
        None => Text::unknown(),
    }
}
