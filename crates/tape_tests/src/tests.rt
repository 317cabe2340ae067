use crate::tables::{ANSWERS, NO_RECORDS, NUMBERS, TRANSACTIONS, Transaction};
use tape::hex::decode;
use tape::parse::parse;
use tape::record::Record;
use tape::text::Text;

// Does the line ask for just this transaction?
fn asks_for(wanted: &Transaction) -> bool {
    let Some(Record::Transaction(asked)) = parse(wanted.line) else {
        return false;
    };
    let mut bytes = [0; 64];
    let count = decode(asked.digits, &mut bytes);
    asked.low == wanted.low
        && asked.area_length == wanted.area_length
        && &bytes[..count] == wanted.sent
}

#[test]
fn lines_that_are_no_record(rt: HostRuntime) {
    for line in NO_RECORDS {
        assert!(rt; parse(line).is_none(), "{}", line.len());
    }
}

#[test]
fn records(rt: HostRuntime) {
    assert!(rt; matches!(parse(b"ST"), Some(Record::Step)));
    assert!(rt; matches!(parse(b"PW"), Some(Record::Power)));
    for transaction in &TRANSACTIONS {
        assert!(rt; asks_for(transaction), "{}", transaction.line.len());
    }
}

// The longest record has 64 sent bytes: 136 bytes. A line that is cut at 137 is still no record.
#[test]
fn longest_record(rt: HostRuntime) {
    let mut line = Text::new();
    for byte in b"TX 1 64 " {
        line.keep(*byte);
    }
    for _ in 0..128 {
        line.keep(b'0');
    }
    assert!(rt; line.as_bytes().len() == 136);
    assert!(rt; parse(line.as_bytes()).is_some());
    for _ in 0..4 {
        line.keep(b'0');
        assert!(rt; line.as_bytes().len() == 137);
        assert!(rt; parse(line.as_bytes()).is_none());
    }
}

#[test]
fn answers(rt: HostRuntime) {
    assert!(rt; Text::unknown().as_bytes() == b"??".as_slice());
    for (number, text) in NUMBERS {
        assert!(rt; Text::number(number).as_bytes() == text, "{}", number);
    }
    for (outcome, driven, area, text) in ANSWERS {
        assert!(rt;
            Text::transaction(outcome, driven, area).as_bytes() == text,
            "{}",
            outcome
        );
    }
    assert!(rt; Text::transaction(0, 64, &[0; 65]).as_bytes().len() == 133);
}
