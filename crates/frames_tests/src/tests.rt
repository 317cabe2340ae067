use crate::expected::{AFTER, expected};
use frames::decode::decode;
use frames::refusal::FrameRefusal;
use std::process::Abort;
use std::test::Fail;

fn agrees(rt: &impl Abort, code: u8, sent: &[u8]) -> Result<(), Fail> {
    assert_eq!(rt;
        decode(sent),
        expected(code, sent),
        "code {code}, {} bytes",
        sent.len()
    );
    Ok(())
}

fn agrees_at_each_length(rt: &impl Abort, code: u8) -> Result<(), Fail> {
    let [a, b, c, d, e, f, g] = AFTER;
    let sent = [code, a, b, c, d, e, f, g];
    for length in 0..9 {
        agrees(rt, code, &sent[0..length])?;
    }
    Ok(())
}

#[test]
fn every_code_at_every_length(rt: HostRuntime) -> Result<(), Fail> {
    for code in 0..=255 {
        agrees_at_each_length(&rt, code)?;
    }
    Ok(())
}

#[test]
fn numbers_of_refusals(rt: HostRuntime) {
    assert_eq!(rt; FrameRefusal::UnlistedCode.number(), 2);
    assert_eq!(rt; FrameRefusal::WrongCount.number(), 3);
}
