ghost use Rattle.std.specs.Prelude.{◌≡◌, ℕ, length, map, is_ok, if◌then◌else◌, ◌==◌, nat_eq};
ghost use Rattle.arrays.specs.Store.{Store};
ghost use Rattle.rules.specs.Calls.{new_card};
ghost use Rattle.card.specs.Promise.{CalibrationKept};
ghost use Rattle.card.specs.View.{view};
ghost use Rattle.play.specs.Played.{chip_after_call, chip_after_calls, answer_to, answers_to, area_after, area_after_calls, Made};
ghost use Rattle.play.specs.Unplayed.{card_in};

use crate::call::{Answer, Call};
use crate::log::Entry;
use crate::wrong_log::WrongLog;
use arrays::array::Array;
use card::card::Card;
use card::store_card::StoreCard;

// Makes one call with the area, and tells what it answers.
fn make<C: StoreCard>(card: &mut C, call: Call<'_>, area: &mut [u8]) -> Answer
    ensures chip { C.chip card.new ≡ chip_after_call (C.chip card.old) (length area.old) call.entry }
    ensures answer { result ≡ answer_to (C.chip card.old) (length area.old) call.entry }
    ensures area { area.new ≡ area_after (C.chip card.old) call.entry area.old }
{
    match call {
        Call::Transaction { sent, low } => Answer::from(card.transact(sent, low, area)),
        Call::Step => Answer::Left(card.step()),
        Call::PowerCycle => {
            card.power_cycle();
            Answer::Powered
        }
    }
}

// The calls in their order; the log gets what each answers.
fn log_calls<C: StoreCard, E: Entry + Drop>(
    card: &mut C,
    calls: &[Call<'_>],
    area: &mut [u8],
    log: &mut [E],
)
    requires { length calls.now ≡ length log.old }
    ensures chip { C.chip card.new ≡ chip_after_calls (C.chip card.old) (length area.old) calls.now }
    ensures log { log.new ≡ map E.kept (answers_to (C.chip card.old) (length area.old) calls.now) }
    ensures area { area.new ≡ area_after_calls (C.chip card.old) (length area.old) calls.now area.old }
{
    // The log by index, since after `log.iter_mut().zip(calls)` a proof knows none of its entries.
    for (i, call) in calls.iter().enumerate() {
        log[i] = E::keep(make(card, *call, area));
    }
}

// The calls make a run of the law.
fn are_a_run(calls: &[Call<'_>])
    ensures { (n : ℕ) (main otp : Store) → Made n calls.now main otp }
{
    let _none = calls.is_empty();
}

// Makes a new card and the calls on it, with the area lent to each; another slice, as long as the calls (which may stand in memory that is only read), logs the answers.
pub fn play<M: Array, O: Array, E: Entry + Drop>(
    main: M,
    otp: O,
    calls: &[Call<'_>],
    area: &mut [u8],
    log: &mut [E],
) -> Result<Card<M, O>, WrongLog<M, O>>
    ensures done { is_ok result ≡ (length calls.now == length log.old) }
    ensures card { view M.meaning O.meaning (card_in result) ≡ (if nat_eq (length calls.now) (length log.old) then chip_after_calls (new_card (M.meaning main) (O.meaning otp)) (length area.old) calls.now else new_card (M.meaning main) (O.meaning otp)) }
    ensures answers { log.new ≡ (if nat_eq (length calls.now) (length log.old) then map E.kept (answers_to (new_card (M.meaning main) (O.meaning otp)) (length area.old) calls.now) else log.old) }
    ensures area { area.new ≡ (if nat_eq (length calls.now) (length log.old) then area_after_calls (new_card (M.meaning main) (O.meaning otp)) (length area.old) calls.now area.old else area.old) }
    ensures law { CalibrationKept (M.meaning main) (O.meaning otp) }
    ensures run { (n : ℕ) (main otp : Store) → Made n calls.now main otp }
{
    are_a_run(calls);
    let mut card = Card::new(main, otp);
    if calls.len() != log.len() {
        return Err(WrongLog { card });
    }
    log_calls(&mut card, calls, area, log);
    Ok(card)
}
