use card::card::Card;

// A log of another length than the list of calls: nothing was called, and the card is new.
#[derive(Drop)]
pub struct WrongLog<M, O> {
    pub card: Card<M, O>,
}
