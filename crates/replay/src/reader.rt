use tape::text::Text;

// A card, and the first bytes of the next line, enough to know whether it is a record.
#[derive(Drop)]
pub struct Reader<C> {
    pub(crate) card: C,
    pub(crate) line: Text,
}
